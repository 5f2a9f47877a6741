// Zero bytes up to a multiple of a page.

ghost use Rattle.std.specs.Prelude.{◌≡◌, ◌+◌, ◌<◌, ◌%◌, ◌^◌, ℕ, OnErr, OnOk};
ghost use Rattle.trace_outside.specs.Causes.{HasCause};
ghost use Rattle.trace_outside.specs.Writing.{Gained, GainedPrefix};
ghost use Rattle.new_files.specs.Padding.{IsPage, up_to_page, zeros};

use trace_outside::{Failed, Sink, write_all};

/// Zero bytes, of which several such pieces are written where a page is larger.
const ZEROS: [u8; 4096] = [0; 4096];

/// How many bytes are missing from a place, told modulo 2^64, up to a multiple of the page size.
pub fn gap(page: u32, place: u64) -> u32
    requires { IsPage page }
    ensures gap { (whole : ℕ) → place ≡ whole % 2 ^ 64 → up_to_page page whole ≡ whole + result }
    ensures most { result < page }
{
    let over = (place % u64::from(page)) as u32;
    if over == 0 { 0 } else { page - over }
}

/// Writes so many zero bytes.
///
/// # Errors
/// `Failed` where a write failed; some of them were written then.
pub fn write_zeros<O: Sink>(count: u32, out: &mut O) -> Result<(), Failed>
    ensures gained { OnOk result (Gained (O.written out.old) (O.written out.new) (zeros count)) }
    ensures prefix { OnErr result (GainedPrefix (O.written out.old) (O.written out.new) (zeros count)) }
    ensures name { O.name out.new ≡ O.name out.old }
    ensures cause { HasCause (O.faults out.old) (O.faults out.new) result }
{
    let rest = (count % 4096) as usize;
    write_all(out, &ZEROS[..rest])?;
    for _ in 0..count / 4096 {
        write_all(out, &ZEROS)?;
    }
    Ok(())
}
