// What stands in front of a new file's sub-buffers.

ghost use Rattle.std.specs.Prelude.{◌≡◌, ◌%◌, ◌^◌, length, OnErr, OnOk};
ghost use Rattle.trace_outside.specs.Causes.{HasCause};
ghost use Rattle.trace_outside.specs.Writing.{Gained, GainedPrefix};
ghost use Rattle.dat_header.specs.Allowed.{IsHeader};
ghost use Rattle.dat_header.specs.Written.{text_before_table};
ghost use Rattle.split_tool.specs.NewFile.{front_len, front_text};

use dat_header::{Header, header_len, write_with_table};
use new_files::{gap, write_zeros};
use trace_base::{ByteText, Part};
use trace_outside::{Failed, Sink};

/// The place of the first sub-buffer: the first multiple of the page size from the end of the header on. It is told modulo 2^64.
pub fn data_place(header: &Header) -> u64
    requires { IsHeader header.now }
    ensures { result ≡ front_len header.now % 2 ^ 64 }
{
    let len = header_len(header);
    len.wrapping_add(u64::from(gap(header.page, len)))
}

/// Writes the header with a table of these parts, and zero bytes up to the first sub-buffer. `before` is the header's text in
/// front of its table.
///
/// # Errors
/// `Failed` where a write failed; a prefix of all this was written then.
pub fn write_front<O: Sink>(
    header: &Header,
    before: &ByteText,
    parts: &[Part],
    out: &mut O,
) -> Result<(), Failed>
    requires allowed { IsHeader header.now }
    requires before { before.now ≡ text_before_table header.now }
    requires each { length parts.now ≡ header.now.cpus }
    ensures gained { OnOk result (Gained (O.written out.old) (O.written out.new) (front_text header.now parts.now)) }
    ensures prefix { OnErr result (GainedPrefix (O.written out.old) (O.written out.new) (front_text header.now parts.now)) }
    ensures name { O.name out.new ≡ O.name out.old }
    ensures cause { HasCause (O.faults out.old) (O.faults out.new) result }
{
    let len = write_with_table(header, before, parts, out)?;
    write_zeros(gap(header.page, len), out)
}
