// The lists of symbols and printk formats.

ghost use Rattle.std.specs.Prelude.{◌≡◌, ◌-◌, replicate};
ghost use Rattle.std.specs.Option.{option_map};
ghost use Rattle.trace_outside.specs.Causes.{HasCause};
ghost use Rattle.trace_outside.specs.Pending.{Puts};
ghost use Rattle.report_lists.specs.Lists as spec;

use symbols::Symbols;
use trace_base::write_digits;
use trace_outside::{Failed, Pending, Sink};

/// Puts the symbols by rising address, one `ADDRESS NAME` a line, the address in 16 hexadecimal digits (`-f`).
#[tactic(auto, using(trace_outside::proofs::Putting::put_all))]
pub fn put_symbols<O: Sink>(
    pending: &mut Pending,
    out: &mut O,
    symbols: &Symbols,
) -> Result<(), Failed>
    ensures puts { Puts (spec.symbols_list symbols.now.symbols) (O.written out.old) pending.old (O.written out.new) pending.new result }
    ensures name { O.name out.new ≡ O.name out.old }
    ensures cause { HasCause (O.faults out.old) (O.faults out.new) result }
{
    for i in 0..symbols.symbol_count() {
        put_row(pending, out, b"", b" ", symbols.symbol(i))?;
    }
    Ok(())
}

/// Puts the printk formats by rising address, one `0xADDRESS : TEXT` a line, the address in 16 hexadecimal digits (`-P`).
#[tactic(auto, using(trace_outside::proofs::Putting::put_all))]
pub fn put_printk_formats<O: Sink>(
    pending: &mut Pending,
    out: &mut O,
    symbols: &Symbols,
) -> Result<(), Failed>
    ensures puts { Puts (spec.printk_list symbols.now.printk) (O.written out.old) pending.old (O.written out.new) pending.new result }
    ensures name { O.name out.new ≡ O.name out.old }
    ensures cause { HasCause (O.faults out.old) (O.faults out.new) result }
{
    for i in 0..symbols.printk_count() {
        put_row(pending, out, b"0x", b" : ", symbols.printk(i))?;
    }
    Ok(())
}

/// Puts a row, if there is one: its address after a mark, and what stands at that.
fn put_row<'a, O: Sink>(
    pending: &mut Pending,
    out: &mut O,
    mark: &'a [u8],
    between: &'a [u8],
    row: Option<(u64, &'a [u8])>,
) -> Result<(), Failed>
    ensures puts { Puts (spec.entry (spec.row_line mark.now between.now) (option_map (λ r. (r.0, r.1.now)) row.entry)) (O.written out.old) pending.old (O.written out.new) pending.new result }
    ensures name { O.name out.new ≡ O.name out.old }
    ensures cause { HasCause (O.faults out.old) (O.faults out.new) result }
{
    match row {
        None => pending.put(out, b""),
        Some((address, text)) => {
            let mut buffer = [0; 64];
            let at = write_digits(address, false, false, &mut buffer);
            let digits = &buffer[at..];
            put_numbered(pending, out, mark, digits, between, text)
        }
    }
}

/// Puts a number's digits, filled to 16, and what is named by it, on a line of their own.
fn put_numbered<'a, O: Sink>(
    pending: &mut Pending,
    out: &mut O,
    mark: &'a [u8],
    digits: &'a [u8],
    between: &'a [u8],
    text: &'a [u8],
) -> Result<(), Failed>
    ensures puts { Puts (spec.numbered_line mark.now digits.now between.now text.now) (O.written out.old) pending.old (O.written out.new) pending.new result }
    ensures name { O.name out.new ≡ O.name out.old }
    ensures cause { HasCause (O.faults out.old) (O.faults out.new) result }
{
    let zeros: &'a [u8] = zeros(digits.len());
    pending.put_parts(out, &[mark, zeros, digits, between, text, b"\n"])
}

/// What fills a column of 16 digits.
fn zeros(len: usize) -> &'static [u8]
    ensures { result.now ≡ replicate (16 - len) 48 }
{
    &b"0000000000000000"[..16usize.saturating_sub(len)]
}
