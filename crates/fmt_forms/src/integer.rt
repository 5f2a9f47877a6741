//! Integers with flags, width and precision.

ghost use Rattle.std.specs.Prelude.{◌≡◌, ◌==◌, slice_index, if◌then◌else◌};
ghost use Rattle.std.specs.Fmt.{digits};
ghost use Rattle.trace_base.specs.Kept.{put};
ghost use Rattle.trace_base.specs.TailView.{kept, lent};
ghost use Rattle.fmt_forms.specs.Integers.{shown, zeros, octal_zero, mark, sign, integer_text};

use crate::form::Form;
use crate::layout::put_laid;
use fmt_directives::Base;
use itoa::Buffer;
use trace_base::{Tail, write_digits};

/// The digits of a number in a base; none of 0 with a precision of 0.
fn digits_of<'b>(
    base: Base,
    precision: Option<u32>,
    n: u64,
    decimal: &'b mut Buffer,
    other: &'b mut [u8; 64],
) -> &'b [u8]
    ensures { result.now ≡ shown base precision n }
{
    if n == 0 && precision == Some(0) {
        return &[];
    }
    match base {
        Base::Signed | Base::Unsigned => decimal.format(n).as_bytes(),
        Base::Hex => written(n, false, false, other),
        Base::UpperHex => written(n, false, true, other),
        Base::Octal => written(n, true, false, other),
    }
}

/// The digits of a number in base 8 or 16, in a buffer.
pub(crate) fn written<'b>(n: u64, octal: bool, upper: bool, buffer: &'b mut [u8; 64]) -> &'b [u8]
    ensures { result.now ≡ digits (if octal then 8 else 16) upper n }
{
    let start = write_digits(n, octal, upper, buffer);
    &buffer[start..]
}

/// How many zeros stand before the digits.
fn zeros(base: Base, form: &Form, digits: &[u8]) -> u32
    ensures { result ≡ zeros base form.now digits.now }
{
    let lacking = (form.precision.unwrap_or(1) as usize).saturating_sub(digits.len()) as u32;
    if lacking == 0 {
        octal_zero(base, form.alternate, digits)
    } else {
        lacking
    }
}

fn octal_zero(base: Base, alternate: bool, digits: &[u8]) -> u32
    ensures { result ≡ octal_zero base alternate digits.now }
{
    match base {
        Base::Octal if alternate => { if begins_with_zero(digits) { 0 } else { 1 } }
        _ => 0,
    }
}

fn begins_with_zero(digits: &[u8]) -> bool
    ensures { result ≡ (slice_index digits.now 0 == 48) }
{
    !digits.is_empty() && digits[0] == b'0'
}

/// What stands before the digits.
fn mark_of(base: Base, form: &Form, negative: bool, n: u64) -> &'static [u8]
    ensures { result.now ≡ mark base form.now negative n }
{
    match base {
        Base::Signed => sign(form, negative),
        Base::Hex if form.alternate && n != 0 => b"0x",
        Base::UpperHex if form.alternate && n != 0 => b"0X",
        _ => b"",
    }
}

fn sign(form: &Form, negative: bool) -> &'static [u8]
    ensures { result.now ≡ sign form.now negative }
{
    if negative {
        b"-"
    } else if form.plus {
        b"+"
    } else if form.space {
        b" "
    } else {
        b""
    }
}

/// Puts an integer of this sign and magnitude in its width, with the marks and zeros that it asks for.
#[inline(never)]
pub fn put_integer(base: Base, form: &Form, negative: bool, magnitude: u64, into: &mut Tail<'_>)
    ensures same_slice { lent into.new ≡ lent into.old }
    ensures value { kept into.new ≡ put (kept into.old) (integer_text base form.now negative magnitude) }
{
    let mut decimal = Buffer::new();
    let mut other = [0; 64];
    let digits = digits_of(base, form.precision, magnitude, &mut decimal, &mut other);
    let mark = mark_of(base, form, negative, magnitude);
    put_laid(form, mark, zeros(base, form, digits), digits, into);
}
