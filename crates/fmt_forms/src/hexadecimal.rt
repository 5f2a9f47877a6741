//! Numbers in lower hexadecimal digits, as most addresses are shown, and numbers with zeros before them.

ghost use Rattle.std.specs.Prelude.{◌≡◌, ◌+◌, ◌-◌, ◌/◌, ◌%◌, ◌<◌, ◌≤◌, ◌∷◌, ◌++◌, drop, false, true, length, replicate};
ghost use Rattle.std.specs.Fmt.{digits, digit_glyph};
ghost use Rattle.fmt_directives.specs.declared.directive.Base.TheVariants.{Hex};
ghost use Rattle.fmt_forms.specs.Integers.{integer_text};
ghost use Rattle.fmt_forms.specs.Plain.{is_zeroed};
ghost use Rattle.fmt_forms.specs.Shows.{Shows};

use crate::form::Form;
use crate::repeat::Fill;
use trace_base::Tail;

/// Both digits of each byte.
static PAIRS: [u8; 512] =
    *b"000102030405060708090a0b0c0d0e0f101112131415161718191a1b1c1d1e1f202122232425262728292a2b2c2d2e2f303132333435363738393a3b3c3d3e3f404142434445464748494a4b4c4d4e4f505152535455565758595a5b5c5d5e5f606162636465666768696a6b6c6d6e6f707172737475767778797a7b7c7d7e7f808182838485868788898a8b8c8d8e8f909192939495969798999a9b9c9d9e9fa0a1a2a3a4a5a6a7a8a9aaabacadaeafb0b1b2b3b4b5b6b7b8b9babbbcbdbebfc0c1c2c3c4c5c6c7c8c9cacbcccdcecfd0d1d2d3d4d5d6d7d8d9dadbdcdddedfe0e1e2e3e4e5e6e7e8e9eaebecedeeeff0f1f2f3f4f5f6f7f8f9fafbfcfdfeff";

/// Writes both digits of a number below 256.
#[inline(always)]
fn write_pair(pair: u64, room: &mut [u8], at: usize)
    requires pair { pair < 256 }
    requires room { at + 2 ≤ length room.old }
    ensures { drop at room.new ≡ digit_glyph false (pair / 16) ∷ digit_glyph false (pair % 16) ∷ drop (at + 2) room.old }
{
    let from = pair as usize * 2;
    let (high, low) = (PAIRS[from], PAIRS[from + 1]);
    room[at] = high;
    room[at + 1] = low;
}

/// Writes the digits of a number below 256.
#[inline(always)]
fn write_first(n: u64, room: &mut [u8], end: usize) -> usize
    requires few { n < 256 }
    requires room { length (digits 16 false n) ≤ end }
    requires within { end ≤ length room.old }
    ensures start { result + length (digits 16 false n) ≡ end }
    ensures written { drop result room.new ≡ digits 16 false n ++ drop end room.old }
{
    if n < 16 {
        room[end - 1] = PAIRS[n as usize * 2 + 1];
        return end - 1;
    }
    write_pair(n, room, end - 2);
    end - 2
}

/// Writes the digits of a number so that they end at a place, and gives the place where they begin.
#[inline(always)]
fn write_hexadecimal(n: u64, room: &mut [u8], end: usize) -> usize
    requires room { length (digits 16 false n) ≤ end }
    requires within { end ≤ length room.old }
    ensures start { result + length (digits 16 false n) ≡ end }
    ensures written { drop result room.new ≡ digits 16 false n ++ drop end room.old }
{
    let mut left = n;
    let mut at = end;
    while left >= 256 {
        write_pair(left % 256, room, at - 2);
        left /= 256;
        at -= 2;
    }
    write_first(left, room, at)
}

/// Shows the digits of a number.
#[inline(always)]
fn show_digits(n: u64, into: &mut Tail<'_>)
    ensures { Shows into.old into.new (digits 16 false n) }
{
    let mut room = [0; 32];
    let start = write_hexadecimal(n, &mut room, 16);
    into.put_front(&room[start..], 16 - start);
}

/// Shows a text and the digits of a number after it.
#[inline(always)]
pub(crate) fn show_hexadecimal(before: &[u8], n: u64, into: &mut Tail<'_>)
    ensures { Shows into.old into.new (before.now ++ digits 16 false n) }
{
    into.put(before);
    show_digits(n, into);
}

/// Whether a number is shown as its digits, with at most zeros before them up to 16 digits.
#[inline(always)]
pub(crate) fn is_zeroed(form: &Form) -> bool
    ensures { result ≡ is_zeroed form.now }
{
    form.precision.is_none()
        && !form.alternate
        && (form.width == 0 || (form.zero && !form.left && form.width <= 16))
}

#[inline(always)]
#[tactic(auto, using(crate::proofs::Gathering::put_shown, crate::proofs::Gathering::nothing_joined))]
fn show_zeros(count: usize, into: &mut Tail<'_>)
    requires { count ≤ 16 }
    ensures { Shows into.old into.new (replicate count 48) }
{
    if count > 0 {
        into.put_front(Fill::Zero.block(), count);
    }
}

/// Shows the digits of a number, with zeros before them in a width.
#[inline(always)]
fn show_in_width(width: usize, n: u64, into: &mut Tail<'_>)
    requires { width ≤ 16 }
    ensures { Shows into.old into.new (replicate (width - length (digits 16 false n)) 48 ++ digits 16 false n) }
{
    let mut room = [0; 32];
    let start = write_hexadecimal(n, &mut room, 16);
    let len = 16 - start;
    let lacking = width.saturating_sub(len);
    show_zeros(lacking, into);
    into.put_front(&room[start..], len);
}

/// Shows a number in a form that asks for no more than zeros before its digits.
#[inline(always)]
pub(crate) fn show_zeroed(form: &Form, n: u64, into: &mut Tail<'_>)
    requires { is_zeroed form.now ≡ true }
    ensures { Shows into.old into.new (integer_text Hex form.now false n) }
{
    show_in_width(form.width as usize, n, into);
}
