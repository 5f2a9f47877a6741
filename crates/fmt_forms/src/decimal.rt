//! Integers that are shown as they are. Most are.

ghost use Rattle.std.specs.Prelude.{◌≡◌, ◌&&◌, ◌++◌};
ghost use Rattle.std.specs.Fmt.{decimal};
ghost use Rattle.fmt_forms.specs.Integers.{integer_text, is_decimal, is_signed};
ghost use Rattle.fmt_forms.specs.Plain.{is_plain, minus};
ghost use Rattle.fmt_forms.specs.Shows.{Shows};

use crate::few_digits::few_digits;
use crate::form::Form;
use crate::hexadecimal::{is_zeroed, show_zeroed};
use crate::integer::put_integer;
use fmt_directives::Base;
use itoa::write_digits;
use trace_base::Tail;

/// Whether a conversion shows a sign.
#[inline(always)]
pub fn is_signed(base: Base) -> bool
    ensures { result ≡ is_signed base }
{
    matches!(base, Base::Signed)
}

#[inline(always)]
fn has_minus(base: Base, negative: bool) -> bool
    ensures { result ≡ (is_signed base && negative) }
{
    is_signed(base) && negative
}

#[inline(always)]
fn is_decimal(base: Base) -> bool
    ensures { result ≡ is_decimal base }
{
    matches!(base, Base::Signed | Base::Unsigned)
}

/// Whether an integer is shown as its decimal digits, with at most a minus before them.
#[inline(always)]
fn is_plain(base: Base, form: &Form) -> bool
    ensures { result ≡ is_plain base form.now }
{
    is_decimal(base) && form.width == 0 && form.precision.is_none() && !form.plus && !form.space
}

#[tactic(auto, using(crate::proofs::Gathering::put_shown, crate::proofs::Gathering::nothing_joined))]
fn show_minus(negative: bool, into: &mut Tail<'_>)
    ensures { Shows into.old into.new (minus negative) }
{
    if negative {
        into.put(b"-");
    }
}

/// Shows a number. Most have few digits.
#[inline(always)]
#[tactic(auto, using(crate::proofs::Gathering::put_shown))]
fn show_digits(n: u64, into: &mut Tail<'_>)
    ensures { Shows into.old into.new (decimal n) }
{
    if n < 1000 {
        let (digits, len) = few_digits(n);
        into.put_front(digits, len);
    } else {
        show_many(n, into);
    }
}

/// Shows a number of any length.
#[inline(always)]
fn show_many(n: u64, into: &mut Tail<'_>)
    ensures { Shows into.old into.new (decimal n) }
{
    let mut room = [0; 36];
    let start = write_digits(n, &mut room, 20);
    into.put_front(&room[start..], 20 - start);
}

#[inline(always)]
fn show_decimal(negative: bool, magnitude: u64, into: &mut Tail<'_>)
    ensures { Shows into.old into.new (minus negative ++ decimal magnitude) }
{
    show_minus(negative, into);
    show_digits(magnitude, into);
}

/// Shows an integer that is not plain. Most are hexadecimal numbers with no more than zeros before their digits.
#[inline(never)]
#[tactic(auto, using(crate::proofs::Gathering::kept_shown))]
fn show_formed(base: Base, form: &Form, negative: bool, magnitude: u64, into: &mut Tail<'_>)
    ensures { Shows into.old into.new (integer_text base form.now negative magnitude) }
{
    match base {
        Base::Hex if is_zeroed(form) => show_zeroed(form, magnitude, into),
        _ => put_integer(base, form, negative, magnitude, into),
    }
}

/// Shows an integer of this sign and magnitude in its form.
#[inline(always)]
pub fn show_integer(base: Base, form: &Form, negative: bool, magnitude: u64, into: &mut Tail<'_>)
    ensures { Shows into.old into.new (integer_text base form.now negative magnitude) }
{
    if is_plain(base, form) {
        show_decimal(has_minus(base, negative), magnitude, into);
    } else {
        show_formed(base, form, negative, magnitude, into);
    }
}
