//! Casts of numbers.

ghost use Rattle.std.specs.Prelude.{◌≡◌, ◌^◌, unsigned_abs, pos};
ghost use Rattle.std.specs.Int.{w8, w16, int_rem_euclid, int_wrap};
ghost use Rattle.fmt_eval.specs.Operators.{cast, cast_bits};
ghost use Rattle.fmt_eval.specs.NumView.{num_view};

use crate::num::Num;
use fmt_expr::{CKind, CastTo};

fn low_byte(exact: i128) -> u8
    ensures { result ≡ unsigned_abs (int_rem_euclid exact (pos (2 ^ 8))) }
{
    exact.rem_euclid(256) as u8
}

fn low_quarter(exact: i128) -> u16
    ensures { result ≡ unsigned_abs (int_rem_euclid exact (pos (2 ^ 16))) }
{
    exact.rem_euclid(65_536) as u16
}

#[tactic(auto, using(crate::proofs::Reductions::signed_8))]
fn signed_byte(exact: i128) -> i8
    ensures { result ≡ int_wrap w8 exact }
{
    low_byte(exact).cast_signed()
}

#[tactic(auto, using(crate::proofs::Reductions::signed_16))]
fn signed_quarter(exact: i128) -> i16
    ensures { result ≡ int_wrap w16 exact }
{
    low_quarter(exact).cast_signed()
}

/// A cast of a number.
pub fn cast(to: CastTo, a: Num) -> Num
    ensures { num_view result ≡ cast to (num_view a) }
{
    let CastTo::Bits { width, signed } = to else {
        return match to {
            CastTo::Truth => Num::truth(a.is_true()),
            _ => a,
        };
    };
    cast_bits(width, signed, a)
}

/// A number modulo a width of 8, 16, 32 or 64 bits, with a sign or without, and then promoted.
pub fn cast_bits(width: u32, signed: bool, a: Num) -> Num
    ensures { num_view result ≡ cast_bits width signed (num_view a).exact }
{
    match (width, signed) {
        (8, true) => Num::reduced(CKind::I32, signed_byte(a.exact()) as i128),
        (8, false) => Num::reduced(CKind::I32, low_byte(a.exact()) as i128),
        (16, true) => Num::reduced(CKind::I32, signed_quarter(a.exact()) as i128),
        (16, false) => Num::reduced(CKind::I32, low_quarter(a.exact()) as i128),
        (32, true) => a.converted(CKind::I32),
        (32, false) => a.converted(CKind::U32),
        (_, true) => a.converted(CKind::I64),
        (_, false) => a.converted(CKind::U64),
    }
}
