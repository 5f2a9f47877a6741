//! C's operators on numbers.

ghost use Rattle.std.specs.Prelude.{◌≡◌, ◌^◌, ◌<◌, unsigned_abs, pos, ◌+ℤ◌, ◌-ℤ◌, ◌*ℤ◌, IfSome, bit_or, bit_and};
ghost use Rattle.fmt_literal.specs.Numeral.{width_of};
ghost use Rattle.fmt_eval.specs.Numbers.{number, reduced};
ghost use Rattle.fmt_eval.specs.Operators.{common, bitwise, shift_count, signed, quotient, remainder, shifted_left, shifted_right, applied, prefixed};
ghost use Rattle.fmt_eval.specs.NumView.{num_view};

use crate::narrow::{at_most, converted, equal, exact, less, narrowed};
use crate::num::Num;
use c_operators::BinaryOp;
use fmt_expr::{CKind, PrefixOp};

/// The kind to which two operands are converted.
pub fn common(a: CKind, b: CKind) -> CKind
    ensures { result ≡ common a b }
{
    match (a, b) {
        (CKind::U64, _) | (_, CKind::U64) => CKind::U64,
        (CKind::I64, _) | (_, CKind::I64) => CKind::I64,
        (CKind::U32, _) | (_, CKind::U32) => CKind::U32,
        (CKind::I32, CKind::I32) => CKind::I32,
    }
}

/// How many bits a kind has.
fn width(kind: CKind) -> i128
    ensures { result ≡ pos (width_of kind) }
{
    match kind {
        CKind::I32 | CKind::U32 => 32,
        CKind::I64 | CKind::U64 => 64,
    }
}

/// What a kind leaves of a sum.
fn sum(kind: CKind, a: i128, b: i128) -> Num
    ensures { num_view result ≡ number kind (reduced kind (a +ℤ b)) }
{
    Num::reduced(kind, a.wrapping_add(b))
}

/// What a kind leaves of a difference.
fn difference(kind: CKind, a: i128, b: i128) -> Num
    ensures { num_view result ≡ number kind (reduced kind (a -ℤ b)) }
{
    Num::reduced(kind, a.wrapping_sub(b))
}

/// What a kind leaves of a product.
fn product(kind: CKind, a: i128, b: i128) -> Num
    ensures { num_view result ≡ number kind (reduced kind (a *ℤ b)) }
{
    Num::reduced(kind, a.wrapping_mul(b))
}

/// A number of this magnitude, negative or not.
fn signed(negative: bool, magnitude: u64) -> i128
    ensures { result ≡ signed negative magnitude }
{
    if negative {
        -(magnitude as i128)
    } else {
        magnitude as i128
    }
}

/// The quotient, rounded toward 0; 0 where it is by 0.
fn quotient(a: i128, b: i128) -> i128
    requires dividend { unsigned_abs a < 2 ^ 64 }
    requires divisor { unsigned_abs b < 2 ^ 64 }
    ensures { result ≡ quotient a b }
{
    if b == 0 {
        return 0;
    }
    // 64 bits are enough, and divided faster than 128.
    let magnitude = a.unsigned_abs() as u64 / b.unsigned_abs() as u64;
    signed((a < 0) != (b < 0), magnitude)
}

/// The remainder, with the sign of the dividend; 0 where it is by 0.
fn remainder(a: i128, b: i128) -> i128
    requires dividend { unsigned_abs a < 2 ^ 64 }
    requires divisor { unsigned_abs b < 2 ^ 64 }
    ensures { result ≡ remainder a b }
{
    if b == 0 {
        0
    } else {
        let magnitude = a.unsigned_abs() as u64 % b.unsigned_abs() as u64;
        signed(a < 0, magnitude)
    }
}

/// The count of a shift, if it is not negative and below the width.
fn shift_count(kind: CKind, count: i128) -> Option<u32>
    ensures value { result ≡ shift_count kind count }
    ensures small { IfSome result (λ n. n < 64) }
{
    if count >= 0 && count < width(kind) {
        Some(count as u32)
    } else {
        None
    }
}

#[tactic(auto, using(std::proofs::lemmas::Nat::one_shl))]
fn power_of_two(n: u32) -> i128
    requires { n < 64 }
    ensures { result ≡ pos (2 ^ n) }
{
    (1u64 << n) as i128
}

fn shifted_left(a: Num, count: i128) -> Num
    ensures { num_view result ≡ shifted_left (num_view a) count }
{
    let Some(n) = shift_count(a.kind, count) else {
        return Num::reduced(a.kind, 0);
    };
    product(a.kind, a.exact(), power_of_two(n))
}

fn shifted_right(a: Num, count: i128) -> Num
    ensures { num_view result ≡ shifted_right (num_view a) count }
{
    match shift_count(a.kind, count) {
        Some(n) => Num::reduced(a.kind, a.exact().wrapping_shr(n)),
        None => Num::reduced(a.kind, 0),
    }
}

fn either(a: u64, b: u64) -> u64
    ensures { result ≡ bit_or a b }
{
    a | b
}

/// The bits that two numbers have both.
#[inline(always)]
pub fn bit_and(a: Num, b: Num) -> Num
    ensures { num_view result ≡ bitwise bit_and (num_view a) (num_view b) }
{
    let kind = common(a.kind, b.kind);
    narrowed(kind, converted(kind, a) & converted(kind, b))
}

/// A binary operator on two numbers.
pub fn applied(op: BinaryOp, a: Num, b: Num) -> Num
    ensures { num_view result ≡ applied op (num_view a) (num_view b) }
{
    let kind = common(a.kind, b.kind);
    let x = converted(kind, a);
    let y = converted(kind, b);
    match op {
        BinaryOp::LogicOr => Num::truth(a.is_true() || b.is_true()),
        BinaryOp::LogicAnd => Num::truth(a.is_true() && b.is_true()),
        BinaryOp::BitOr => narrowed(kind, either(x, y)),
        BinaryOp::BitXor => narrowed(kind, x ^ y),
        BinaryOp::BitAnd => bit_and(a, b),
        BinaryOp::Equal => Num::truth(equal(kind, x, y)),
        BinaryOp::NotEqual => Num::truth(!equal(kind, x, y)),
        BinaryOp::Less => Num::truth(less(kind, x, y)),
        BinaryOp::LessEqual => Num::truth(at_most(kind, x, y)),
        BinaryOp::Greater => Num::truth(less(kind, y, x)),
        BinaryOp::GreaterEqual => Num::truth(at_most(kind, y, x)),
        BinaryOp::ShiftLeft => shifted_left(a, b.exact()),
        BinaryOp::ShiftRight => shifted_right(a, b.exact()),
        BinaryOp::Plus => sum(kind, exact(kind, x), exact(kind, y)),
        BinaryOp::Minus => difference(kind, exact(kind, x), exact(kind, y)),
        BinaryOp::Times => product(kind, exact(kind, x), exact(kind, y)),
        BinaryOp::Divide => Num::reduced(kind, quotient(exact(kind, x), exact(kind, y))),
        BinaryOp::Remainder => Num::reduced(kind, remainder(exact(kind, x), exact(kind, y))),
    }
}

/// A prefix operator on a number.
pub fn prefixed(op: PrefixOp, a: Num) -> Num
    ensures { num_view result ≡ prefixed op (num_view a) }
{
    match op {
        PrefixOp::Plus => a,
        PrefixOp::Minus => difference(a.kind, 0, a.exact()),
        PrefixOp::LogicNot => Num::truth(!a.is_true()),
        PrefixOp::Invert => difference(a.kind, -1, a.exact()),
    }
}
