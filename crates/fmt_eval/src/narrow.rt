//! Numbers of a kind, in 64 bits.

ghost use Rattle.std.specs.Prelude.{◌≡◌, ◌%◌, ◌^◌, ◌<◌, pos, int_lt, int_le, unsigned_abs};
ghost use Rattle.std.specs.Ordering.{int_eq};
ghost use Rattle.fmt_eval.specs.Numbers.{number, reduced, pattern};
ghost use Rattle.fmt_eval.specs.NumView.{num_view, exact_bits};

use crate::num::{Num, sign_extended};
use fmt_expr::CKind;

fn low_half(bits: u64) -> u32
    ensures { result ≡ bits % 2 ^ 32 }
{
    (bits % 4_294_967_296) as u32
}

/// The bits of what a kind leaves of 64 bits.
#[tactic(auto, using(crate::proofs::Reductions::narrowed_i32, crate::proofs::Reductions::unsigned_half, crate::proofs::Reductions::narrowed_i64, crate::proofs::Reductions::unsigned_whole))]
fn narrowed_bits(kind: CKind, bits: u64) -> u64
    ensures { exact_bits kind result ≡ reduced kind (pos bits) }
{
    match kind {
        CKind::I32 => sign_extended(low_half(bits)),
        CKind::U32 => low_half(bits) as u64,
        CKind::I64 | CKind::U64 => bits,
    }
}

/// What a kind leaves of 64 bits.
pub fn narrowed(kind: CKind, bits: u64) -> Num
    ensures { num_view result ≡ number kind (reduced kind (pos bits)) }
{
    let bits = narrowed_bits(kind, bits);
    Num { bits, kind }
}

/// The bits of a number that is converted to a kind.
#[tactic(auto, using(crate::proofs::Reductions::converted_is, crate::proofs::Reductions::pattern_is))]
pub fn converted(kind: CKind, n: Num) -> u64
    ensures value { exact_bits kind result ≡ reduced kind (num_view n).exact }
    ensures bits { result ≡ pattern (reduced kind (num_view n).exact) }
{
    narrowed_bits(kind, n.bits)
}

/// The exact number of a kind with these bits.
pub fn exact(kind: CKind, bits: u64) -> i128
    ensures value { result ≡ exact_bits kind bits }
    ensures bound { unsigned_abs result < 2 ^ 64 }
{
    Num { bits, kind }.exact()
}

/// Whether two numbers of a kind are equal.
pub fn equal(kind: CKind, a: u64, b: u64) -> bool
    ensures { result ≡ int_eq (exact_bits kind a) (exact_bits kind b) }
{
    match kind {
        CKind::I32 | CKind::I64 => a.cast_signed() == b.cast_signed(),
        CKind::U32 | CKind::U64 => a == b,
    }
}

/// Whether a number of a kind is less than another.
pub fn less(kind: CKind, a: u64, b: u64) -> bool
    ensures { result ≡ int_lt (exact_bits kind a) (exact_bits kind b) }
{
    match kind {
        CKind::I32 | CKind::I64 => a.cast_signed() < b.cast_signed(),
        CKind::U32 | CKind::U64 => a < b,
    }
}

/// Whether a number of a kind is at most another.
pub fn at_most(kind: CKind, a: u64, b: u64) -> bool
    ensures { result ≡ int_le (exact_bits kind a) (exact_bits kind b) }
{
    match kind {
        CKind::I32 | CKind::I64 => a.cast_signed() <= b.cast_signed(),
        CKind::U32 | CKind::U64 => a <= b,
    }
}
