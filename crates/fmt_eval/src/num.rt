ghost use Rattle.std.specs.Prelude.{◌≡◌, ◌^◌, ◌<◌, unsigned_abs, pos, int_lt};
ghost use Rattle.std.specs.Int.{w32, w64, cast_signed, int_rem_euclid};
ghost use Rattle.fmt_eval.specs.Numbers.{number, reduced, pattern, truth, is_true};
ghost use Rattle.fmt_eval.specs.NumView.{num_view, exact_bits};

use crate::narrow::converted;
use fmt_expr::CKind;

/// A number of one of C's kinds after promotion.
#[derive(Clone, Copy, Debug, PartialEq, Eq)]
pub struct Num {
    /// Its bits, sign-extended to 64 from a signed kind.
    pub bits: u64,
    /// Its kind.
    pub kind: CKind,
}

impl Num {
    /// The exact number.
    pub fn exact(self) -> i128
        ensures value { result ≡ (num_view self).exact }
        ensures bound { unsigned_abs result < 2 ^ 64 }
    {
        match self.kind {
            CKind::I32 | CKind::I64 => self.bits.cast_signed() as i128,
            CKind::U32 | CKind::U64 => self.bits as i128,
        }
    }

    /// What a kind leaves of an exact number.
    pub(crate) fn reduced(kind: CKind, exact: i128) -> Num
        ensures { num_view result ≡ number kind (reduced kind exact) }
    {
        let bits = reduced_bits(kind, exact);
        Num { bits, kind }
    }

    /// What a kind leaves of the number.
    pub(crate) fn converted(self, kind: CKind) -> Num
        ensures { num_view result ≡ number kind (reduced kind (num_view self).exact) }
    {
        let bits = converted(kind, self);
        Num { bits, kind }
    }

    /// Whether it is below 0.
    pub fn is_negative(self) -> bool
        ensures { result ≡ int_lt (num_view self).exact (pos 0) }
    {
        match self.kind {
            CKind::I32 | CKind::I64 => self.bits.cast_signed() < 0,
            CKind::U32 | CKind::U64 => false,
        }
    }

    /// The number without its sign.
    pub fn magnitude(self) -> u64
        ensures { result ≡ unsigned_abs (num_view self).exact }
    {
        match self.kind {
            CKind::I32 | CKind::I64 => self.bits.cast_signed().unsigned_abs(),
            CKind::U32 | CKind::U64 => self.bits,
        }
    }

    /// 1 or 0, of kind I32.
    pub(crate) fn truth(holds: bool) -> Num
        ensures { num_view result ≡ truth holds }
    {
        Num {
            bits: holds as u64,
            kind: CKind::I32,
        }
    }

    /// Whether it is not 0.
    pub(crate) fn is_true(self) -> bool
        ensures { result ≡ is_true (num_view self) }
    {
        self.bits != 0
    }

    /// Its 64 bits, as two's complement: they are kept so, whatever the kind.
    #[tactic(auto, using(crate::proofs::Reductions::pattern_by))]
    pub fn pattern(self) -> u64
        ensures { result ≡ pattern (num_view self).exact }
    {
        self.bits
    }
}

#[tactic(auto, using(crate::proofs::Reductions::reduced_i32, crate::proofs::Reductions::reduced_u32, crate::proofs::Reductions::reduced_i64, crate::proofs::Reductions::reduced_u64))]
fn reduced_bits(kind: CKind, exact: i128) -> u64
    ensures { exact_bits kind result ≡ reduced kind exact }
{
    match kind {
        CKind::I32 => sign_extended(low_half(exact)),
        CKind::U32 => low_half(exact) as u64,
        CKind::I64 | CKind::U64 => low(exact),
    }
}

/// The 64 bits of a number of 32 with a sign.
pub(crate) fn sign_extended(low: u32) -> u64
    ensures { cast_signed w64 result ≡ cast_signed w32 low }
{
    (low.cast_signed() as i64).cast_unsigned()
}

fn low_half(exact: i128) -> u32
    ensures { result ≡ unsigned_abs (int_rem_euclid exact (pos (2 ^ 32))) }
{
    exact.rem_euclid(4_294_967_296) as u32
}

/// The low 64 bits of an exact number, as two's complement.
pub fn low(exact: i128) -> u64
    ensures { result ≡ pattern exact }
{
    exact.rem_euclid(18_446_744_073_709_551_616) as u64
}
