//! Numbers: their value and their kind.

ghost use Rattle.std.specs.Prelude.{◌≡◌, ◌≤◌, ◌⊎◌, IfSome, IfNone, ℕ, option_map};
ghost use Rattle.fmt_literal.specs.declared.ckind.CKind.{CKind};
ghost use Rattle.fmt_literal.specs.Numeral.{says_unsigned, least_width, may_have, kind_of_number, numeral_of, IsNumeral};
ghost use Rattle.fmt_literal.specs.Views.{numeral_view};

use crate::ckind::CKind;
use fmt_lexer::{Base, number_parts};

/// A number and its kind.
#[derive(Clone, Copy, Debug, PartialEq, Eq)]
pub struct Numeral {
    /// Its 64 bits.
    pub bits: u64,
    /// Its kind.
    pub kind: CKind,
}

/// Whether a suffix has a `u`.
fn says_unsigned(suffix: &[u8]) -> bool
    ensures { result ≡ says_unsigned suffix.now }
{
    suffix.iter().any(|byte| matches!(byte, b'u' | b'U'))
}

/// The fewest bits that the `l`s of a suffix ask for.
fn least_width(suffix: &[u8], long: u32) -> u32
    requires { long ≤ 8 }
    ensures { result ≡ least_width suffix.now long }
{
    let longs = suffix
        .iter()
        .filter(|byte| matches!(byte, b'l' | b'L'))
        .count();
    match longs {
        0 => 32,
        1 => 8 * long,
        _ => 64,
    }
}

impl CKind {
    /// Whether a number with this base and suffix may have the kind.
    fn may_have(self, base: Base, suffix: &[u8], long: u32, number: u64) -> bool
        requires { long ≤ 8 }
        ensures { result ≡ may_have base suffix.now long number self }
    {
        let unsigned = says_unsigned(suffix);
        let (width, signed, limit): (u32, bool, u64) = match self {
            CKind::I32 => (32, true, 0x7fff_ffff),
            CKind::U32 => (32, false, 0xffff_ffff),
            CKind::I64 => (64, true, 0x7fff_ffff_ffff_ffff),
            CKind::U64 => (64, false, 0xffff_ffff_ffff_ffff),
        };
        let may_sign = if signed {
            !unsigned
        } else {
            unsigned || base != Base::Decimal
        };
        least_width(suffix, long) <= width && may_sign && number <= limit
    }
}

/// The kind of a number (C11 6.4.4.1).
#[tactic(auto, unfolding(crate::specs::Numeral::kind_of_number))]
fn kind_of_number(base: Base, suffix: &[u8], long: u32, number: u64) -> CKind
    requires { long ≤ 8 }
    ensures { result ≡ kind_of_number base suffix.now long number }
{
    if CKind::I32.may_have(base, suffix, long, number) {
        CKind::I32
    } else if CKind::U32.may_have(base, suffix, long, number) {
        CKind::U32
    } else if CKind::I64.may_have(base, suffix, long, number) {
        CKind::I64
    } else {
        CKind::U64
    }
}

/// The number that a spelling is, as it is computed.
#[tactic(auto, using(crate::proofs::Numbers::numeral_there, crate::proofs::Numbers::no_numeral))]
fn computed(spelling: &[u8], long: u32) -> Option<Numeral>
    requires { long ≤ 8 }
    ensures { option_map numeral_view result ≡ numeral_of spelling.now long }
{
    let parts = number_parts(spelling)?;
    let kind = kind_of_number(parts.base, parts.suffix, long, parts.value);
    Some(Numeral {
        bits: parts.value,
        kind,
    })
}

/// The number that a spelling is, where the kernel's long has 4 or 8 bytes. None exactly where it is no number of 64
/// bits.
#[tactic(auto, using(crate::proofs::Numbers::found_numeral, crate::proofs::Numbers::none_numeral))]
pub fn number(spelling: &[u8], long: u32) -> Option<Numeral>
    requires { (long ≡ 4) ⊎ (long ≡ 8) }
    ensures found { IfSome result (λ n. IsNumeral spelling.now long n.bits n.kind) }
    ensures none { IfNone result ((n : ℕ) (kind : CKind) → IsNumeral spelling.now long n kind → ⊥) }
    ensures exact { option_map numeral_view result ≡ numeral_of spelling.now long }
{
    computed(spelling, long)
}
