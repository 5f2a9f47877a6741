//! Numbers, as C11 6.4.4.1 spells them, without digits apart from their kind.

ghost use Rattle.std.specs.Prelude.{◌≡◌, ◌^◌, ◌<◌, ◌≤◌, List, ℕ, take, drop, IfSome, IfNone};
ghost use Rattle.std.specs.List.{AllPass};
ghost use Rattle.std.specs.Char.{is_digit};
ghost use Rattle.std.specs.Str.Parse.{digits_value};
ghost use Rattle.std.specs.Option.{option_map, SomeIff};
ghost use Rattle.fmt_lexer.specs.declared.number.Base.{Base};
ghost use Rattle.fmt_lexer.specs.Number.{radix_of, IsNumber};
ghost use Rattle.fmt_lexer.specs.Reading.{split_prefix, digits_len, longs_of, is_suffix, parts_behind, number_parts};
ghost use Rattle.fmt_lexer.specs.PartsView.{parts_view};

use byte_classes::number_written;

/// How a number's digits are read, which its prefix tells.
#[derive(Clone, Copy, Debug, PartialEq, Eq)]
pub enum Base {
    /// No prefix.
    Decimal,
    /// `0x`.
    Hexadecimal,
    /// `0`, which is a number without digits after it too.
    Octal,
}

impl Base {
    /// 10, 16 or 8.
    pub(crate) fn radix(self) -> u32
        ensures value { result ≡ radix_of self }
        ensures range { (2 ≤ result) × (result ≤ 16) }
    {
        match self {
            Base::Decimal => 10,
            Base::Hexadecimal => 16,
            Base::Octal => 8,
        }
    }
}

/// A number's spelling after its prefix, and what it counts.
#[derive(Clone, Copy, Debug)]
pub struct NumberParts<'a> {
    pub base: Base,
    pub digits: &'a [u8],
    pub suffix: &'a [u8],
    /// What the digits write.
    pub value: u64,
}

/// The base of a spelling, and what follows its prefix.
#[tactic(auto, unfolding(crate::specs::Reading::split_prefix))]
fn split_prefix(spelling: &[u8]) -> (Base, &[u8])
    ensures { (result.0, result.1.now) ≡ split_prefix spelling.now }
{
    match spelling {
        [b'0', b'x', rest @ ..] => (Base::Hexadecimal, rest),
        [b'0', rest @ ..] => (Base::Octal, rest),
        _ => (Base::Decimal, spelling),
    }
}

/// How many digits stand at the front.
fn digits_len(base: Base, bytes: &[u8]) -> usize
    ensures { result ≡ digits_len base bytes.now }
{
    let radix = base.radix();
    bytes
        .iter()
        .take_while(|byte| char::from(**byte).is_digit(radix))
        .count()
}

/// The digits at the front, and what follows them.
#[tactic(auto, using(crate::proofs::Runs::run_within, crate::proofs::Runs::run_passes))]
fn split_digits(base: Base, bytes: &[u8]) -> (&[u8], &[u8])
    ensures digits { result.0.now ≡ take (digits_len base bytes.now) bytes.now }
    ensures behind { result.1.now ≡ drop (digits_len base bytes.now) bytes.now }
    ensures each { AllPass (λ b. is_digit b (radix_of base)) result.0.now }
{
    bytes.split_at(digits_len(base, bytes))
}

/// A suffix without the `u` that it begins or ends with.
#[tactic(auto, unfolding(crate::specs::Reading::longs_of))]
fn longs_of(suffix: &[u8]) -> &[u8]
    ensures { result.now ≡ longs_of suffix.now }
{
    match suffix {
        [b'u' | b'U', longs @ ..] | [longs @ .., b'u' | b'U'] => longs,
        _ => suffix,
    }
}

/// Whether a suffix is of `u`, and of `l` or `ll`, in any case and order.
#[tactic(auto, unfolding(crate::specs::Reading::is_suffix))]
fn is_suffix(suffix: &[u8]) -> bool
    ensures { result ≡ is_suffix suffix.now }
{
    let longs = longs_of(suffix);
    longs.len() <= 2 && longs.iter().all(|byte| matches!(byte, b'l' | b'L'))
}

/// The number of 64 bits that digits write, if they write one.
fn digits_value(base: Base, digits: &[u8]) -> Option<u64>
    requires { AllPass (λ b. is_digit b (radix_of base)) digits.now }
    ensures { SomeIff result (digits_value (radix_of base) digits.now < 2 ^ 64) (digits_value (radix_of base) digits.now) }
{
    number_written(base.radix(), digits)
}

/// The parts after a prefix, where they are a number of 64 bits.
#[tactic(auto, unfolding(crate::specs::Reading::parts_behind))]
fn parts_behind(base: Base, rest: &[u8]) -> Option<NumberParts<'_>>
    ensures parts { option_map parts_view result ≡ parts_behind base rest.now }
    ensures value { IfSome result (λ p. p.value ≡ digits_value (radix_of p.base) p.digits.now) }
{
    let (digits, suffix) = split_digits(base, rest);
    let value = digits_value(base, digits)?;
    let has_digits = base == Base::Octal || !digits.is_empty();
    if has_digits && is_suffix(suffix) {
        Some(NumberParts {
            base,
            digits,
            suffix,
            value,
        })
    } else {
        None
    }
}

/// The parts of a number's spelling. None exactly where the bytes are not a number as a whole, or one
/// that does not fit 64 bits.
#[tactic(auto, using(crate::proofs::Results::found_parts, crate::proofs::Results::no_parts), unfolding(crate::specs::Reading::number_parts))]
pub fn number_parts(spelling: &[u8]) -> Option<NumberParts<'_>>
    ensures found { IfSome result (λ p. IsNumber spelling.now p.base p.digits.now p.suffix.now) }
    ensures none { IfNone result
        ((base : Base) (digits suffix : List ℕ) → IsNumber spelling.now base digits suffix → ⊥) }
    ensures exact { option_map parts_view result ≡ number_parts spelling.now }
    ensures value { IfSome result (λ p. p.value ≡ digits_value (radix_of p.base) p.digits.now) }
{
    let (base, rest) = split_prefix(spelling);
    parts_behind(base, rest)
}
