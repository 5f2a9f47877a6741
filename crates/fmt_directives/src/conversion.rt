//! One conversion of a format text.

ghost use Rattle.std.specs.Prelude.{◌≡◌, ◌≤◌, ◌<◌, ◌+◌, min, length, take, slice_index, IfSome};
ghost use Rattle.std.specs.List.{prefix_len, AllPass};
ghost use Rattle.std.specs.Str.Parse.{digits_value};
ghost use Rattle.fmt_directives.specs.Bytes.{is_flag, is_decimal, is_alphanumeric};
ghost use Rattle.fmt_directives.specs.Directives.{has, behind_dot, spec_of};
ghost use Rattle.fmt_directives.specs.Reading.{digits_len, amount, precision, length_of, pointer_form, one_letter_form, letter_kind, kind_of, conversion};

use crate::directive::{Amount, Base, Directive, Length, PointerForm, Spec};

fn is_flag(byte: u8) -> bool
    ensures { result ≡ is_flag byte }
{
    matches!(byte, b'-' | b'0' | b'+' | b' ' | b'#')
}

fn is_decimal(byte: u8) -> bool
    ensures { result ≡ is_decimal byte }
{
    byte >= b'0' && byte <= b'9'
}

fn is_alphanumeric(byte: u8) -> bool
    ensures { result ≡ is_alphanumeric byte }
{
    byte.is_ascii_alphanumeric()
}

#[tactic(auto, using(crate::proofs::Runs::flags_within))]
fn flags_len(bytes: &[u8]) -> usize
    ensures within { result ≤ length bytes.now }
    ensures value { result ≡ prefix_len is_flag bytes.now }
{
    bytes.iter().take_while(|byte| is_flag(**byte)).count()
}

fn digits_len(bytes: &[u8]) -> usize
    ensures { result ≡ prefix_len is_decimal bytes.now }
{
    bytes.iter().take_while(|byte| is_decimal(**byte)).count()
}

fn run_len(bytes: &[u8]) -> usize
    ensures { result ≡ prefix_len is_alphanumeric bytes.now }
{
    bytes
        .iter()
        .take_while(|byte| is_alphanumeric(**byte))
        .count()
}

fn has(flags: &[u8], flag: u8) -> bool
    ensures { result ≡ has flags.now flag }
{
    flags.contains(&flag)
}

/// The number that digits write, as far as 65,536.
fn bounded(digits: &[u8]) -> u32
    requires { AllPass is_decimal digits.now }
    ensures { result ≡ min (digits_value 10 digits.now) 65536 }
{
    let mut number: u32 = 0;
    for byte in digits {
        number = (number * 10 + (*byte - b'0') as u32).min(65_536);
    }
    number
}

/// A width at the front, and its length.
#[tactic(auto, using(crate::proofs::Runs::digits_pass, crate::proofs::Runs::digits_within), unfolding(crate::specs::Reading::amount))]
fn amount(bytes: &[u8]) -> Option<(Amount, usize)>
    ensures value { result ≡ amount bytes.now }
    ensures within { IfSome result (λ a. a.1 ≤ length bytes.now) }
{
    if !bytes.is_empty() && bytes[0] == b'*' {
        return Some((Amount::FromArgument, 1));
    }
    let len = digits_len(bytes);
    if len == 0 {
        return Some((Amount::Absent, 0));
    }
    let number = bounded(&bytes[..len]);
    if number > 65_535 {
        None
    } else {
        Some((Amount::Fixed(number), len))
    }
}

/// A byte of a text, and 0 past its end.
fn byte_at(bytes: &[u8], at: usize) -> u8
    ensures value { result ≡ slice_index bytes.now at }
    ensures inside { 0 < result → at < length bytes.now }
{
    if at < bytes.len() { bytes[at] } else { 0 }
}

/// A precision at the front, and its length.
#[tactic(auto, unfolding(crate::specs::Reading::precision))]
fn precision(bytes: &[u8]) -> Option<(Amount, usize)>
    ensures value { result ≡ precision bytes.now }
    ensures within { IfSome result (λ a. a.1 ≤ length bytes.now) }
{
    if byte_at(bytes, 0) != b'.' {
        return Some((Amount::Absent, 0));
    }
    let (amount, len) = amount(&bytes[1..])?;
    Some((behind_dot(amount), 1 + len))
}

/// A dot without digits is a precision of 0.
fn behind_dot(amount: Amount) -> Amount
    ensures { result ≡ behind_dot amount }
{
    match amount {
        Amount::Absent => Amount::Fixed(0),
        Amount::Fixed(p) => Amount::Fixed(p),
        Amount::FromArgument => Amount::FromArgument,
    }
}

/// A length at the front, and how many bytes it has.
fn length_of(bytes: &[u8]) -> (Length, usize)
    ensures value { result ≡ length_of bytes.now }
    ensures within { result.1 ≤ length bytes.now }
{
    let next = byte_at(bytes, 1);
    match byte_at(bytes, 0) {
        b'h' if next == b'h' => (Length::CharSize, 2),
        b'h' => (Length::ShortSize, 1),
        b'l' if next == b'l' => (Length::LongLongSize, 2),
        b'l' => (Length::LongSize, 1),
        b'z' => (Length::SizeSize, 1),
        b't' => (Length::DiffSize, 1),
        b'j' => (Length::MaxSize, 1),
        b'L' => (Length::BigSize, 1),
        _ => (Length::Usual, 0),
    }
}

/// The form of a pointer, by all letters and digits after its `p`.
fn pointer_form(run: &[u8]) -> Option<PointerForm>
    ensures { result ≡ pointer_form run.now }
{
    match run.len() {
        0 => Some(PointerForm::Plain),
        1 => one_letter_form(run[0]),
        2 if run[0] == b'I' && run[1] == b'4' => Some(PointerForm::Ip4),
        _ => None,
    }
}

fn one_letter_form(letter: u8) -> Option<PointerForm>
    ensures { result ≡ one_letter_form letter }
{
    match letter {
        b's' | b'f' => Some(PointerForm::Name),
        b'S' | b'F' => Some(PointerForm::NameOffset),
        b'M' => Some(PointerForm::Mac),
        _ => None,
    }
}

/// What a letter asks for, if it is no `p`.
fn letter_kind(spec: Spec, letter: u8) -> Option<Directive>
    ensures { result ≡ letter_kind spec letter }
{
    match letter {
        b'd' | b'i' => Some(Directive::Number {
            spec,
            base: Base::Signed,
        }),
        b'u' => Some(Directive::Number {
            spec,
            base: Base::Unsigned,
        }),
        b'x' => Some(Directive::Number {
            spec,
            base: Base::Hex,
        }),
        b'X' => Some(Directive::Number {
            spec,
            base: Base::UpperHex,
        }),
        b'o' => Some(Directive::Number {
            spec,
            base: Base::Octal,
        }),
        b'c' => Some(Directive::Letter { spec }),
        b's' => Some(Directive::Text { spec }),
        _ => None,
    }
}

/// What the front asks for, and how many bytes it has.
#[tactic(auto, using(crate::proofs::Runs::run_within), unfolding(crate::specs::Reading::kind_of))]
fn kind_of(spec: Spec, bytes: &[u8]) -> Option<(Directive, usize)>
    ensures value { result ≡ kind_of spec bytes.now }
    ensures within { IfSome result (λ k. (0 < k.1) × (k.1 ≤ length bytes.now)) }
{
    if bytes.is_empty() {
        return None;
    }
    if bytes[0] != b'p' {
        return Some((letter_kind(spec, bytes[0])?, 1));
    }
    let run = run_len(&bytes[1..]);
    let form = pointer_form(&bytes[1..][..run])?;
    Some((Directive::Pointer { spec, form }, 1 + run))
}

/// A conversion after its percent sign, and its length.
#[tactic(auto, unfolding(crate::specs::Reading::conversion))]
pub fn conversion(bytes: &[u8]) -> Option<(Directive, usize)>
    ensures value { result ≡ conversion bytes.now }
    ensures within { IfSome result (λ k. (0 < k.1) × (k.1 ≤ length bytes.now)) }
{
    let flags = flags_len(bytes);
    let (width, w) = amount(&bytes[flags..])?;
    let behind_width = flags + w;
    let (precision, p) = precision(&bytes[behind_width..])?;
    let behind_precision = behind_width + p;
    let (length, l) = length_of(&bytes[behind_precision..]);
    let behind_length = behind_precision + l;
    let spec = spec_of(&bytes[..flags], width, precision, length);
    let (directive, k) = kind_of(spec, &bytes[behind_length..])?;
    Some((directive, behind_length + k))
}

fn spec_of(flags: &[u8], width: Amount, precision: Amount, length: Length) -> Spec
    ensures { result ≡ spec_of flags.now width precision length }
{
    Spec {
        left: has(flags, b'-'),
        zero: has(flags, b'0'),
        plus: has(flags, b'+'),
        space: has(flags, b' '),
        alternate: has(flags, b'#'),
        width,
        precision,
        length,
    }
}
