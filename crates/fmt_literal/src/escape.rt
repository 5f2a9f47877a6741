//! Escapes in letters and texts.

ghost use Rattle.std.specs.Prelude.{◌≡◌, ◌+◌, ◌<◌, ◌≤◌, ◌++◌, length, slice_index, drop, IfOk, IfSome, IsTrue};
ghost use Rattle.std.specs.Char.{is_ascii_hexdigit, digit_value};
ghost use Rattle.fmt_lexer.specs.Bytes.{is_octal};
ghost use Rattle.fmt_literal.specs.Pushed.{GainedFront};
ghost use Rattle.fmt_literal.specs.Escape.{is_plain, named, octal, hexadecimal_in, three_in, two_in, one_in, escape, item, meant};
ghost use Rattle.fmt_literal.specs.Views.{item_view};

use std::alloc::AllocError;

/// A byte, and how many bytes of a row spell it.
#[derive(Clone, Copy, Debug)]
pub struct Spelled {
    pub byte: u8,
    pub len: usize,
}

/// What the byte after a backslash names.
fn named(byte: u8) -> u8
    ensures { result ≡ named byte }
{
    match byte {
        b'n' => b'\n',
        b't' => b'\t',
        b'r' => b'\r',
        other => other,
    }
}

/// Whether a byte is an octal digit.
fn is_octal(byte: u8) -> bool
    ensures { result ≡ is_octal byte }
{
    matches!(byte, b'0'..=b'7')
}

/// What an octal digit counts.
fn octal(digit: u8) -> u32
    requires { IsTrue (is_octal digit) }
    ensures value { result ≡ octal digit }
    ensures small { result ≤ 7 }
{
    u32::from(digit) - 48
}

/// What a hexadecimal digit counts.
fn hexadecimal(digit: u8) -> u32
    requires { IsTrue (is_ascii_hexdigit digit) }
    ensures value { result ≡ digit_value digit }
    ensures small { result ≤ 15 }
{
    char::from(digit).to_digit(16).unwrap_or(0)
}

/// The byte of a hexadecimal escape, after its backslash.
#[tactic(auto, unfolding(crate::specs::Escape::hexadecimal_in))]
fn hexadecimal_in(after: &[u8]) -> Option<u8>
    ensures value { result ≡ hexadecimal_in after.now }
    ensures within { IfSome result (λ b. 3 ≤ length after.now) }
{
    match after {
        [b'x', high, low, ..] if high.is_ascii_hexdigit() && low.is_ascii_hexdigit() => {
            Some((16 * hexadecimal(*high) + hexadecimal(*low)) as u8)
        }
        _ => None,
    }
}

/// The byte of an escape of three octal digits, modulo 256.
#[tactic(auto, unfolding(crate::specs::Escape::three_in))]
fn three_in(after: &[u8]) -> Option<u8>
    ensures value { result ≡ three_in after.now }
    ensures within { IfSome result (λ b. 3 ≤ length after.now) }
{
    match after {
        [a, b, c, ..] if is_octal(*a) && is_octal(*b) && is_octal(*c) => {
            Some(((64 * octal(*a) + 8 * octal(*b) + octal(*c)) % 256) as u8)
        }
        _ => None,
    }
}

/// The byte of an escape of two octal digits.
#[tactic(auto, unfolding(crate::specs::Escape::two_in))]
fn two_in(after: &[u8]) -> Option<u8>
    ensures value { result ≡ two_in after.now }
    ensures within { IfSome result (λ b. 2 ≤ length after.now) }
{
    match after {
        [a, b, ..] if is_octal(*a) && is_octal(*b) => Some((8 * octal(*a) + octal(*b)) as u8),
        _ => None,
    }
}

/// The byte of an escape of one octal digit.
#[tactic(auto, unfolding(crate::specs::Escape::one_in))]
fn one_in(after: &[u8]) -> Option<u8>
    ensures value { result ≡ one_in after.now }
    ensures within { IfSome result (λ b. 1 ≤ length after.now) }
{
    match after {
        [a, ..] if is_octal(*a) => Some(octal(*a) as u8),
        _ => None,
    }
}

/// The escape whose backslash stands before these bytes.
#[tactic(auto, unfolding(crate::specs::Escape::escape))]
fn escape(after: &[u8]) -> Spelled
    ensures value { item_view result ≡ escape after.now }
    ensures within { result.len ≤ length after.now }
{
    if let Some(byte) = hexadecimal_in(after) {
        return Spelled { byte, len: 3 };
    }
    if let Some(byte) = three_in(after) {
        return Spelled { byte, len: 3 };
    }
    if let Some(byte) = two_in(after) {
        return Spelled { byte, len: 2 };
    }
    if let Some(byte) = one_in(after) {
        return Spelled { byte, len: 1 };
    }
    match after.first() {
        Some(byte) => Spelled {
            byte: named(*byte),
            len: 1,
        },
        None => Spelled {
            byte: b'\\',
            len: 0,
        },
    }
}

/// What a byte stands for together with those after it, and how many of these belong to it.
#[tactic(auto, unfolding(crate::specs::Escape::item))]
pub fn item(first: u8, behind: &[u8]) -> Spelled
    ensures value { item_view result ≡ item first behind.now }
    ensures within { result.len ≤ length behind.now }
{
    if first == b'\\' {
        escape(behind)
    } else {
        Spelled {
            byte: first,
            len: 0,
        }
    }
}

/// Whether each of these bytes stands for itself.
pub(crate) fn is_plain(bytes: &[u8]) -> bool
    ensures { result ≡ is_plain bytes.now }
{
    !bytes.contains(&b'\\')
}

/// Appends what bytes stand for. Most have no escape, and are put at once.
///
/// # Errors
///
/// Want of memory alone; then the first of it may have been put there, and nothing else has changed.
#[tactic(auto, using(crate::proofs::Meant::meant_plain))]
pub fn push_meant(into: &mut Vec<u8>, bytes: &[u8]) -> Result<(), AllocError>
    ensures whole { IfOk result (λ _. into.new.items ≡ into.old.items ++ meant 0 bytes.now) }
    ensures front { GainedFront into.old.items into.new.items (meant 0 bytes.now) }
{
    if is_plain(bytes) {
        into.extend_from_slice(bytes)
    } else {
        push_items(into, bytes)
    }
}

/// Appends what bytes stand for, byte by byte.
#[tactic(auto, using(crate::proofs::Pushing::grows_first, crate::proofs::Pushing::grows_more))]
fn push_items(into: &mut Vec<u8>, bytes: &[u8]) -> Result<(), AllocError>
    ensures whole { IfOk result (λ _. into.new.items ≡ into.old.items ++ meant 0 bytes.now) }
    ensures front { GainedFront into.old.items into.new.items (meant 0 bytes.now) }
{
    let mut rest = bytes;
    while let Some((first, behind)) = rest.split_first() {
        let spelled = item(*first, behind);
        into.push(spelled.byte)?;
        rest = behind.split_at(spelled.len).1;
    }
    Ok(())
}
