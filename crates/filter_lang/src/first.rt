//! The token that bytes begin with.

ghost use Rattle.std.specs.Prelude.{◌≡◌, ◌≤◌, ◌<◌, ◌==◌, ◌||◌, ◌∷◌, [], not, length, take, Some, option_map, IfSome};
ghost use Rattle.std.specs.List.{prefix_len};
ghost use Rattle.byte_classes.specs.Bytes.{is_blank, is_word};
ghost use Rattle.filter_lang.specs.Lexing.{is_name_byte, is_colon, other_mark, long_at, short_at, marked, number_in, number_cut, text_cut, before_colon, behind_colon, token_in};
ghost use Rattle.filter_lang.specs.PlainToken.{name, identifier};
ghost use Rattle.filter_lang.specs.TokenView.{plain_token, cut_of};

use crate::number::number;
use crate::token::{Separator, Word};
use byte_classes::{is_blank, is_word};
use c_operators::BinaryOp;
use fmt_lexer::word_len;

fn is_name_byte(byte: u8) -> bool
    ensures { result ≡ is_name_byte byte }
{
    !(is_blank(byte) || byte == b',' || byte == b'/' || byte == b':')
}

/// How many bytes of a name stand at the front.
fn name_len(bytes: &[u8]) -> usize
    ensures value { result ≡ prefix_len is_name_byte bytes.now }
    ensures within { result ≤ length bytes.now }
{
    bytes.iter().take_while(|byte| is_name_byte(**byte)).count()
}

/// How many bytes stand before the first that is this one.
fn len_before(mark: u8, bytes: &[u8]) -> usize
    ensures value { result ≡ prefix_len (λ c. not (c == mark)) bytes.now }
    ensures within { result ≤ length bytes.now }
{
    bytes.iter().take_while(|byte| **byte != mark).count()
}

/// The mark that is no operator between two operands.
fn other_mark(mark: &[u8]) -> Option<Word<'static>>
    ensures { option_map plain_token result ≡ other_mark mark.now }
{
    let word = match mark {
        b"!" => Word::Not,
        b"~" => Word::Invert,
        b"(" => Word::Open,
        b")" => Word::Close,
        b":" => Word::Separator(Separator::Colon),
        _ => return None,
    };
    Some(word)
}

#[tactic(auto, unfolding(crate::specs::Lexing::long_at))]
fn long_at(first: u8, rest: &[u8]) -> Option<BinaryOp>
    ensures value { result ≡ long_at first rest.now }
    ensures within { IfSome result (λ op. 1 ≤ length rest.now) }
{
    match rest {
        [second, ..] => BinaryOp::from_mark(&[first, *second]),
        [] => None,
    }
}

#[tactic(auto, unfolding(crate::specs::Lexing::short_at))]
fn short_at(first: u8) -> Option<Word<'static>>
    ensures { option_map plain_token result ≡ short_at first }
{
    match BinaryOp::from_mark(&[first]) {
        Some(op) => Some(Word::Op(op)),
        None => other_mark(&[first]),
    }
}

/// The longer mark that begins here, and how many bytes of it follow its first.
fn mark_token(first: u8, rest: &[u8]) -> Option<(Word<'static>, usize)>
    ensures value { option_map cut_of result ≡ marked (long_at first rest.now) (short_at first) }
    ensures within { IfSome result (λ cut. cut.1 ≤ length rest.now) }
{
    if let Some(op) = long_at(first, rest) {
        return Some((Word::Op(op), 1));
    }
    let word = short_at(first)?;
    Some((word, 0))
}

/// The number that a whole run of letters, digits and `_` is.
fn number_token(bytes: &[u8], first: u8, rest: &[u8]) -> Option<(Word<'static>, usize)>
    requires { bytes.now ≡ first ∷ rest.now }
    ensures value { let n = prefix_len is_word rest.now in option_map cut_of result ≡ number_cut n (number_in (first ∷ take n rest.now)) }
    ensures within { IfSome result (λ cut. cut.1 ≤ length rest.now) }
{
    let len = word_len(rest);
    let value = number(&bytes[..len + 1])?;
    Some((Word::Number(value), len))
}

fn field_token<'a>(bytes: &'a [u8], first: u8, rest: &[u8]) -> (Word<'a>, usize)
    requires { bytes.now ≡ first ∷ rest.now }
    ensures value { let n = prefix_len is_word rest.now in cut_of result ≡ (identifier (first ∷ take n rest.now), n) }
    ensures within { result.1 ≤ length rest.now }
{
    let len = word_len(rest);
    (Word::Field(&bytes[..len + 1]), len)
}

/// The text between this mark and the next one like it.
fn text_token(mark: u8, rest: &[u8]) -> Option<(Word<'_>, usize)>
    ensures value { option_map cut_of result ≡ text_cut mark rest.now }
    ensures within { IfSome result (λ cut. cut.1 ≤ length rest.now) }
{
    let len = len_before(mark, rest);
    if len < rest.len() {
        Some((Word::Text(&rest[..len]), len + 1))
    } else {
        None
    }
}

/// The first token before the first `:`, and how many bytes of it follow its first.
#[tactic(auto, unfolding(crate::specs::Lexing::before_colon))]
fn before_colon<'a>(bytes: &'a [u8], first: u8, rest: &[u8]) -> (Word<'a>, usize)
    requires { bytes.now ≡ first ∷ rest.now }
    ensures value { Some (cut_of result) ≡ before_colon first rest.now }
    ensures within { result.1 ≤ length rest.now }
{
    match first {
        b',' => (Word::Separator(Separator::Comma), 0),
        b'/' => (Word::Separator(Separator::Slash), 0),
        b':' => (Word::Separator(Separator::Colon), 0),
        _ => {
            let len = name_len(rest);
            (Word::Name(&bytes[..len + 1]), len)
        }
    }
}

/// The first token after the first `:`, and how many bytes of it follow its first.
#[tactic(auto, unfolding(crate::specs::Lexing::behind_colon))]
fn behind_colon<'a>(bytes: &'a [u8], first: u8, rest: &'a [u8]) -> Option<(Word<'a>, usize)>
    requires { bytes.now ≡ first ∷ rest.now }
    ensures value { option_map cut_of result ≡ behind_colon first rest.now }
    ensures within { IfSome result (λ cut. cut.1 ≤ length rest.now) }
{
    if first.is_ascii_digit() {
        return number_token(bytes, first, rest);
    }
    if is_word(first) {
        return Some(field_token(bytes, first, rest));
    }
    if first == b'"' || first == b'\'' {
        return text_token(first, rest);
    }
    mark_token(first, rest)
}

/// The token that bytes begin with, and how many bytes of it follow its first.
pub fn first_token(bytes: &[u8], colon_before: bool) -> Option<(Word<'_>, usize)>
    ensures value { option_map cut_of result ≡ token_in colon_before bytes.now }
    ensures within { IfSome result (λ cut. cut.1 < length bytes.now) }
{
    let [first, rest @ ..] = bytes else {
        return None;
    };
    if colon_before {
        behind_colon(bytes, *first, rest)
    } else {
        Some(before_colon(bytes, *first, rest))
    }
}

/// Whether a `:` stands before what follows a token.
pub fn is_past_colon(colon_before: bool, word: Word<'_>) -> bool
    ensures { result ≡ (colon_before || is_colon (plain_token word.entry)) }
{
    colon_before || matches!(word, Word::Separator(Separator::Colon))
}
