//! The token that a text begins with.

ghost use Rattle.std.specs.Prelude.{◌≡◌};
ghost use Rattle.fmt_lexer.specs.Reading.{kind_from, number_len, first_token};

use crate::bytes::word_len;
use crate::mark::mark_len;
use crate::number::number_parts;
use crate::quoted::{letter_len, text_len};
use crate::token::TokenKind;
use byte_classes::is_word;

/// The kind of token that a byte begins, if it begins one.
#[tactic(auto, unfolding(crate::specs::Reading::kind_from))]
fn kind_from(byte: u8) -> TokenKind
    ensures { result ≡ kind_from byte }
{
    match byte {
        b'\'' => TokenKind::Letter,
        b'"' => TokenKind::Text,
        b'0'..=b'9' => TokenKind::Number,
        _ if is_word(byte) => TokenKind::Name,
        _ => TokenKind::Mark,
    }
}

/// The length of the number that the text begins with: a whole run of letters, digits and `_`.
#[tactic(auto, using(crate::proofs::Runs::run_within), unfolding(crate::specs::Reading::number_len))]
fn number_len(text: &[u8]) -> Option<usize>
    ensures { result ≡ number_len text.now }
{
    let len = word_len(text);
    number_parts(&text[..len])?;
    Some(len)
}

/// The kind and the length of the token that a text begins with.
#[tactic(auto, using(crate::proofs::Runs::run_within), unfolding(crate::specs::Reading::first_token, crate::specs::Reading::len_as))]
pub fn first_token(text: &[u8]) -> Option<(TokenKind, usize)>
    ensures { result ≡ first_token text.now }
{
    let kind = kind_from(*text.first()?);
    let len = match kind {
        TokenKind::Name => word_len(text),
        TokenKind::Number => number_len(text)?,
        TokenKind::Letter => 1 + letter_len(&text[1..])?,
        TokenKind::Text => 1 + text_len(&text[1..])?,
        TokenKind::Mark => mark_len(text)?,
    };
    Some((kind, len))
}
