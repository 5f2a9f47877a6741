//! All tokens of a text.

ghost use Rattle.std.specs.Prelude.{◌≡◌, ◌^◌, ◌<◌, ◌≤◌, List, length, IfOk, IfSome, IfNone};
ghost use Rattle.std.specs.Option.{option_map};
ghost use Rattle.fmt_lexer.specs.Tokens.{AreTokens};
ghost use Rattle.fmt_lexer.specs.Reading.{token_at, tokens_from, tokens_of};

use crate::first::first_token;
use crate::token::Token;
use byte_classes::is_blank;
use std::alloc::{AllocError, Global};

/// Most tokens take at least so many bytes, with the blanks before them: memory for so many is taken at once.
const USUAL_BYTES: usize = 3;

/// The token that begins at a place of a text.
#[tactic(auto, using(crate::proofs::Rows::token_inside), unfolding(crate::specs::Reading::token_at))]
fn token_at(text: &[u8], at: usize) -> Option<Token>
    requires within { at ≤ length text.now }
    requires short { length text.now < 2 ^ 32 }
    ensures value { result ≡ token_at text.now at }
    ensures inside { IfSome result (λ t. (at < t.end) × (t.end ≤ length text.now)) }
{
    let (kind, len) = first_token(&text[at..])?;
    Some(Token {
        kind,
        start: at as u32,
        end: (at + len) as u32,
    })
}

/// The tokens of a text whose places fit 32 bits.
fn row(alloc: Global, text: &[u8]) -> Result<Option<Vec<Token>>, AllocError>
    requires { length text.now < 2 ^ 32 }
    ensures { IfOk result (λ row. option_map (λ v. v.items) row ≡ tokens_from 0 0 text.now) }
{
    let mut tokens = Vec::with_capacity(alloc, text.len() / USUAL_BYTES + 4)?;
    let mut at = 0;
    while at < text.len() {
        if is_blank(text[at]) {
            at += 1;
            continue;
        }
        let Some(token) = token_at(text, at) else {
            return Ok(None);
        };
        tokens.push(token)?;
        at = token.end as usize;
    }
    Ok(Some(tokens))
}

/// The tokens of a print fmt, in order: each as long as it can be, without overlap, and with only blanks
/// outside them. None exactly where the text is no row of tokens, or is longer than 2^32 - 1 bytes.
///
/// # Errors
///
/// Want of memory alone.
#[tactic(auto, unfolding(crate::specs::Reading::tokens_of))]
pub fn tokens(alloc: Global, text: &[u8]) -> Result<Option<Vec<Token>>, AllocError>
    ensures found { IfOk result (λ row. IfSome row (λ v. AreTokens text.now v.items)) }
    ensures short { IfOk result (λ row. IfSome row (λ v. length text.now < 2 ^ 32)) }
    // No row has them, unless the places in the text do not fit 32 bits.
    ensures none { IfOk result (λ row. IfNone row
        ((ts : List Token) → AreTokens text.now ts → 2 ^ 32 ≤ length text.now)) }
    ensures exact { IfOk result (λ row. option_map (λ v. v.items) row ≡ tokens_of text.now) }
{
    if text.len() > u32::MAX as usize {
        return Ok(None);
    }
    row(alloc, text)
}
