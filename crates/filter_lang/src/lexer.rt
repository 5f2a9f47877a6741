//! All tokens of a filter's text.

ghost use Rattle.std.specs.Prelude.{◌≡◌, ◌+◌, ◌<◌, ◌≤◌, false, length, drop, option_map, IfOk, IfSome};
ghost use Rattle.filter_lang.specs.Lexing.{token_in};
ghost use Rattle.filter_lang.specs.TokenView.{cut_of};
ghost use Rattle.filter_lang.specs.Texts.{AreLexemes};
ghost use Rattle.filter_lang.specs.LexedView.{lexemes_of, place_in};

use crate::first::{first_token, is_past_colon};
use crate::token::{Token, Word};
use byte_classes::is_blank;
use std::alloc::{AllocError, Global};

/// Tokens from the left, and the place from which on none begins.
#[derive(Drop)]
pub struct Lexed<'a> {
    pub tokens: Vec<Token<'a>>,
    pub end: usize,
}

impl Lexed<'_> {
    /// The place of a token, or of what follows all of them.
    pub fn place(&self, i: usize) -> usize
        ensures { result ≡ place_in self.now.end self.now.tokens.items i }
    {
        match self.tokens.get(i) {
            Some(token) => token.start,
            None => self.end,
        }
    }
}

/// The token that begins at a place, and how many bytes of it follow its first.
fn token_at(text: &[u8], at: usize, colon_before: bool) -> Option<(Word<'_>, usize)>
    requires { at ≤ length text.now }
    ensures value { option_map cut_of result ≡ token_in colon_before (drop at text.now) }
    ensures within { IfSome result (λ cut. at + cut.1 < length text.now) }
{
    let (_, rest) = text.split_at(at);
    first_token(rest, colon_before)
}

/// The tokens of a text, up to its end or to the first place at which none begins.
///
/// # Errors
///
/// Want of memory alone.
pub fn lex<'a>(alloc: Global, text: &'a [u8]) -> Result<Lexed<'a>, AllocError>
    ensures lexes { IfOk result (λ l. AreLexemes false text.now (lexemes_of text.now l.tokens.items) (drop l.end text.now)) }
    ensures within { IfOk result (λ l. l.end ≤ length text.now) }
{
    let mut tokens = Vec::new(alloc);
    let mut colon_before = false;
    let mut at = 0;
    while at < text.len() {
        if is_blank(text[at]) {
            at += 1;
            continue;
        }
        let Some((word, behind)) = token_at(text, at, colon_before) else {
            return Ok(Lexed { tokens, end: at });
        };
        tokens.push(Token { word, start: at })?;
        colon_before = is_past_colon(colon_before, word);
        at += behind + 1;
    }
    Ok(Lexed { tokens, end: at })
}
