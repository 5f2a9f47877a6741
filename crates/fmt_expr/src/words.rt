//! What the token at a place is.

ghost use Rattle.std.specs.Prelude.{◌≡◌, ◌<◌, ◌≤◌, length, option_map, IfSome, IsTrue};
ghost use Rattle.fmt_literal.specs.Quoted.{text_of};
ghost use Rattle.fmt_literal.specs.Views.{numeral_view};
ghost use Rattle.fmt_expr.specs.Source.{mark_at, name_at, literal_at, constant_at, is_mark};
ghost use Rattle.fmt_expr.specs.SourceView.{source};

use crate::reader::Reader;
use fmt_lexer::TokenKind;
use fmt_literal::{CKind, Numeral, letter, number};

impl<'a> Reader<'a> {
    /// The mark at a place.
    #[inline(always)]
    #[tactic(auto, unfolding(crate::specs::Source::mark_at))]
    pub fn mark(&self, at: usize) -> Option<&'a [u8]>
        ensures value { option_map (λ m. m.now) result ≡ mark_at (source self.now) at }
        ensures within { IfSome result (λ m. at < length self.now.tokens.now) }
    {
        let token = self.tokens.get(at)?;
        match token.kind {
            TokenKind::Mark => Some(token.bytes(self.text)),
            _ => None,
        }
    }

    /// The name at a place.
    #[inline(always)]
    #[tactic(auto, unfolding(crate::specs::Source::name_at))]
    pub fn name(&self, at: usize) -> Option<&'a [u8]>
        ensures value { option_map (λ m. m.now) result ≡ name_at (source self.now) at }
        ensures within { IfSome result (λ m. at < length self.now.tokens.now) }
    {
        let token = self.tokens.get(at)?;
        match token.kind {
            TokenKind::Name => Some(token.bytes(self.text)),
            _ => None,
        }
    }

    /// The spelling of the text at a place.
    #[tactic(auto, unfolding(crate::specs::Source::literal_at))]
    pub fn literal(&self, at: usize) -> Option<&'a [u8]>
        ensures value { option_map (λ m. text_of m.now) result ≡ literal_at (source self.now) at }
        ensures within { IfSome result (λ m. at < length self.now.tokens.now) }
    {
        let token = self.tokens.get(at)?;
        match token.kind {
            TokenKind::Text => Some(token.bytes(self.text)),
            _ => None,
        }
    }

    /// The number or the letter at a place.
    #[tactic(auto, unfolding(crate::specs::Source::constant_at))]
    pub fn constant(&self, at: usize) -> Option<Numeral>
        ensures value { option_map numeral_view result ≡ constant_at (source self.now) at }
        ensures within { IfSome result (λ n. at < length self.now.tokens.now) }
    {
        let token = self.tokens.get(at)?;
        let spelling = token.bytes(self.text);
        match token.kind {
            TokenKind::Number => number(spelling, self.long),
            TokenKind::Letter => Some(Numeral {
                bits: u64::from(letter(spelling)?),
                kind: CKind::I32,
            }),
            _ => None,
        }
    }

    /// Whether the token at a place is this mark.
    #[inline(always)]
    #[tactic(auto, unfolding(crate::specs::Source::is_mark))]
    pub fn is_mark(&self, at: usize, mark: &[u8]) -> bool
        ensures value { result ≡ is_mark (source self.now) at mark.now }
        ensures within { IsTrue result → at < length self.now.tokens.now }
    {
        match self.mark(at) {
            Some(bytes) => bytes == mark,
            None => false,
        }
    }
}
