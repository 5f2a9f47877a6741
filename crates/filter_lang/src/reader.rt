//! What a condition is read from.

ghost use Rattle.std.specs.Prelude.{◌≡◌, ◌<◌, ◌+◌, [], ◌∷◌, length, option_map, IfSome, IfNone, IsTrue};
ghost use Rattle.filter_lang.specs.Ops.{op_first, first_name, has};
ghost use Rattle.filter_lang.specs.PlainToken.{name};
ghost use Rattle.filter_lang.specs.TokenView.{plain_token, separator_token};
ghost use Rattle.filter_lang.specs.ReaderView.{from, op_view};

use crate::token::{Separator, Token, Word};
use c_operators::BinaryOp;
use std::alloc::Global;

/// The tokens of a filter.
#[derive(Clone, Copy)]
pub struct Reader<'a> {
    pub alloc: Global,
    pub tokens: &'a [Token<'a>],
}

impl<'a> Reader<'a> {
    /// The token at a place.
    #[tactic(auto, using(crate::proofs::Places::from_there, crate::proofs::Places::from_past))]
    pub fn word(&self, at: usize) -> Option<Word<'a>>
        ensures there { IfSome result (λ w. from self.now at ≡ plain_token w ∷ from self.now (at + 1)) }
        ensures within { IfSome result (λ w. at < length self.now.tokens.now) }
        ensures past { IfNone result (from self.now at ≡ []) }
    {
        match self.tokens.get(at) {
            Some(token) => Some(token.word),
            None => None,
        }
    }

    /// The operator at a place, if it is of the level.
    pub fn op(&self, level: u32, at: usize) -> Option<BinaryOp>
        ensures value { option_map (op_view self.now at) result ≡ op_first level (from self.now at) }
        ensures within { IfSome result (λ op. at < length self.now.tokens.now) }
    {
        match self.word(at)? {
            Word::Op(op) if op.level() == level => Some(op),
            _ => None,
        }
    }

    /// The name at a place.
    pub fn name(&self, at: usize) -> Option<&'a [u8]>
        ensures value { option_map (λ a. a.now) result ≡ first_name (from self.now at) }
        ensures there { IfSome result (λ a. from self.now at ≡ name a.now ∷ from self.now (at + 1)) }
        ensures within { IfSome result (λ a. at < length self.now.tokens.now) }
    {
        match self.word(at)? {
            Word::Name(bytes) => Some(bytes),
            _ => None,
        }
    }

    /// Whether a separator stands at a place.
    pub fn is_at(&self, separator: Separator, at: usize) -> bool
        ensures value { result ≡ has separator (from self.now at) }
        ensures there { IsTrue result → from self.now at ≡ separator_token separator ∷ from self.now (at + 1) }
        ensures within { IsTrue result → at < length self.now.tokens.now }
    {
        match self.word(at) {
            Some(Word::Separator(found)) => found == separator,
            _ => false,
        }
    }
}
