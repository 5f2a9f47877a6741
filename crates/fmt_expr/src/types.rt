//! Types in brackets.

ghost use Rattle.std.specs.Prelude.{◌≡◌, ◌<◌, ◌≤◌, ◌+◌, ◌++◌, drop, length, option_map, Some, IfOk, IfSome, IsTrue};
ghost use Rattle.fmt_literal.specs.Types.{cast_of, size_of};
ghost use Rattle.fmt_expr.specs.Types.{is_type_name, names_len, stars_len, spaced, spaced_names, words_at, type_at, closed_type};
ghost use Rattle.fmt_expr.specs.Source.{name_at};
ghost use Rattle.fmt_expr.specs.SourceView.{source};
ghost use Rattle.fmt_expr.specs.TakenView.{type_seen};

use crate::reader::Reader;
use crate::taken::ParsedType;
use fmt_literal::{CastTo, cast_of, is_qualifier, size_of};
use std::alloc::AllocError;

/// Most types have no more bytes with a blank before each name: memory for so many is taken at once.
const USUAL_WORDS: usize = 24;

/// Appends a name with a blank before it, unless it is a qualifier.
fn push_name(into: &mut Vec<u8>, name: Option<&[u8]>) -> Result<(), AllocError>
    ensures { IfOk result (λ _. into.new.items ≡ into.old.items ++ spaced (option_map (λ n. n.now) name.entry)) }
{
    match name {
        Some(name) if !is_qualifier(name) => {
            into.push(b' ')?;
            into.extend_from_slice(name)?;
            Ok(())
        }
        _ => Ok(()),
    }
}

/// Names without the blank before the first.
fn joined(names: &[u8]) -> &[u8]
    ensures { result.now ≡ drop 1 names.now }
{
    match names {
        [_, rest @ ..] => rest,
        [] => names,
    }
}

impl<'a> Reader<'a> {
    /// Whether a name of a type may stand at a place.
    fn is_type_name(&self, at: usize) -> bool
        ensures value { result ≡ is_type_name (name_at (source self.now) at) }
        ensures within { IsTrue result → at < length self.now.tokens.now }
    {
        match self.name(at) {
            Some(name) => name != b"REC".as_slice(),
            None => false,
        }
    }

    /// How many names of a type stand from a place on.
    #[tactic(auto, using(crate::proofs::TypeRows::names_step, crate::proofs::TypeRows::names_stop))]
    fn names_len(&self, at: usize) -> usize
        requires { at ≤ length self.now.tokens.now }
        ensures value { result ≡ names_len (source self.now) at }
        ensures within { at + result ≤ length self.now.tokens.now }
    {
        let mut len = 0;
        while self.is_type_name(at + len) {
            len += 1;
        }
        len
    }

    /// How many `*` stand from a place on.
    #[tactic(auto, using(crate::proofs::TypeRows::stars_step, crate::proofs::TypeRows::stars_stop))]
    fn stars_len(&self, at: usize) -> usize
        requires { at ≤ length self.now.tokens.now }
        ensures value { result ≡ stars_len (source self.now) at }
        ensures within { at + result ≤ length self.now.tokens.now }
    {
        let mut len = 0;
        while self.is_mark(at + len, b"*") {
            len += 1;
        }
        len
    }

    /// So many names from a place on, each with a blank before it, without qualifiers.
    #[tactic(auto, using(crate::proofs::TypeRows::words_turn, crate::proofs::TypeRows::words_done))]
    fn spaced_names(&self, at: usize, names: usize) -> Result<Vec<u8>, AllocError>
        requires { at + names ≤ length self.now.tokens.now }
        ensures { IfOk result (λ v. v.items ≡ spaced_names (source self.now) names at) }
    {
        let mut words = Vec::with_capacity(self.alloc, USUAL_WORDS)?;
        for place in at..at + names {
            push_name(&mut words, self.name(place))?;
        }
        Ok(words)
    }

    /// The type at a place.
    #[tactic(auto, unfolding(crate::specs::Types::type_at))]
    fn type_at(&self, at: usize) -> Option<ParsedType>
        requires { at ≤ length self.now.tokens.now }
        ensures value { option_map (type_seen (source self.now) at) result ≡ type_at (source self.now) at }
        ensures within { IfSome result (λ t. (at + t.names ≤ length self.now.tokens.now) × (at < t.next) × (t.next ≤ length self.now.tokens.now)) }
    {
        let names = self.names_len(at);
        let stars = self.stars_len(at + names);
        if names == 0 {
            return None;
        }
        Some(ParsedType {
            names,
            stars,
            next: at + names + stars,
        })
    }

    /// The type at a place that a bracket closes.
    #[tactic(auto, unfolding(crate::specs::Types::closed_type))]
    pub fn closed_type(&self, at: usize) -> Option<ParsedType>
        requires { at ≤ length self.now.tokens.now }
        ensures value { option_map (type_seen (source self.now) at) result ≡ closed_type (source self.now) at }
        ensures within { IfSome result (λ t. (at + t.names ≤ length self.now.tokens.now) × (at < t.next) × (t.next < length self.now.tokens.now)) }
    {
        let place = self.type_at(at)?;
        if self.is_mark(place.next, b")") {
            Some(place)
        } else {
            None
        }
    }

    /// The name at a place, if it is all that a type has and no qualifier.
    #[tactic(auto, using(crate::proofs::TypeRows::one_word))]
    fn only_name(&self, at: usize, names: usize) -> Option<&'a [u8]>
        ensures { IfSome result (λ name. name.now ≡ words_at (source self.now) at names) }
    {
        if names != 1 {
            return None;
        }
        let name = self.name(at)?;
        if is_qualifier(name) { None } else { Some(name) }
    }

    /// What a cast to the type at a place makes of a number. Most types are one name, which stands in the text as it is.
    pub fn cast_of(&self, at: usize, names: usize, stars: usize) -> Result<CastTo, AllocError>
        requires { at + names ≤ length self.now.tokens.now }
        ensures { IfOk result (λ to. to ≡ cast_of (words_at (source self.now) at names) stars self.now.long) }
    {
        if let Some(name) = self.only_name(at, names) {
            return Ok(cast_of(name, stars, self.long));
        }
        let words = self.spaced_names(at, names)?;
        Ok(cast_of(joined(&words), stars, self.long))
    }

    /// How many bytes the type at a place has.
    pub fn size_of(&self, at: usize, names: usize, stars: usize) -> Result<Option<u32>, AllocError>
        requires { at + names ≤ length self.now.tokens.now }
        ensures { IfOk result (λ size. size ≡ size_of (words_at (source self.now) at names) stars self.now.long) }
    {
        let words = self.spaced_names(at, names)?;
        Ok(size_of(joined(&words), stars, self.long))
    }
}
