//! Adjoining texts.

ghost use Rattle.std.specs.Prelude.{◌≡◌, ◌<◌, ◌≤◌, length, IfOk, IfSome, Some};
ghost use Rattle.fmt_expr.specs.Texts.{text_at};
ghost use Rattle.fmt_expr.specs.Steps.{Gives};
ghost use Rattle.fmt_expr.specs.SourceView.{source};
ghost use Rattle.fmt_expr.specs.TakenView.{taken_text};

use crate::fault::ParseFault;
use crate::reader::Reader;
use crate::taken::TakenText;
use fmt_literal::{plain_text, push_text};
use std::alloc::AllocError;
use trace_base::ByteText;

impl<'a> Reader<'a> {
    /// The texts from a place on, joined: one or more.
    #[tactic(auto, using(crate::proofs::TextRows::texts_step, crate::proofs::TextRows::some_texts, crate::proofs::TextRows::no_texts))]
    pub fn text(&self, at: usize) -> Result<TakenText, ParseFault>
        requires { at ≤ length self.now.tokens.now }
        ensures value { Gives taken_text result (text_at (source self.now) at) }
        ensures bound { IfOk result (λ t. (at < t.next) × (t.next ≤ length self.now.tokens.now)) }
    {
        if let Some(text) = self.lone_text(at)? {
            return Ok(text);
        }
        let mut bytes = Vec::new(self.alloc);
        let mut next = at;
        while let Some(spelling) = self.literal(next) {
            push_text(&mut bytes, spelling)?;
            next += 1;
        }
        if next == at {
            return Err(ParseFault::NoTree);
        }
        Ok(TakenText {
            text: ByteText::from_vec(bytes),
            next,
        })
    }
    /// The text at a place that stands alone, if each of its bytes stands for itself. Most texts are such, and most are so short
    /// that they take no memory then.
    #[tactic(auto, using(crate::proofs::TextRows::lone_text))]
    fn lone_text(&self, at: usize) -> Result<Option<TakenText>, AllocError>
        ensures value { IfOk result (λ o. IfSome o (λ t. text_at (source self.now) at ≡ Some (taken_text t))) }
        ensures bound { IfOk result (λ o. IfSome o (λ t. (at < t.next) × (t.next ≤ length self.now.tokens.now))) }
    {
        let Some(spelling) = self.literal(at) else {
            return Ok(None);
        };
        let Some(bytes) = plain_text(spelling) else {
            return Ok(None);
        };
        match self.literal(at + 1) {
            Some(_) => Ok(None),
            None => {
                let text = ByteText::copy(self.alloc, bytes)?;
                let next = at + 1;
                Ok(Some(TakenText { text, next }))
            }
        }
    }
}
