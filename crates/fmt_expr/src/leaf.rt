//! Productions without an inner tree.

ghost use Rattle.std.specs.Prelude.{◌<◌, ◌≤◌, length, IfOk};
ghost use Rattle.fmt_expr.specs.Parsing.{leaf_at, sized_at, got_at};
ghost use Rattle.fmt_expr.specs.Steps.{Gives};
ghost use Rattle.fmt_expr.specs.SourceView.{source};
ghost use Rattle.fmt_expr.specs.TakenView.{taken};

use crate::fault::ParseFault;
use crate::fields::got_expr;
use crate::head::Got;
use crate::make::{literal, numbered};
use crate::reader::Reader;
use crate::taken::Taken;
use fmt_literal::unsigned_long;

impl<'a> Reader<'a> {
    /// A number, a letter, or texts.
    #[tactic(auto, unfolding(crate::specs::Parsing::leaf_at))]
    pub fn leaf(&self, at: usize) -> Result<Taken, ParseFault>
        requires { at ≤ length self.now.tokens.now }
        ensures value { Gives taken result (leaf_at (source self.now) at) }
        ensures bound { IfOk result (λ t. (at < t.next) × (t.next ≤ length self.now.tokens.now) × (t.nest ≤ 0)) }
    {
        if let Some(number) = self.constant(at) {
            return Ok(Taken {
                expr: numbered(self.alloc, number.bits, number.kind)?,
                nest: 0,
                next: at + 1,
            });
        }
        let text = self.text(at)?;
        Ok(Taken {
            expr: literal(self.alloc, text.text)?,
            nest: 0,
            next: text.next,
        })
    }

    /// `sizeof` and its type.
    #[tactic(auto, unfolding(crate::specs::Parsing::sized_at))]
    pub fn sized(&self, at: usize) -> Result<Taken, ParseFault>
        requires { at < length self.now.tokens.now }
        ensures value { Gives taken result (sized_at (source self.now) at) }
        ensures bound { IfOk result (λ t. (at < t.next) × (t.next ≤ length self.now.tokens.now) × (t.nest ≤ 0)) }
    {
        if !self.is_mark(at + 1, b"(") {
            return Err(ParseFault::NoTree);
        }
        let place = self.closed_type(at + 2).ok_or(ParseFault::NoTree)?;
        let size = self.size_of(at + 2, place.names, place.stars)?;
        let size = size.ok_or(ParseFault::NoTree)?;
        Ok(Taken {
            expr: numbered(self.alloc, u64::from(size), unsigned_long(self.long))?,
            nest: 0,
            next: place.next + 1,
        })
    }

    /// A call that gives something of a dynamic field.
    #[tactic(auto, unfolding(crate::specs::Parsing::got_at))]
    pub fn got(&self, left: u32, got: Got, at: usize) -> Result<Taken, ParseFault>
        requires { at < length self.now.tokens.now }
        ensures value { Gives taken result (got_at (source self.now) left got at) }
        ensures bound { IfOk result (λ t. (at < t.next) × (t.next ≤ length self.now.tokens.now) × (t.nest ≤ left)) }
    {
        if left == 0 {
            return Err(ParseFault::NoTree);
        }
        let field = self.dynamic(at).ok_or(ParseFault::NoTree)?;
        Ok(Taken {
            expr: Box::new(self.alloc, got_expr(self.alloc, field, got)?)?,
            nest: 1,
            next: at + 4,
        })
    }
}
