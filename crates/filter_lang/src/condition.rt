//! The productions, each from a place to the tree that stands there, or to the place of the token that is refused.

ghost use Rattle.std.specs.Prelude.{◌≡◌, ◌<◌, ◌≤◌, ◌-◌, ◌^◌, length, IfOk};
ghost use Rattle.filter_lang.specs.TreeView.{tree_of};
ghost use Rattle.filter_lang.specs.ReaderView.{from};
ghost use Rattle.filter_lang.specs.ConditionReading.{unary_at, level_at, row_behind, bracket_in, under};
ghost use Rattle.filter_lang.specs.TakenView.{taken, Gives};

use crate::expr::{FilterOperand, FilterPrefix};
use crate::make::{chained, counted, named, prefixed, quoted};
use crate::parse_fault::ParseFault;
use crate::reader::Reader;
use crate::taken::Taken;
use crate::token::Word;

/// The loosest level of binary operators.
const TOP: u32 = 10;

impl<'a> Reader<'a> {
    /// The operators of a level and of those that bind tighter.
    #[cycle(parser)]
    #[tactic(auto, using(crate::proofs::Steps::level_refused, crate::proofs::Steps::level_row, crate::proofs::Steps::level_zero))]
    pub fn level(&self, level: u32, room: u32, at: usize) -> Result<Taken, ParseFault>
        requires inside { at ≤ length self.now.tokens.now }
        requires top { level ≤ 10 }
        ensures value { Gives self.now taken result (level_at room level (from self.now at)) }
        ensures bound { IfOk result (λ t. (at < t.next) × (t.next ≤ length self.now.tokens.now)) }
    {
        if level == 0 {
            return self.unary(room, at);
        }
        let first = self.level(level - 1, room, at)?;
        self.row(level, room, first)
    }

    /// The operators of a level after their first operand.
    #[cycle(parser)]
    fn row(&self, level: u32, room: u32, first: Taken) -> Result<Taken, ParseFault>
        requires inside { first.next ≤ length self.now.tokens.now }
        requires some { 0 < level }
        requires top { level ≤ 10 }
        ensures value { Gives self.now taken result (row_behind (level_at room (level - 1)) level (tree_of first.expr.value) (from self.now first.next)) }
        ensures bound { IfOk result (λ t. (first.next ≤ t.next) × (t.next ≤ length self.now.tokens.now)) }
    {
        let mut rest = Vec::new(self.alloc);
        let mut next = first.next;
        while let Some(op) = self.op(level, next) {
            let operand = self.level(level - 1, room, next + 1)?;
            next = operand.next;
            rest.push(FilterOperand {
                op,
                value: Box::into_inner(operand.expr),
            })?;
        }
        if rest.is_empty() {
            return Ok(Taken {
                expr: first.expr,
                next,
            });
        }
        let expr = chained(self.alloc, first.expr, rest)?;
        Ok(Taken { expr, next })
    }

    /// A value, a bracket, or a prefix operator and what it applies to.
    #[cycle(parser)]
    #[tactic(auto, using(crate::proofs::Steps::unary_end, crate::proofs::Steps::unary_digits, crate::proofs::Steps::unary_quoted, crate::proofs::Steps::unary_identifier, crate::proofs::Steps::unary_bracket, crate::proofs::Steps::unary_under, crate::proofs::Steps::unary_no_bracket, crate::proofs::Steps::unary_no_room))]
    fn unary(&self, room: u32, at: usize) -> Result<Taken, ParseFault>
        requires inside { at ≤ length self.now.tokens.now }
        ensures value { Gives self.now taken result (unary_at room (from self.now at)) }
        ensures bound { IfOk result (λ t. (at < t.next) × (t.next ≤ length self.now.tokens.now)) }
    {
        let word = self.word(at).ok_or(ParseFault::Before(at))?;
        if let Some(op) = word.prefix() {
            if room == 0 {
                return Err(ParseFault::Before(at));
            }
            return self.under(room - 1, op, at + 1);
        }
        let expr = match word {
            Word::Number(value) => counted(self.alloc, value)?,
            Word::Text(bytes) => quoted(self.alloc, bytes)?,
            Word::Field(bytes) => named(self.alloc, bytes)?,
            Word::Open => {
                if room == 0 {
                    return Err(ParseFault::Before(at));
                }
                return self.bracket(room - 1, at + 1);
            }
            _ => return Err(ParseFault::Before(at)),
        };
        Ok(Taken { expr, next: at + 1 })
    }

    /// A condition in brackets, from just after the opening one.
    #[cycle(parser)]
    fn bracket(&self, room: u32, at: usize) -> Result<Taken, ParseFault>
        requires inside { at ≤ length self.now.tokens.now }
        requires room { room < 2 ^ 32 - 1 }
        ensures value { Gives self.now taken result (bracket_in (unary_at room) (from self.now at)) }
        ensures bound { IfOk result (λ t. (at < t.next) × (t.next ≤ length self.now.tokens.now)) }
    {
        let inner = self.level(TOP, room, at)?;
        match self.word(inner.next) {
            Some(Word::Close) => Ok(Taken {
                expr: inner.expr,
                next: inner.next + 1,
            }),
            _ => Err(ParseFault::Before(inner.next)),
        }
    }

    /// What a prefix operator applies to.
    #[cycle(parser)]
    fn under(&self, room: u32, op: FilterPrefix, at: usize) -> Result<Taken, ParseFault>
        requires inside { at ≤ length self.now.tokens.now }
        requires room { room < 2 ^ 32 - 1 }
        ensures value { Gives self.now taken result (under (unary_at room) op (from self.now at)) }
        ensures bound { IfOk result (λ t. (at < t.next) × (t.next ≤ length self.now.tokens.now)) }
    {
        let inner = self.unary(room, at)?;
        Ok(Taken {
            expr: prefixed(self.alloc, op, inner.expr)?,
            next: inner.next,
        })
    }
}
