//! The productions, each from a place to the tree that stands there.

ghost use Rattle.std.specs.Prelude.{◌≡◌, ◌+◌, ◌<◌, ◌≤◌, ◌-◌, length, IfOk};
ghost use Rattle.fmt_expr.specs.Parsing.{row_behind, rows_behind, level_at, choice_at, bracket_at, prefixed_at, field_at, number_before, element_at, cast_at, open_at, call_by, unary_at, cond_at, inner_of, inner_unary, inner_cond};
ghost use Rattle.fmt_expr.specs.Steps.{Gives};
ghost use Rattle.fmt_expr.specs.SourceView.{source};
ghost use Rattle.fmt_expr.specs.TakenView.{taken, type_seen};

use crate::expr::{Operand, PrefixOp};
use crate::fault::ParseFault;
use crate::fields::{field_expr, is_indexed};
use crate::head::{Builtin, Head};
use crate::judge::{is_alike, is_number};
use crate::make::{casted, chained, chosen, indexed, prefixed};
use crate::reader::Reader;
use crate::taken::{ParsedType, Taken};
use trace_base::Field;

/// The loosest level of binary operators.
const TOP: u32 = 10;

impl<'a> Reader<'a> {
    /// A conditional, or what stands for one.
    #[cycle(parser)]
    #[tactic(auto, using(crate::proofs::Layers::cond_none, crate::proofs::Layers::cond_plain, crate::proofs::Layers::cond_choice))]
    pub fn cond(&self, left: u32, at: usize) -> Result<Taken, ParseFault>
        requires { at ≤ length self.now.tokens.now }
        ensures value { Gives taken result (cond_at (source self.now) left at) }
        ensures bound { IfOk result (λ t. (at < t.next) × (t.next ≤ length self.now.tokens.now) × (t.nest ≤ left)) }
    {
        let test = self.level(TOP, left, at)?;
        if self.is_mark(test.next, b"?") {
            self.choice(left, test)
        } else {
            Ok(test)
        }
    }

    /// A conditional one level deeper.
    #[cycle(parser)]
    #[tactic(auto, using(crate::proofs::Layers::no_cond, crate::proofs::Layers::more_cond))]
    pub fn inner_cond(&self, left: u32, at: usize) -> Result<Taken, ParseFault>
        requires { at ≤ length self.now.tokens.now }
        ensures value { Gives taken result (inner_cond (source self.now) left at) }
        ensures bound { IfOk result (λ t. (at < t.next) × (t.next ≤ length self.now.tokens.now) × (t.nest < left)) }
    {
        if left == 0 {
            return Err(ParseFault::NoTree);
        }
        self.cond(left - 1, at)
    }

    /// A number one level deeper, with this mark after it: the place that is told is that of the mark.
    #[cycle(parser)]
    #[tactic(auto, unfolding(crate::specs::Parsing::number_before))]
    pub fn number_before(&self, left: u32, at: usize, mark: &[u8]) -> Result<Taken, ParseFault>
        requires { at ≤ length self.now.tokens.now }
        ensures value { Gives taken result (number_before (source self.now) (inner_cond (source self.now) left) mark.now at) }
        ensures bound { IfOk result (λ t. (at < t.next) × (t.next < length self.now.tokens.now) × (t.nest < left)) }
    {
        let number = self.inner_cond(left, at)?;
        if !is_number(&number.expr) || !self.is_mark(number.next, mark) {
            return Err(ParseFault::NoTree);
        }
        Ok(number)
    }

    /// What stands without a binary operator, one level deeper.
    #[cycle(parser)]
    #[tactic(auto, using(crate::proofs::Layers::no_unary, crate::proofs::Layers::more_unary))]
    fn inner_unary(&self, left: u32, at: usize) -> Result<Taken, ParseFault>
        requires { at ≤ length self.now.tokens.now }
        ensures value { Gives taken result (inner_unary (source self.now) left at) }
        ensures bound { IfOk result (λ t. (at < t.next) × (t.next ≤ length self.now.tokens.now) × (t.nest < left)) }
    {
        if left == 0 {
            return Err(ParseFault::NoTree);
        }
        self.unary(left - 1, at)
    }

    /// A conditional, from its question mark on.
    #[cycle(parser)]
    #[tactic(auto, unfolding(crate::specs::Parsing::choice_at))]
    fn choice(&self, left: u32, test: Taken) -> Result<Taken, ParseFault>
        requires { test.next < length self.now.tokens.now }
        ensures value { Gives taken result (choice_at (source self.now) left (inner_cond (source self.now) left) (taken test)) }
        ensures bound { IfOk result (λ t. (test.next < t.next) × (t.next ≤ length self.now.tokens.now) × (t.nest ≤ left)) }
    {
        if test.nest >= left || !is_number(&test.expr) {
            return Err(ParseFault::NoTree);
        }
        let one = self.inner_cond(left, test.next + 1)?;
        if !self.is_mark(one.next, b":") {
            return Err(ParseFault::NoTree);
        }
        let other = self.inner_cond(left, one.next + 1)?;
        if !is_alike(&one.expr, &other.expr) {
            return Err(ParseFault::NoTree);
        }
        Ok(Taken {
            expr: chosen(self.alloc, test.expr, one.expr, other.expr)?,
            nest: 1 + test.nest.max(one.nest.max(other.nest)),
            next: other.next,
        })
    }

    /// The operators of a level and of those that bind tighter. Most operands have no operator after them.
    #[cycle(parser)]
    #[tactic(auto, using(crate::proofs::RowTurns::level_stops, crate::proofs::RowTurns::level_alone, crate::proofs::RowTurns::level_rows))]
    fn level(&self, level: u32, left: u32, at: usize) -> Result<Taken, ParseFault>
        requires inside { at ≤ length self.now.tokens.now }
        requires top { level ≤ 10 }
        ensures value { Gives taken result (level_at (source self.now) (unary_at (source self.now) left) level at) }
        ensures bound { IfOk result (λ t. (at < t.next) × (t.next ≤ length self.now.tokens.now) × (t.nest ≤ left)) }
    {
        let first = self.unary(left, at)?;
        match self.operator(first.next) {
            None => Ok(first),
            Some(_) => self.rows(level, left, first),
        }
    }

    /// The operators of a level and of those that bind tighter, after the first operand of all: row after row, from the level
    /// of the next operator on.
    #[cycle(parser)]
    fn rows(&self, level: u32, left: u32, first: Taken) -> Result<Taken, ParseFault>
        requires inside { first.next ≤ length self.now.tokens.now }
        requires top { level ≤ 10 }
        requires nest { first.nest ≤ left }
        ensures value { Gives taken result (rows_behind (source self.now) (unary_at (source self.now) left) level (taken first)) }
        ensures bound { IfOk result (λ t. (first.next ≤ t.next) × (t.next ≤ length self.now.tokens.now) × (t.nest ≤ left)) }
    {
        let mut all = first;
        let mut done = 0;
        while let Some(op) = self.operator(all.next) {
            let next = op.level().max(done + 1);
            if level < next {
                return Ok(all);
            }
            let more = self.row(next, left, all)?;
            all = more;
            done = next;
        }
        Ok(all)
    }

    /// The operators of a level after their first operand.
    #[cycle(parser)]
    fn row(&self, level: u32, left: u32, first: Taken) -> Result<Taken, ParseFault>
        requires inside { first.next ≤ length self.now.tokens.now }
        requires some { 0 < level }
        requires top { level ≤ 10 }
        requires nest { first.nest ≤ left }
        ensures value { Gives taken result (row_behind (source self.now) (level_at (source self.now) (unary_at (source self.now) left) (level - 1)) level (taken first)) }
        ensures bound { IfOk result (λ t. (first.next ≤ t.next) × (t.next ≤ length self.now.tokens.now) × (t.nest ≤ left)) }
    {
        let mut rest = Vec::new(self.alloc);
        let mut nest = first.nest;
        let mut next = first.next;
        while let Some(op) = self.op(level, next) {
            let operand = self.level(level - 1, left, next + 1)?;
            if !is_number(&operand.expr) {
                return Err(ParseFault::NoTree);
            }
            nest = nest.max(operand.nest);
            next = operand.next;
            rest.push(Operand {
                op,
                value: Box::into_inner(operand.expr),
            })?;
        }
        if rest.is_empty() {
            return Ok(first);
        }
        if !is_number(&first.expr) {
            return Err(ParseFault::NoTree);
        }
        let expr = chained(self.alloc, first.expr, rest)?;
        Ok(Taken { expr, nest, next })
    }

    /// What stands without a binary operator, by what its first token begins.
    #[cycle(parser)]
    #[tactic(auto, using(crate::proofs::Layers::at_operator, crate::proofs::Layers::at_open, crate::proofs::Layers::at_record, crate::proofs::Layers::at_call, crate::proofs::Layers::at_other))]
    fn unary(&self, left: u32, at: usize) -> Result<Taken, ParseFault>
        requires { at ≤ length self.now.tokens.now }
        ensures value { Gives taken result (unary_at (source self.now) left at) }
        ensures bound { IfOk result (λ t. (at < t.next) × (t.next ≤ length self.now.tokens.now) × (t.nest ≤ left)) }
    {
        match self.head(at) {
            Head::Operator(op) => self.prefixed(left, op, at),
            Head::Open => self.opened(left, at),
            Head::Record => self.field(left, at),
            Head::Builtin(call) => self.call(left, call, at),
            Head::Other => self.leaf(at),
        }
    }

    /// An operator and its operand.
    #[cycle(parser)]
    #[tactic(auto, unfolding(crate::specs::Parsing::prefixed_at))]
    fn prefixed(&self, left: u32, op: PrefixOp, at: usize) -> Result<Taken, ParseFault>
        requires { at < length self.now.tokens.now }
        ensures value { Gives taken result (prefixed_at (inner_unary (source self.now) left) op at) }
        ensures bound { IfOk result (λ t. (at < t.next) × (t.next ≤ length self.now.tokens.now) × (t.nest ≤ left)) }
    {
        let of = self.inner_unary(left, at + 1)?;
        if !is_number(&of.expr) {
            return Err(ParseFault::NoTree);
        }
        Ok(Taken {
            expr: prefixed(self.alloc, op, of.expr)?,
            nest: 1 + of.nest,
            next: of.next,
        })
    }

    /// A cast, or what stands in brackets. A type has no operator and no `REC`, so that no tree is a type too.
    #[cycle(parser)]
    #[tactic(auto, unfolding(crate::specs::Parsing::open_at))]
    fn opened(&self, left: u32, at: usize) -> Result<Taken, ParseFault>
        requires { at < length self.now.tokens.now }
        ensures value { Gives taken result (open_at (source self.now) (inner_of (source self.now) left) at) }
        ensures bound { IfOk result (λ t. (at < t.next) × (t.next ≤ length self.now.tokens.now) × (t.nest ≤ left)) }
    {
        match self.closed_type(at + 1) {
            Some(place) => self.cast(left, at + 1, place),
            None => self.bracket(left, at),
        }
    }

    /// A cast, whose type begins at a place.
    #[cycle(parser)]
    #[tactic(auto, unfolding(crate::specs::Parsing::cast_at))]
    fn cast(&self, left: u32, from: usize, place: ParsedType) -> Result<Taken, ParseFault>
        requires names { from + place.names ≤ length self.now.tokens.now }
        requires inside { place.next < length self.now.tokens.now }
        ensures value { Gives taken result (cast_at (source self.now) (inner_unary (source self.now) left) (type_seen (source self.now) from place)) }
        ensures bound { IfOk result (λ t. (place.next < t.next) × (t.next ≤ length self.now.tokens.now) × (t.nest ≤ left)) }
    {
        let to = self.cast_of(from, place.names, place.stars)?;
        let of = self.inner_unary(left, place.next + 1)?;
        Ok(Taken {
            expr: casted(self.alloc, to, of.expr)?,
            nest: 1 + of.nest,
            next: of.next,
        })
    }

    /// What stands in brackets.
    #[cycle(parser)]
    #[tactic(auto, unfolding(crate::specs::Parsing::bracket_at))]
    fn bracket(&self, left: u32, at: usize) -> Result<Taken, ParseFault>
        requires { at < length self.now.tokens.now }
        ensures value { Gives taken result (bracket_at (source self.now) (inner_cond (source self.now) left) at) }
        ensures bound { IfOk result (λ t. (at < t.next) × (t.next ≤ length self.now.tokens.now) × (t.nest ≤ left)) }
    {
        let inner = self.inner_cond(left, at + 1)?;
        if !self.is_mark(inner.next, b")") {
            return Err(ParseFault::NoTree);
        }
        Ok(Taken {
            expr: inner.expr,
            nest: 1 + inner.nest,
            next: inner.next + 1,
        })
    }

    /// A field, or one of its elements.
    #[cycle(parser)]
    #[tactic(auto, unfolding(crate::specs::Parsing::field_at))]
    fn field(&self, left: u32, at: usize) -> Result<Taken, ParseFault>
        requires { at < length self.now.tokens.now }
        ensures value { Gives taken result (field_at (source self.now) (inner_cond (source self.now) left) at) }
        ensures bound { IfOk result (λ t. (at < t.next) × (t.next ≤ length self.now.tokens.now) × (t.nest ≤ left)) }
    {
        let field = self.named(at).ok_or(ParseFault::NoTree)?;
        if self.is_mark(at + 3, b"[") {
            return self.element(left, at, field);
        }
        Ok(Taken {
            expr: Box::new(self.alloc, field_expr(self.alloc, field)?)?,
            nest: 0,
            next: at + 3,
        })
    }

    /// An element of a field, from its square bracket on.
    #[cycle(parser)]
    #[tactic(auto, unfolding(crate::specs::Parsing::element_at))]
    fn element(&self, left: u32, at: usize, field: &Field) -> Result<Taken, ParseFault>
        requires { at + 3 < length self.now.tokens.now }
        ensures value { Gives taken result (element_at (source self.now) (inner_cond (source self.now) left) at field.now) }
        ensures bound { IfOk result (λ t. (at < t.next) × (t.next ≤ length self.now.tokens.now) × (t.nest ≤ left)) }
    {
        if !is_indexed(field.kind, field.element) {
            return Err(ParseFault::NoTree);
        }
        let index = self.number_before(left, at + 4, b"]")?;
        let field = field.copy(self.alloc)?;
        Ok(Taken {
            expr: indexed(self.alloc, field, index.expr)?,
            nest: 1 + index.nest,
            next: index.next + 1,
        })
    }

    /// A call.
    #[cycle(parser)]
    fn call(&self, left: u32, call: Builtin, at: usize) -> Result<Taken, ParseFault>
        requires { at < length self.now.tokens.now }
        ensures value { Gives taken result (call_by (source self.now) left (inner_of (source self.now) left) at call) }
        ensures bound { IfOk result (λ t. (at < t.next) × (t.next ≤ length self.now.tokens.now) × (t.nest ≤ left)) }
    {
        match call {
            Builtin::Get(got) => self.got(left, got, at),
            Builtin::SizeOf => self.sized(at),
            Builtin::Flags => self.flags(left, at),
            Builtin::Symbolic => self.symbolic(left, at),
            Builtin::Hex => self.hex(left, at),
            Builtin::Array => self.array(left, at),
        }
    }
}
