//! The calls that print.

ghost use Rattle.std.specs.Prelude.{◌<◌, ◌≤◌, length, IfOk};
ghost use Rattle.fmt_expr.specs.Parsing.{entry_at, entries_behind, entries_at, argument_at, flags_at, symbolic_at, hex_at, array_at, inner_cond};
ghost use Rattle.fmt_expr.specs.Steps.{Gives};
ghost use Rattle.fmt_expr.specs.SourceView.{source};
ghost use Rattle.fmt_expr.specs.TakenView.{taken, taken_entry, taken_entries};

use crate::expr::Entry;
use crate::fault::ParseFault;
use crate::judge::{has_bytes, is_number};
use crate::make::{flagged, in_array, in_hex, named};
use crate::reader::Reader;
use crate::taken::{Taken, TakenEntries, TakenEntry};

impl<'a> Reader<'a> {
    /// The first argument of a call, up to the comma after it.
    #[cycle(parser)]
    #[tactic(auto, unfolding(crate::specs::Parsing::argument_at))]
    fn argument(&self, left: u32, at: usize) -> Result<Taken, ParseFault>
        requires { at < length self.now.tokens.now }
        ensures value { Gives taken result (argument_at (source self.now) (inner_cond (source self.now) left) at) }
        ensures bound { IfOk result (λ t. (at < t.next) × (t.next ≤ length self.now.tokens.now) × (t.nest < left)) }
    {
        if !self.is_mark(at + 1, b"(") {
            return Err(ParseFault::NoTree);
        }
        let argument = self.inner_cond(left, at + 2)?;
        if !self.is_mark(argument.next, b",") {
            return Err(ParseFault::NoTree);
        }
        Ok(Taken {
            expr: argument.expr,
            nest: argument.nest,
            next: argument.next + 1,
        })
    }

    /// `__print_flags` and its arguments.
    #[cycle(parser)]
    #[tactic(auto, unfolding(crate::specs::Parsing::flags_at))]
    pub fn flags(&self, left: u32, at: usize) -> Result<Taken, ParseFault>
        requires { at < length self.now.tokens.now }
        ensures value { Gives taken result (flags_at (source self.now) (inner_cond (source self.now) left) at) }
        ensures bound { IfOk result (λ t. (at < t.next) × (t.next ≤ length self.now.tokens.now) × (t.nest ≤ left)) }
    {
        let value = self.argument(left, at)?;
        if !is_number(&value.expr) {
            return Err(ParseFault::NoTree);
        }
        let between = self.text(value.next)?;
        if !self.is_mark(between.next, b",") {
            return Err(ParseFault::NoTree);
        }
        let all = self.entries(left, between.next + 1)?;
        Ok(Taken {
            expr: flagged(self.alloc, value.expr, between.text, all.entries)?,
            nest: 1 + value.nest.max(all.nest),
            next: all.next,
        })
    }

    /// `__print_symbolic` and its arguments.
    #[cycle(parser)]
    #[tactic(auto, unfolding(crate::specs::Parsing::symbolic_at))]
    pub fn symbolic(&self, left: u32, at: usize) -> Result<Taken, ParseFault>
        requires { at < length self.now.tokens.now }
        ensures value { Gives taken result (symbolic_at (source self.now) (inner_cond (source self.now) left) at) }
        ensures bound { IfOk result (λ t. (at < t.next) × (t.next ≤ length self.now.tokens.now) × (t.nest ≤ left)) }
    {
        let value = self.argument(left, at)?;
        if !is_number(&value.expr) {
            return Err(ParseFault::NoTree);
        }
        let all = self.entries(left, value.next)?;
        Ok(Taken {
            expr: named(self.alloc, value.expr, all.entries)?,
            nest: 1 + value.nest.max(all.nest),
            next: all.next,
        })
    }

    /// `__print_hex` and its arguments.
    #[cycle(parser)]
    #[tactic(auto, unfolding(crate::specs::Parsing::hex_at))]
    pub fn hex(&self, left: u32, at: usize) -> Result<Taken, ParseFault>
        requires { at < length self.now.tokens.now }
        ensures value { Gives taken result (hex_at (source self.now) (inner_cond (source self.now) left) at) }
        ensures bound { IfOk result (λ t. (at < t.next) × (t.next ≤ length self.now.tokens.now) × (t.nest ≤ left)) }
    {
        let bytes = self.argument(left, at)?;
        if !has_bytes(&bytes.expr) {
            return Err(ParseFault::NoTree);
        }
        let count = self.number_before(left, bytes.next, b")")?;
        Ok(Taken {
            expr: in_hex(self.alloc, bytes.expr, count.expr)?,
            nest: 1 + bytes.nest.max(count.nest),
            next: count.next + 1,
        })
    }

    /// `__print_array` and its arguments.
    #[cycle(parser)]
    #[tactic(auto, unfolding(crate::specs::Parsing::array_at))]
    pub fn array(&self, left: u32, at: usize) -> Result<Taken, ParseFault>
        requires { at < length self.now.tokens.now }
        ensures value { Gives taken result (array_at (source self.now) (inner_cond (source self.now) left) at) }
        ensures bound { IfOk result (λ t. (at < t.next) × (t.next ≤ length self.now.tokens.now) × (t.nest ≤ left)) }
    {
        let bytes = self.argument(left, at)?;
        if !has_bytes(&bytes.expr) {
            return Err(ParseFault::NoTree);
        }
        let count = self.number_before(left, bytes.next, b",")?;
        let size = self.number_before(left, count.next + 1, b")")?;
        Ok(Taken {
            expr: in_array(self.alloc, bytes.expr, count.expr, size.expr)?,
            nest: 1 + bytes.nest.max(count.nest.max(size.nest)),
            next: size.next + 1,
        })
    }

    /// A value and its text, in braces.
    #[cycle(parser)]
    #[tactic(auto, unfolding(crate::specs::Parsing::entry_at))]
    fn entry(&self, left: u32, at: usize) -> Result<TakenEntry, ParseFault>
        requires { at ≤ length self.now.tokens.now }
        ensures value { Gives taken_entry result (entry_at (source self.now) (inner_cond (source self.now) left) at) }
        ensures bound { IfOk result (λ t. (at < t.next) × (t.next ≤ length self.now.tokens.now) × (t.nest < left)) }
    {
        if !self.is_mark(at, b"{") {
            return Err(ParseFault::NoTree);
        }
        let value = self.number_before(left, at + 1, b",")?;
        let text = self.text(value.next + 1)?;
        if !self.is_mark(text.next, b"}") {
            return Err(ParseFault::NoTree);
        }
        Ok(TakenEntry {
            value: value.expr,
            text: text.text,
            nest: value.nest,
            next: text.next + 1,
        })
    }

    /// All entries from the first one on.
    #[cycle(parser)]
    fn more_entries(&self, left: u32, first: TakenEntry) -> Result<TakenEntries, ParseFault>
        requires inside { first.next ≤ length self.now.tokens.now }
        requires nest { first.nest < left }
        ensures value { Gives taken_entries result (entries_behind (source self.now) (inner_cond (source self.now) left) (taken_entry first)) }
        ensures bound { IfOk result (λ t. (first.next ≤ t.next) × (t.next ≤ length self.now.tokens.now) × (t.nest < left)) }
    {
        let mut entries = Vec::new(self.alloc);
        let mut nest = first.nest;
        let mut next = first.next;
        entries.push(Entry {
            value: Box::into_inner(first.value),
            text: first.text,
        })?;
        while self.is_mark(next, b",") {
            let entry = self.entry(left, next + 1)?;
            nest = nest.max(entry.nest);
            next = entry.next;
            entries.push(Entry {
                value: Box::into_inner(entry.value),
                text: entry.text,
            })?;
        }
        Ok(TakenEntries {
            entries,
            nest,
            next,
        })
    }

    /// One or more entries, up to the bracket that closes their call.
    #[cycle(parser)]
    #[tactic(auto, unfolding(crate::specs::Parsing::entries_at))]
    fn entries(&self, left: u32, at: usize) -> Result<TakenEntries, ParseFault>
        requires { at ≤ length self.now.tokens.now }
        ensures value { Gives taken_entries result (entries_at (source self.now) (inner_cond (source self.now) left) at) }
        ensures bound { IfOk result (λ t. (at < t.next) × (t.next ≤ length self.now.tokens.now) × (t.nest < left)) }
    {
        let first = self.entry(left, at)?;
        let all = self.more_entries(left, first)?;
        if !self.is_mark(all.next, b")") {
            return Err(ParseFault::NoTree);
        }
        Ok(TakenEntries {
            entries: all.entries,
            nest: all.nest,
            next: all.next + 1,
        })
    }
}
