//! Trees with their constant parts computed.

ghost use Rattle.std.specs.Prelude.{◌≡◌, true, IfOk};
ghost use Rattle.fmt_expr.specs.Tree.{chain, choice, flags, symbolic, hex, array, prefix, cast, element};
ghost use Rattle.fmt_expr.specs.TreeView.{tree_of, operands_of, entries_of};
ghost use Rattle.fmt_fold.specs.Same.{IsSame};
ghost use Rattle.fmt_fold.specs.Constants.{is_written, is_constant};
ghost use Rattle.fmt_fold.specs.Folded.{EachPart, IsNoneLeft, IsFolded, FoldedOperands, FoldedEntries};

use crate::constants::{is_constant, settled, written};
use crate::make::{chained, flagged, named, nameless};
use fmt_expr::{CastTo, Entry, Expr, Operand, PrefixOp};
use std::alloc::{AllocError, Global};
use trace_base::{ByteText, Field};

/// The folded tree in a box.
#[cycle(fold)]
fn boxed(alloc: Global, expr: &Expr) -> Result<Box<Expr>, AllocError>
    ensures { IfOk result (λ e. IsFolded (tree_of e.value) (tree_of expr.now)) }
{
    Ok(Box::new(alloc, folded_tree(alloc, expr)?)?)
}

#[cycle(fold)]
#[tactic(auto, using(crate::proofs::Runs::operands_none, crate::proofs::Runs::operands_all))]
fn folded_operands(alloc: Global, rest: &[Operand]) -> Result<Vec<Operand>, AllocError>
    ensures { IfOk result (λ os. FoldedOperands os.items rest.now) }
{
    let mut made = Vec::new(alloc);
    for operand in rest {
        let value = folded_tree(alloc, &operand.value)?;
        made.push(Operand {
            op: operand.op,
            value,
        })?;
    }
    Ok(made)
}

#[cycle(fold)]
#[tactic(auto, using(crate::proofs::Runs::entries_none, crate::proofs::Runs::entries_all))]
fn folded_entries(alloc: Global, entries: &[Entry]) -> Result<Vec<Entry>, AllocError>
    ensures { IfOk result (λ es. FoldedEntries es.items entries.now) }
{
    let mut made = Vec::new(alloc);
    for entry in entries {
        let value = folded_tree(alloc, &entry.value)?;
        let text = ByteText::copy(alloc, entry.text.as_bytes())?;
        made.push(Entry { value, text })?;
    }
    Ok(made)
}

#[cycle(fold)]
#[tactic(auto, using(crate::proofs::Folds::folded_element))]
fn folded_element(alloc: Global, field: &Field, index: &Expr) -> Result<Expr, AllocError>
    ensures { IfOk result (λ e. IsFolded (tree_of e) (element field.now (tree_of index.now))) }
{
    let index = boxed(alloc, index)?;
    Ok(Expr::Element {
        field: nameless(alloc, field),
        index,
    })
}

#[cycle(fold)]
fn folded_prefix(alloc: Global, op: PrefixOp, of: &Expr) -> Result<Expr, AllocError>
    ensures { IfOk result (λ e. IsFolded (tree_of e) (prefix op (tree_of of.now))) }
{
    let of = boxed(alloc, of)?;
    Ok(settled(Expr::Prefix { op, of }))
}

#[cycle(fold)]
fn folded_cast(alloc: Global, to: CastTo, of: &Expr) -> Result<Expr, AllocError>
    ensures { IfOk result (λ e. IsFolded (tree_of e) (cast to (tree_of of.now))) }
{
    let of = boxed(alloc, of)?;
    Ok(settled(Expr::Cast { to, of }))
}

#[cycle(fold)]
fn folded_chain(alloc: Global, first: &Expr, rest: &[Operand]) -> Result<Expr, AllocError>
    ensures { IfOk result (λ e. IsFolded (tree_of e) (chain (tree_of first.now) (operands_of rest.now))) }
{
    let first = boxed(alloc, first)?;
    let rest = folded_operands(alloc, rest)?;
    Ok(settled(chained(first, rest)))
}

#[cycle(fold)]
fn folded_choice(alloc: Global, test: &Expr, yes: &Expr, no: &Expr) -> Result<Expr, AllocError>
    ensures { IfOk result (λ e. IsFolded (tree_of e) (choice (tree_of test.now) (tree_of yes.now) (tree_of no.now))) }
{
    let test = boxed(alloc, test)?;
    let yes = boxed(alloc, yes)?;
    let no = boxed(alloc, no)?;
    Ok(settled(Expr::Choice { test, yes, no }))
}

#[cycle(fold)]
#[tactic(auto, using(crate::proofs::Folds::folded_flags))]
fn folded_flags(
    alloc: Global,
    value: &Expr,
    between: &[u8],
    entries: &[Entry],
) -> Result<Expr, AllocError>
    ensures { IfOk result (λ e. IsFolded (tree_of e) (flags (tree_of value.now) between.now (entries_of entries.now))) }
{
    let value = boxed(alloc, value)?;
    let between = ByteText::copy(alloc, between)?;
    let entries = folded_entries(alloc, entries)?;
    Ok(flagged(value, between, entries))
}

#[cycle(fold)]
#[tactic(auto, using(crate::proofs::Folds::folded_symbolic))]
fn folded_symbolic(alloc: Global, value: &Expr, entries: &[Entry]) -> Result<Expr, AllocError>
    ensures { IfOk result (λ e. IsFolded (tree_of e) (symbolic (tree_of value.now) (entries_of entries.now))) }
{
    let value = boxed(alloc, value)?;
    let entries = folded_entries(alloc, entries)?;
    Ok(named(value, entries))
}

#[cycle(fold)]
#[tactic(auto, using(crate::proofs::Folds::folded_hex))]
fn folded_hex(alloc: Global, bytes: &Expr, count: &Expr) -> Result<Expr, AllocError>
    ensures { IfOk result (λ e. IsFolded (tree_of e) (hex (tree_of bytes.now) (tree_of count.now))) }
{
    let bytes = boxed(alloc, bytes)?;
    let count = boxed(alloc, count)?;
    Ok(Expr::Hex { bytes, count })
}

#[cycle(fold)]
#[tactic(auto, using(crate::proofs::Folds::folded_array))]
fn folded_array(alloc: Global, bytes: &Expr, count: &Expr, size: &Expr) -> Result<Expr, AllocError>
    ensures { IfOk result (λ e. IsFolded (tree_of e) (array (tree_of bytes.now) (tree_of count.now) (tree_of size.now))) }
{
    let bytes = boxed(alloc, bytes)?;
    let count = boxed(alloc, count)?;
    let size = boxed(alloc, size)?;
    Ok(Expr::Array { bytes, count, size })
}

#[cycle(fold)]
#[tactic(auto, using(crate::proofs::Folds::folded_number, crate::proofs::Folds::folded_literal, crate::proofs::Folds::folded_field, crate::proofs::Folds::folded_text, crate::proofs::Folds::folded_bytes, crate::proofs::Folds::folded_len))]
fn folded_tree(alloc: Global, expr: &Expr) -> Result<Expr, AllocError>
    ensures { IfOk result (λ e. IsFolded (tree_of e) (tree_of expr.now)) }
{
    if is_constant(expr) {
        // Most values of flags are constants, some of which have hundreds of parts.
        return Ok(written(expr));
    }
    match expr {
        Expr::Number { bits, kind } => Ok(Expr::Number {
            bits: *bits,
            kind: *kind,
        }),
        Expr::Literal { text } => Ok(Expr::Literal {
            text: ByteText::copy(alloc, text.as_bytes())?,
        }),
        Expr::FieldNumber { field } => Ok(Expr::FieldNumber {
            field: nameless(alloc, field),
        }),
        Expr::FieldText { field } => Ok(Expr::FieldText {
            field: nameless(alloc, field),
        }),
        Expr::FieldBytes { field } => Ok(Expr::FieldBytes {
            field: nameless(alloc, field),
        }),
        Expr::Element { field, index } => folded_element(alloc, field, index),
        Expr::Length { field } => Ok(Expr::Length {
            field: nameless(alloc, field),
        }),
        Expr::Prefix { op, of } => folded_prefix(alloc, *op, of),
        Expr::Cast { to, of } => folded_cast(alloc, *to, of),
        Expr::Chain { first, rest } => folded_chain(alloc, first, rest.as_slice()),
        Expr::Choice { test, yes, no } => folded_choice(alloc, test, yes, no),
        Expr::Flags {
            value,
            between,
            entries,
        } => folded_flags(alloc, value, between.as_bytes(), entries.as_slice()),
        Expr::Symbolic { value, entries } => folded_symbolic(alloc, value, entries.as_slice()),
        Expr::Hex { bytes, count } => folded_hex(alloc, bytes, count),
        Expr::Array { bytes, count, size } => folded_array(alloc, bytes, count, size),
    }
}

/// A tree that is the same number, text or bytes over every record, in which the parts that read none are written out.
///
/// # Errors
///
/// Want of memory alone.
#[tactic(auto, using(crate::proofs::Folds::folded_same, crate::proofs::Folds::folded_written, crate::proofs::Folds::folded_parts))]
pub fn folded(alloc: Global, expr: &Expr) -> Result<Expr, AllocError>
    // It is the same over every record.
    ensures same { IfOk result (λ e. IsSame (tree_of e) (tree_of expr.now)) }
    // A number that reads no record is written out.
    ensures written { IfOk result (λ e. is_constant (tree_of expr.now) ≡ true → is_written (tree_of e) ≡ true) }
    // So is each part of it that is such a number, at any depth.
    ensures parts { IfOk result (λ e. EachPart IsNoneLeft (tree_of e)) }
{
    folded_tree(alloc, expr)
}
