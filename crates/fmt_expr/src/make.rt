//! Trees made from their parts.

ghost use Rattle.std.specs.Prelude.{◌≡◌, IfOk};
ghost use Rattle.fmt_expr.specs.Tree.{number, literal, prefix, cast, element, chain, choice, flags, symbolic, hex, array};
ghost use Rattle.fmt_expr.specs.TreeView.{tree_of, operands_of, entries_of};

use crate::expr::{Entry, Expr, Operand, PrefixOp};
use fmt_literal::{CKind, CastTo};
use std::alloc::{AllocError, Global};
use trace_base::{ByteText, Field};

/// A number that is written out.
pub fn numbered(alloc: Global, bits: u64, kind: CKind) -> Result<Box<Expr>, AllocError>
    ensures { IfOk result (λ e. tree_of e.value ≡ number bits kind) }
{
    Ok(Box::new(alloc, Expr::Number { bits, kind })?)
}

/// A text that is written out.
pub fn literal(alloc: Global, text: ByteText) -> Result<Box<Expr>, AllocError>
    ensures { IfOk result (λ e. tree_of e.value ≡ literal text) }
{
    Ok(Box::new(alloc, Expr::Literal { text })?)
}

/// An operator before its operand.
pub fn prefixed(alloc: Global, op: PrefixOp, of: Box<Expr>) -> Result<Box<Expr>, AllocError>
    ensures { IfOk result (λ e. tree_of e.value ≡ prefix op (tree_of of.value)) }
{
    Ok(Box::new(alloc, Expr::Prefix { op, of })?)
}

/// The operators of one level.
pub fn chained(alloc: Global, first: Box<Expr>, rest: Vec<Operand>) -> Result<Box<Expr>, AllocError>
    ensures { IfOk result (λ e. tree_of e.value ≡ chain (tree_of first.value) (operands_of rest.items)) }
{
    Ok(Box::new(alloc, Expr::Chain { first, rest })?)
}

/// A conditional.
pub fn chosen(
    alloc: Global,
    test: Box<Expr>,
    yes: Box<Expr>,
    no: Box<Expr>,
) -> Result<Box<Expr>, AllocError>
    ensures { IfOk result (λ e. tree_of e.value ≡ choice (tree_of test.value) (tree_of yes.value) (tree_of no.value)) }
{
    Ok(Box::new(alloc, Expr::Choice { test, yes, no })?)
}

/// A cast.
pub fn casted(alloc: Global, to: CastTo, of: Box<Expr>) -> Result<Box<Expr>, AllocError>
    ensures { IfOk result (λ e. tree_of e.value ≡ cast to (tree_of of.value)) }
{
    Ok(Box::new(alloc, Expr::Cast { to, of })?)
}

/// An element of a field.
pub fn indexed(alloc: Global, field: Field, index: Box<Expr>) -> Result<Box<Expr>, AllocError>
    ensures { IfOk result (λ e. tree_of e.value ≡ element field (tree_of index.value)) }
{
    Ok(Box::new(alloc, Expr::Element { field, index })?)
}

/// The texts of a value's flags.
pub fn flagged(
    alloc: Global,
    value: Box<Expr>,
    between: ByteText,
    entries: Vec<Entry>,
) -> Result<Box<Expr>, AllocError>
    ensures { IfOk result (λ e. tree_of e.value ≡ flags (tree_of value.value) between (entries_of entries.items)) }
{
    Ok(Box::new(
        alloc,
        Expr::Flags {
            value,
            between,
            entries,
        },
    )?)
}

/// The text of a value.
pub fn named(alloc: Global, value: Box<Expr>, entries: Vec<Entry>) -> Result<Box<Expr>, AllocError>
    ensures { IfOk result (λ e. tree_of e.value ≡ symbolic (tree_of value.value) (entries_of entries.items)) }
{
    Ok(Box::new(alloc, Expr::Symbolic { value, entries })?)
}

/// Bytes as hexadecimal digits.
pub fn in_hex(alloc: Global, bytes: Box<Expr>, count: Box<Expr>) -> Result<Box<Expr>, AllocError>
    ensures { IfOk result (λ e. tree_of e.value ≡ hex (tree_of bytes.value) (tree_of count.value)) }
{
    Ok(Box::new(alloc, Expr::Hex { bytes, count })?)
}

/// Bytes as an array of numbers.
pub fn in_array(
    alloc: Global,
    bytes: Box<Expr>,
    count: Box<Expr>,
    size: Box<Expr>,
) -> Result<Box<Expr>, AllocError>
    ensures { IfOk result (λ e. tree_of e.value ≡ array (tree_of bytes.value) (tree_of count.value) (tree_of size.value)) }
{
    Ok(Box::new(alloc, Expr::Array { bytes, count, size })?)
}
