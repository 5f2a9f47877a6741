//! Trees made from their parts.

ghost use Rattle.std.specs.Prelude.{◌≡◌};
ghost use Rattle.fmt_expr.specs.Tree.{chain, flags, symbolic};
ghost use Rattle.fmt_expr.specs.TreeView.{tree_of, operands_of, entries_of};
ghost use Rattle.fmt_fold.specs.Same.{nameless};

use fmt_expr::{Entry, Expr, Operand};
use std::alloc::Global;
use trace_base::{ByteText, Field};

/// A field without its name, on which no value depends; no memory is taken.
pub fn nameless(alloc: Global, field: &Field) -> Field
    ensures { result ≡ nameless field.now }
{
    Field {
        name: ByteText::from_vec(Vec::new(alloc)),
        offset: field.offset,
        size: field.size,
        signed: field.signed,
        kind: field.kind,
        place: field.place,
        element: field.element,
    }
}

/// The operators of one level.
pub fn chained(first: Box<Expr>, rest: Vec<Operand>) -> Expr
    ensures { tree_of result ≡ chain (tree_of first.value) (operands_of rest.items) }
{
    Expr::Chain { first, rest }
}

/// The texts of a value's flags.
pub fn flagged(value: Box<Expr>, between: ByteText, entries: Vec<Entry>) -> Expr
    ensures { tree_of result ≡ flags (tree_of value.value) between (entries_of entries.items) }
{
    Expr::Flags {
        value,
        between,
        entries,
    }
}

/// The text of a value.
pub fn named(value: Box<Expr>, entries: Vec<Entry>) -> Expr
    ensures { tree_of result ≡ symbolic (tree_of value.value) (entries_of entries.items) }
{
    Expr::Symbolic { value, entries }
}
