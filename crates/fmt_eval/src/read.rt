//! What is known of trees before any record is read: how a number is read, as most arguments of print fmts are, and how a test is made.

ghost use Rattle.std.specs.Prelude.{◌≡◌};
ghost use Rattle.fmt_eval.specs.NumView.{num_view};
ghost use Rattle.fmt_eval.specs.Numbers.{is_true};
ghost use Rattle.fmt_eval.specs.Reads.{ReadsAs, TestsAs, read_at, field_read, unsigned_read, cast_read, read_of, test_under, mask_test, operand_test, chain_test, test_of};
ghost use Rattle.fmt_eval.specs.Values.{given, number_of};
ghost use Rattle.fmt_expr.specs.TreeView.{tree_of, operands_of};

use crate::field::{half_at, whole_at};
use crate::num::Num;
use crate::operators::bit_and;
use crate::short::{holds, quick_number};
use c_operators::BinaryOp;
use fmt_expr::{CastTo, Expr, Operand};
use trace_base::{Field, FieldKind, Rec};

/// How a number is read.
#[derive(Clone, Copy)]
pub enum Read {
    /// From the four bytes at a place in the payload.
    Half { at: u32, signed: bool },
    /// From the eight bytes at a place in the payload.
    Whole { at: u32, signed: bool },
    /// By a walk over the tree.
    Walk,
}

/// How a number of so many bytes at a place is read.
fn read_at(at: u32, size: u32, signed: bool) -> Read
    ensures { result ≡ read_at at size signed }
{
    match size {
        4 => Read::Half { at, signed },
        8 => Read::Whole { at, signed },
        _ => Read::Walk,
    }
}

/// How the number of a field is read.
#[tactic(auto, using(crate::proofs::ReadLemmas::field_is))]
fn field_read(field: &Field) -> Read
    ensures { result ≡ field_read field.now }
{
    match field.kind {
        FieldKind::Number => read_at(field.offset, field.size, field.signed),
        FieldKind::Pointer => read_at(field.offset, field.size, false),
        FieldKind::Text | FieldKind::Bytes => Read::Walk,
    }
}

/// How a number is read under a cast to 64 bits without a sign.
fn unsigned_read(read: Read) -> Read
    ensures { result ≡ unsigned_read read }
{
    match read {
        Read::Whole { at, signed: false } => Read::Whole { at, signed: false },
        _ => Read::Walk,
    }
}

/// How a number is read under a cast.
fn cast_read(to: CastTo, read: Read) -> Read
    ensures { result ≡ cast_read to read }
{
    match to {
        CastTo::Same => read,
        CastTo::Bits {
            width: 64,
            signed: false,
        } => unsigned_read(read),
        _ => Read::Walk,
    }
}

fn tree_read(expr: &Expr) -> Read
    ensures { result ≡ read_of (tree_of expr.now) }
{
    match expr {
        Expr::FieldNumber { field } => field_read(field),
        Expr::Cast { to, of } => cast_read(*to, tree_read(of)),
        _ => Read::Walk,
    }
}

/// How the number of a tree is read: at once where it is that of a field of four or eight bytes, also under casts that change none.
#[tactic(auto, using(crate::proofs::ReadLemmas::reads_as))]
pub fn read_of(expr: &Expr) -> Read
    // What is read is the number, over every record.
    ensures reads { ReadsAs result (tree_of expr.now) }
    ensures found { result ≡ read_of (tree_of expr.now) }
{
    tree_read(expr)
}

/// The number that a tree is over a record, as it is read.
#[inline(always)]
pub fn number_by(read: Read, expr: &Expr, rec: &Rec<'_>) -> Num
    requires { ReadsAs read (tree_of expr.now) }
    ensures { num_view result ≡ number_of (given rec.now) (tree_of expr.now) }
{
    match read {
        Read::Half { at, signed } => half_at(rec, at, signed),
        Read::Whole { at, signed } => whole_at(rec, at, signed),
        Read::Walk => quick_number(expr, rec),
    }
}

/// How a test is made, where it looks at bits of one field.
#[derive(Clone, Copy)]
pub enum Test {
    /// Four bytes at a place in the payload, under a mask.
    Half { at: u32, signed: bool, mask: Num },
    /// Eight bytes at a place in the payload, under a mask.
    Whole { at: u32, signed: bool, mask: Num },
    /// By a walk over the tree.
    Walk,
}

/// How a test of a number under a mask is made.
fn test_under(read: Read, mask: Num) -> Test
    ensures { result ≡ test_under read mask }
{
    match read {
        Read::Half { at, signed } => Test::Half { at, signed, mask },
        Read::Whole { at, signed } => Test::Whole { at, signed, mask },
        Read::Walk => Test::Walk,
    }
}

/// How a test of a number under what may be a mask is made.
fn mask_test(read: Read, mask: &Expr) -> Test
    ensures { result ≡ mask_test read (tree_of mask.now) }
{
    match mask {
        Expr::Number { bits, kind } => test_under(
            read,
            Num {
                bits: *bits,
                kind: *kind,
            },
        ),
        _ => Test::Walk,
    }
}

/// How a test of a number with an operator after it is made.
fn operand_test(read: Read, operand: &Operand) -> Test
    ensures { result ≡ operand_test read operand.now.op (tree_of operand.now.value) }
{
    match operand.op {
        BinaryOp::BitAnd => mask_test(read, &operand.value),
        _ => Test::Walk,
    }
}

/// How a test of a number with operators after it is made.
#[tactic(auto, using(crate::proofs::ReadLemmas::no_mask, crate::proofs::ReadLemmas::one_mask))]
fn chain_test(read: Read, rest: &[Operand]) -> Test
    ensures { result ≡ chain_test read (operands_of rest.now) }
{
    if rest.len() != 1 {
        return Test::Walk;
    }
    operand_test(read, &rest[0])
}

fn tree_test(expr: &Expr) -> Test
    ensures { result ≡ test_of (tree_of expr.now) }
{
    match expr {
        Expr::Chain { first, rest } => chain_test(tree_read(first), rest.as_slice()),
        _ => Test::Walk,
    }
}

/// How a test is made: at once where a number that is read at once stands under one mask.
#[tactic(auto, using(crate::proofs::ReadLemmas::tests_as))]
pub fn test_of(expr: &Expr) -> Test
    // What is tested is whether the number is not 0, over every record.
    ensures tests { TestsAs result (tree_of expr.now) }
    ensures found { result ≡ test_of (tree_of expr.now) }
{
    tree_test(expr)
}

/// Whether the number of a tree is not 0, by the test that is made of it.
#[inline(always)]
pub fn holds_by(test: Test, expr: &Expr, rec: &Rec<'_>) -> bool
    requires { TestsAs test (tree_of expr.now) }
    ensures { result ≡ is_true (number_of (given rec.now) (tree_of expr.now)) }
{
    match test {
        Test::Half { at, signed, mask } => bit_and(half_at(rec, at, signed), mask).is_true(),
        Test::Whole { at, signed, mask } => bit_and(whole_at(rec, at, signed), mask).is_true(),
        Test::Walk => holds(expr, rec),
    }
}
