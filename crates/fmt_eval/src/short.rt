//! Trees of one field of four or eight bytes, whose numbers need no walk: most tests, flags, states and addresses are such.

ghost use Rattle.std.specs.Prelude.{◌≡◌, IfSome};
ghost use Rattle.fmt_eval.specs.Numbers.{is_true};
ghost use Rattle.fmt_eval.specs.NumView.{num_view};
ghost use Rattle.fmt_eval.specs.Operators.{cast};
ghost use Rattle.fmt_eval.specs.Values.{given, number_of, folded};
ghost use Rattle.fmt_expr.specs.TreeView.{tree_of, operands_of};

use crate::cast::cast;
use crate::eval::number;
use crate::field::usual_number;
use crate::num::Num;
use crate::operators::{applied, bit_and};
use c_operators::BinaryOp;
use fmt_expr::{CastTo, Expr, Operand};
use trace_base::Rec;

/// The number of a field with one operator and a written number after it.
#[inline(always)]
#[tactic(auto, using(crate::proofs::Rows::operands_row))]
fn field_with(first: &Expr, rest: &[Operand], rec: &Rec<'_>) -> Option<Num>
    ensures { IfSome result (λ n. num_view n ≡ folded (given rec.now) (number_of (given rec.now) (tree_of first.now)) (operands_of rest.now)) }
{
    let Expr::FieldNumber { field } = first else {
        return None;
    };
    if rest.len() != 1 {
        return None;
    }
    let Expr::Number { bits, kind } = &rest[0].value else {
        return None;
    };
    let number = usual_number(rec, field)?;
    let operand = Num {
        bits: *bits,
        kind: *kind,
    };
    Some(match rest[0].op {
        // Most flags and states are masked.
        BinaryOp::BitAnd => bit_and(number, operand),
        op => applied(op, number, operand),
    })
}

/// The number of a field under a cast, as addresses have.
#[inline(always)]
fn field_as(to: CastTo, of: &Expr, rec: &Rec<'_>) -> Option<Num>
    ensures { IfSome result (λ n. num_view n ≡ cast to (number_of (given rec.now) (tree_of of.now))) }
{
    match of {
        Expr::FieldNumber { field } => Some(cast(to, usual_number(rec, field)?)),
        _ => None,
    }
}

/// The number of a tree of one field with at most one operator or cast; none of any other tree.
#[inline(always)]
fn short(expr: &Expr, rec: &Rec<'_>) -> Option<Num>
    ensures { IfSome result (λ n. num_view n ≡ number_of (given rec.now) (tree_of expr.now)) }
{
    match expr {
        Expr::FieldNumber { field } => usual_number(rec, field),
        Expr::Cast { to, of } => field_as(*to, of, rec),
        Expr::Chain { first, rest } => field_with(first, rest.as_slice(), rec),
        _ => None,
    }
}

/// The number of a tree, with a walk only where it is not short.
#[inline(never)]
pub(crate) fn quick_number(expr: &Expr, rec: &Rec<'_>) -> Num
    ensures { num_view result ≡ number_of (given rec.now) (tree_of expr.now) }
{
    match short(expr, rec) {
        Some(number) => number,
        None => number(expr, rec),
    }
}

/// Whether the number of a tree is not 0.
#[inline(always)]
pub fn holds(expr: &Expr, rec: &Rec<'_>) -> bool
    ensures { result ≡ is_true (number_of (given rec.now) (tree_of expr.now)) }
{
    match short(expr, rec) {
        Some(number) => number.is_true(),
        None => number(expr, rec).is_true(),
    }
}
