//! The numbers of trees, by one recursion: the plain reading of the definition.

ghost use Rattle.std.specs.Prelude.{◌≡◌};
ghost use Rattle.fmt_eval.specs.NumView.{num_view};
ghost use Rattle.fmt_eval.specs.Values.{given, nothing, chosen, number_of, folded};
ghost use Rattle.fmt_expr.specs.TreeView.{tree_of, operands_of};

use crate::cast::cast;
use crate::field::{element, field_number, length_of};
use crate::num::Num;
use crate::operators::{applied, common, prefixed};
use fmt_expr::{CKind, Expr, Operand};
use trace_base::Rec;

/// The number 0 of kind I32.
fn nothing() -> Num
    ensures { num_view result ≡ nothing }
{
    Num {
        bits: 0,
        kind: CKind::I32,
    }
}

fn chosen(holds: bool, a: Num, b: Num) -> Num
    ensures { num_view result ≡ chosen holds (num_view a) (num_view b) }
{
    let exact = if holds { a.exact() } else { b.exact() };
    Num::reduced(common(a.kind, b.kind), exact)
}

/// The number that a tree is over a record; 0 of kind I32 where it is a text or bytes.
#[cycle(walk)]
#[tactic(auto, using(crate::proofs::Rows::operands_row))]
pub fn number(expr: &Expr, rec: &Rec<'_>) -> Num
    ensures { num_view result ≡ number_of (given rec.now) (tree_of expr.now) }
{
    match expr {
        Expr::Number { bits, kind } => Num {
            bits: *bits,
            kind: *kind,
        },
        Expr::FieldNumber { field } => field_number(rec, field),
        Expr::Element { field, index } => element(rec, field, number(index, rec).exact()),
        Expr::Length { field } => length_of(rec, field),
        Expr::Prefix { op, of } => prefixed(*op, number(of, rec)),
        Expr::Cast { to, of } => cast(*to, number(of, rec)),
        Expr::Chain { first, rest } => folded(operand_number(first, rec), rest.as_slice(), rec),
        // The kind is that of both arms, so both have their values; neither has an effect.
        Expr::Choice { test, yes, no } => {
            let holds = number(test, rec).is_true();
            chosen(holds, number(yes, rec), number(no, rec))
        }
        Expr::Literal { .. }
        | Expr::FieldText { .. }
        | Expr::FieldBytes { .. }
        | Expr::Flags { .. }
        | Expr::Symbolic { .. }
        | Expr::Hex { .. }
        | Expr::Array { .. } => nothing(),
    }
}

/// The number of an operand or a mask. Most are written out, which needs no call.
#[inline(always)]
#[cycle(walk)]
pub(crate) fn operand_number(expr: &Expr, rec: &Rec<'_>) -> Num
    ensures { num_view result ≡ number_of (given rec.now) (tree_of expr.now) }
{
    match expr {
        Expr::Number { bits, kind } => Num {
            bits: *bits,
            kind: *kind,
        },
        _ => number(expr, rec),
    }
}

/// A number with the operators of one level after it.
#[cycle(walk)]
fn folded(first: Num, rest: &[Operand], rec: &Rec<'_>) -> Num
    ensures { num_view result ≡ folded (given rec.now) (num_view first) (operands_of rest.now) }
{
    let mut total = first;
    for operand in rest {
        total = applied(operand.op, total, operand_number(&operand.value, rec));
    }
    total
}
