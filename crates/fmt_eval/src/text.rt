//! The texts of trees.

ghost use Rattle.std.specs.Prelude.{◌≡◌};
ghost use Rattle.trace_base.specs.Kept.{put};
ghost use Rattle.trace_base.specs.TailView.{kept, lent};
ghost use Rattle.fmt_expr.specs.TreeView.{tree_of};
ghost use Rattle.fmt_eval.specs.Values.{given};
ghost use Rattle.fmt_eval.specs.Texts.{text_of};

use crate::array::{put_array, put_hex};
use crate::eval::number;
use crate::field_bytes::bytes;
use crate::flags::{put_flags, put_symbol};
use crate::short::{holds, quick_number};
use fmt_expr::Expr;
use trace_base::{Rec, Tail, bytes_of, until_nul};

/// Puts the text that a tree is over a record; nothing where it is a number or bytes.
#[tactic(auto, using(trace_base::proofs::TailJoins::put_nothing))]
pub fn put_text(expr: &Expr, rec: &Rec<'_>, into: &mut Tail<'_>)
    ensures same_slice { lent into.new ≡ lent into.old }
    ensures value { kept into.new ≡ put (kept into.old) (text_of (given rec.now) (tree_of expr.now)) }
{
    match expr {
        Expr::Literal { text } => into.put(text.as_bytes()),
        Expr::FieldText { field } => into.put(until_nul(bytes_of(rec, field))),
        Expr::Cast { of, .. } => put_text(of, rec, into),
        Expr::Choice { test, yes, no } => {
            if holds(test, rec) {
                put_text(yes, rec, into);
            } else {
                put_text(no, rec, into);
            }
        }
        Expr::Flags {
            value,
            between,
            entries,
        } => {
            let value = quick_number(value, rec).pattern();
            put_flags(value, between.as_bytes(), entries.as_slice(), rec, into);
        }
        Expr::Symbolic { value, entries } => {
            put_symbol(
                quick_number(value, rec).pattern(),
                entries.as_slice(),
                rec,
                into,
            );
        }
        Expr::Hex { bytes: of, count } => put_hex(number(count, rec).exact(), bytes(of, rec), into),
        Expr::Array {
            bytes: of,
            count,
            size,
        } => {
            let count = number(count, rec).exact();
            let size = number(size, rec).exact();
            put_array(rec.order, count, size, bytes(of, rec), into);
        }
        Expr::Number { .. }
        | Expr::FieldNumber { .. }
        | Expr::FieldBytes { .. }
        | Expr::Element { .. }
        | Expr::Length { .. }
        | Expr::Prefix { .. }
        | Expr::Chain { .. } => {}
    }
}
