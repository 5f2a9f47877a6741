//! The bytes of trees.

ghost use Rattle.std.specs.Prelude.{◌≡◌};
ghost use Rattle.fmt_expr.specs.TreeView.{tree_of};
ghost use Rattle.fmt_eval.specs.Values.{given};
ghost use Rattle.fmt_eval.specs.Bytes.{bytes_of};

use crate::eval::number;
use fmt_expr::Expr;
use trace_base::{Rec, bytes_of};

/// The bytes that a tree is over a record: those of the whole field, also where it is a text. No bytes where the tree
/// is a number or another text.
pub fn bytes<'a>(expr: &Expr, rec: &Rec<'a>) -> &'a [u8]
    ensures { result.now ≡ bytes_of (given rec.now) (tree_of expr.now) }
{
    match expr {
        Expr::FieldText { field } | Expr::FieldBytes { field } => bytes_of(rec, field),
        Expr::Cast { of, .. } => bytes(of, rec),
        Expr::Choice { test, yes, no } => {
            if number(test, rec).is_true() {
                bytes(yes, rec)
            } else {
                bytes(no, rec)
            }
        }
        Expr::Number { .. }
        | Expr::Literal { .. }
        | Expr::FieldNumber { .. }
        | Expr::Element { .. }
        | Expr::Length { .. }
        | Expr::Prefix { .. }
        | Expr::Chain { .. }
        | Expr::Flags { .. }
        | Expr::Symbolic { .. }
        | Expr::Hex { .. }
        | Expr::Array { .. } => &[],
    }
}
