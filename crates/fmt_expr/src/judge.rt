//! The kind of a tree.

ghost use Rattle.std.specs.Prelude.{◌≡◌};
ghost use Rattle.fmt_expr.specs.Kinds.{kind_of, is_number, is_alike, is_field_text, has_bytes};
ghost use Rattle.fmt_expr.specs.TreeView.{tree_of};

use crate::expr::Expr;
use crate::kinds::Kind;

/// What a tree gives.
pub fn kind(expr: &Expr) -> Kind
    ensures { result ≡ kind_of (tree_of expr.now) }
{
    match expr {
        Expr::Number { .. }
        | Expr::FieldNumber { .. }
        | Expr::Element { .. }
        | Expr::Length { .. }
        | Expr::Prefix { .. }
        | Expr::Chain { .. } => Kind::Number,
        Expr::Literal { .. }
        | Expr::FieldText { .. }
        | Expr::Flags { .. }
        | Expr::Symbolic { .. }
        | Expr::Hex { .. }
        | Expr::Array { .. } => Kind::Text,
        Expr::FieldBytes { .. } => Kind::Bytes,
        Expr::Cast { of, .. } => kind(of),
        Expr::Choice { yes, .. } => kind(yes),
    }
}

/// Whether a tree gives a number.
pub fn is_number(expr: &Expr) -> bool
    ensures { result ≡ is_number (tree_of expr.now) }
{
    kind(expr) == Kind::Number
}

/// Whether two trees give the same kind.
pub fn is_alike(one: &Expr, other: &Expr) -> bool
    ensures { result ≡ is_alike (tree_of one.now) (tree_of other.now) }
{
    kind(one) == kind(other)
}

/// Whether a tree is the text of a field, which casts leave as it is.
fn is_field_text(expr: &Expr) -> bool
    ensures { result ≡ is_field_text (tree_of expr.now) }
{
    match expr {
        Expr::FieldText { .. } => true,
        Expr::Cast { of, .. } => is_field_text(of),
        _ => false,
    }
}

/// Whether a tree has bytes to print one by one: it gives bytes, or is the text of a field.
pub fn has_bytes(expr: &Expr) -> bool
    ensures { result ≡ has_bytes (tree_of expr.now) }
{
    kind(expr) == Kind::Bytes || is_field_text(expr)
}
