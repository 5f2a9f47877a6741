//! Laws of print fmts.

ghost use Rattle.std.specs.Prelude.{◌≡◌, ◌↔◌, Some};
ghost use Rattle.fmt_expr.specs.Source.{Source};
ghost use Rattle.fmt_expr.specs.Parsing.{FmtData, fmt_in};
ghost use Rattle.fmt_expr.specs.Derivation.{IsFmtOf};

/// Tokens are at most one print fmt.
pub fn one_fmt()
    ensures { (s : Source) (f g : FmtData) → IsFmtOf s f → IsFmtOf s g → f ≡ g }
{}

/// The print fmt that is computed is the one that the tokens are.
pub fn computed_fmt()
    ensures { (s : Source) (f : FmtData) → (fmt_in s ≡ Some f) ↔ IsFmtOf s f }
{}
