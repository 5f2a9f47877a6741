//! Laws that join the definitions.

ghost use Rattle.std.specs.Prelude.{◌≡◌, ℤ};
ghost use Rattle.fmt_literal.specs.declared.ckind.CKind.{CKind};
ghost use Rattle.fmt_expr.specs.Tree.{Tree};
ghost use Rattle.fmt_expr.specs.Kinds.{kind_of};
ghost use Rattle.fmt_expr.specs.declared.kinds.Kind.TheVariants as kinds;
ghost use Rattle.fmt_eval.specs.Numbers.{IsReduced, reduced};
ghost use Rattle.fmt_eval.specs.Values.{RecData, number_of};
ghost use Rattle.fmt_eval.specs.Bytes.{bytes_of};
ghost use Rattle.fmt_eval.specs.Texts.{text_of};
ghost use Rattle.fmt_eval.specs.Value.{a_number, a_text, some_bytes, value_of};

/// What a kind leaves of a number is a number of that kind that differs from it by a multiple of two to the width.
pub fn reduced_is()
    ensures { (kind : CKind) (z : ℤ) → IsReduced kind z (reduced kind z) }
{}

/// There is one such number.
pub fn one_reduced()
    ensures { (kind : CKind) (z r s : ℤ) → IsReduced kind z r → IsReduced kind z s → r ≡ s }
{}

/// The value of a tree is its number, its text or its bytes, by its kind.
pub fn values_by_kind()
    ensures numbers { (g : RecData) (t : Tree) → kind_of t ≡ kinds.Number → value_of g t ≡ a_number (number_of g t) }
    ensures texts { (g : RecData) (t : Tree) → kind_of t ≡ kinds.Text → value_of g t ≡ a_text (text_of g t) }
    ensures bytes { (g : RecData) (t : Tree) → kind_of t ≡ kinds.Bytes → value_of g t ≡ some_bytes (bytes_of g t) }
{}
