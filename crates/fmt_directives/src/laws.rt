//! Laws of the directives.

ghost use Rattle.std.specs.Prelude.{◌≡◌, ◌↔◌, List, ℕ, Some};
ghost use Rattle.fmt_directives.specs.declared.directive.Directive.{Directive};
ghost use Rattle.fmt_directives.specs.Directives.{IsPiece, AreDirectives};
ghost use Rattle.fmt_directives.specs.Reading.{first_directive, directives_of};

/// What is computed at the front of a text is what stands there.
pub fn computed_piece()
    ensures { (at : ℕ) (bytes : List ℕ) (d : Directive) (n : ℕ) →
        (first_directive at bytes ≡ Some (d, n)) ↔ IsPiece at bytes d n }
{}

/// A text has at most one row of directives.
pub fn one_row()
    ensures { (text : List ℕ) (ds es : List Directive) →
        AreDirectives text ds → AreDirectives text es → ds ≡ es }
{}

/// The row that is computed is the one that spells the text.
pub fn computed_directives()
    ensures { (text : List ℕ) (ds : List Directive) →
        (directives_of text ≡ Some ds) ↔ AreDirectives text ds }
{}
