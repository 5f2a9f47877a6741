//! Laws of numbers, letters and texts: what is computed is what is spelled.

ghost use Rattle.std.specs.Prelude.{◌≡◌, ◌↔◌, List, ℕ, Some};
ghost use Rattle.fmt_literal.specs.declared.ckind.CKind.{CKind};
ghost use Rattle.fmt_literal.specs.Numeral.{IsNumeral, numeral_of};
ghost use Rattle.fmt_literal.specs.Quoted.{IsLetterOf, IsTextOf, letter_of, text_of};

/// The number that is computed is the one that is spelled, with its kind.
pub fn computed_number()
    ensures { (bytes : List ℕ) (long n : ℕ) (kind : CKind) →
        (numeral_of bytes long ≡ Some (n, kind)) ↔ IsNumeral bytes long n kind }
{}

/// The letter that is computed is the one that is spelled.
pub fn computed_letter()
    ensures { (bytes : List ℕ) (b : ℕ) → (letter_of bytes ≡ Some b) ↔ IsLetterOf bytes b }
{}

/// The text that is computed is the one that is spelled; each spelling is of one text.
pub fn computed_text()
    ensures { (bytes text : List ℕ) → (text_of bytes ≡ text) ↔ IsTextOf bytes text }
{}
