//! Laws of the tokens and of the numbers among them.

ghost use Rattle.std.specs.Prelude.{◌≡◌, ◌↔◌, ◌^◌, ◌<◌, List, ℕ, length};
ghost use Rattle.fmt_lexer.specs.declared.number.Base.{Base};
ghost use Rattle.fmt_lexer.specs.declared.token.Token.{Token};
ghost use Rattle.fmt_lexer.specs.Number.{IsNumber};
ghost use Rattle.fmt_lexer.specs.Tokens.{AreTokens};
ghost use Rattle.fmt_lexer.specs.Reading.{tokens_of, number_parts};

/// A text has at most one row of tokens.
pub fn one_row()
    ensures { (text : List ℕ) (ts us : List Token) →
        AreTokens text ts → AreTokens text us → ts ≡ us }
{}

/// The row that is computed is the one that the text has.
pub fn computed_row()
    ensures { (text : List ℕ) (ts : List Token) →
        (tokens_of text ≡ Some ts) ↔ (AreTokens text ts × (length text < 2 ^ 32)) }
{}

/// A number is in one base, with one division into digits and suffix.
pub fn one_number()
    ensures { (bytes : List ℕ) (a b : Base) (d e s t : List ℕ) →
        IsNumber bytes a d s → IsNumber bytes b e t → (a ≡ b) × (d ≡ e) × (s ≡ t) }
{}

/// The parts that are computed are those of the number.
pub fn computed_number()
    ensures { (bytes : List ℕ) (base : Base) (digits suffix : List ℕ) →
        (number_parts bytes ≡ Some (base, digits, suffix)) ↔ IsNumber bytes base digits suffix }
{}
