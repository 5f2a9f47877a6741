//! Laws of the filters.

ghost use Rattle.std.specs.Prelude.{◌≡◌, ◌↔◌, ◌⊎◌, ◌++◌, ◌-◌, ℕ, List, [], length, Ok, Err};
ghost use Rattle.filter_lang.specs.PlainToken.{PlainToken};
ghost use Rattle.filter_lang.specs.Filter.{FilterData};
ghost use Rattle.filter_lang.specs.Texts.{IsFilterText, RefusedText, TextGoesOn};
ghost use Rattle.filter_lang.specs.Grammar.{IsFilter, RefusedBefore};
ghost use Rattle.filter_lang.specs.FilterReading.{filter_in};
ghost use Rattle.filter_lang.specs.Reading.{reading};
ghost use Rattle.filter_lang.specs.ConditionReading.{found};

/// The filter that is computed is the one that the tokens are.
pub fn computed_filter()
    ensures { (ts : List PlainToken) (f : FilterData) → (filter_in ts ≡ found f []) ↔ IsFilter ts f }
{}

/// All tokens are a filter, or they are refused before some of them, and not both.
pub fn filter_or_refusal()
    ensures either { (ts : List PlainToken) → ((f : FilterData) × IsFilter ts f) ⊎ ((rs : List PlainToken) × RefusedBefore ts rs) }
    ensures not_both { (ts rs : List PlainToken) (f : FilterData) → IsFilter ts f → RefusedBefore ts rs → ⊥ }
    ensures one_place { (ts rs vs : List PlainToken) → RefusedBefore ts rs → RefusedBefore ts vs → rs ≡ vs }
{}

/// A text is a filter's, or is refused at a place, and not both, and at one place.
pub fn text_or_refusal()
    ensures either { (text : List ℕ) → ((f : FilterData) × IsFilterText text f) ⊎ ((rs : List ℕ) × RefusedText text rs) }
    ensures not_both { (text rs : List ℕ) (f : FilterData) → IsFilterText text f → RefusedText text rs → ⊥ }
    ensures one_place { (text rs vs : List ℕ) → RefusedText text rs → RefusedText text vs → rs ≡ vs }
{}

/// A text is that of at most one filter.
pub fn one_filter()
    ensures { (text : List ℕ) (f g : FilterData) → IsFilterText text f → IsFilterText text g → f ≡ g }
{}

/// The reading that is computed is the filter of the text, or the place where it is refused.
pub fn computed_reading()
    ensures filter { (text : List ℕ) (f : FilterData) → (reading text ≡ Ok f) ↔ IsFilterText text f }
    ensures refusal { (text rs : List ℕ) → RefusedText text rs → reading text ≡ Err (length text - length rs) }
{}

/// What stands before the place where a text is refused goes on: with a blank and some further text it is a filter's.
pub fn refused_text_goes_on()
    ensures { (text rs : List ℕ) → RefusedText text rs → (before : List ℕ) × (text ≡ before ++ rs) × TextGoesOn before }
{}
