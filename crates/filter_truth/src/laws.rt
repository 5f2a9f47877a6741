//! Laws of truth, binding and selection.

ghost use Rattle.std.specs.Prelude.{◌≡◌, ◌↔◌, true, ℕ, List, [], Option, slice_get};
ghost use Rattle.format_parse.specs.declared.format.EventFormat.{EventFormat};
ghost use Rattle.filter_lang.specs.Filter.{FilterData};
ghost use Rattle.filter_truth.specs.Naming.{EventData, holds_at};
ghost use Rattle.filter_truth.specs.BoundFilter.{bound_holds, bind_filter};
ghost use Rattle.filter_truth.specs.Selection.{UseData, AreShowing, filters_show};

/// Binding changes no truth.
pub fn binding_changes_no_truth()
    ensures { (f : FilterData) (formats : List EventFormat) (i : ℕ) (e : EventData) → bound_holds (bind_filter f formats) i e ≡ holds_at f (slice_get formats i) e }
{}

/// The filters show what the selection says.
pub fn shown_as_said()
    ensures value { (uses : List UseData) (format : Option EventFormat) (e : EventData) → (filters_show uses format e ≡ true) ↔ AreShowing uses format e }
    ensures no_filter { (format : Option EventFormat) (e : EventData) → filters_show [] format e ≡ true }
{}
