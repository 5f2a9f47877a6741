//! Laws of this crate's definitions. Each is the contract of a function that does nothing.

ghost use Rattle.std.specs.Prelude.{◌≡◌, ℕ, List, Option};
ghost use Rattle.call_pairs.specs.declared.graph_item.GraphEvent.{GraphEvent};
ghost use Rattle.call_pairs.specs.declared.graph_item.GraphItem.{GraphItem};
ghost use Rattle.call_pairs.specs.Pairs.{IsPair};
ghost use Rattle.call_pairs.specs.Calls.{calls_of};
ghost use Rattle.call_pairs.specs.Lists.{IsTold};

/// The list that is computed is the one that the pairs of places tell.
pub fn told_calls()
    ensures { (seen : List GraphItem) → IsTold seen (calls_of seen) }
{}

/// Each entry and each exit is in at most one pair.
pub fn one_pair()
    ensures one_entry { (seen : List GraphItem) (i k j : ℕ) (e f x y : GraphEvent) (d1 d2 : Option ℕ)
        → IsPair seen i j e x d1 → IsPair seen k j f y d2 → i ≡ k }
    ensures one_exit { (seen : List GraphItem) (i j k : ℕ) (e f x y : GraphEvent) (d1 d2 : Option ℕ)
        → IsPair seen i j e x d1 → IsPair seen i k f y d2 → j ≡ k }
    ensures not_both { (seen : List GraphItem) (i j k : ℕ) (e f x y : GraphEvent) (d1 d2 : Option ℕ)
        → IsPair seen i j e x d1 → IsPair seen j k f y d2 → ⊥ }
{}
