//! Laws of this crate's definitions. Each is the contract of a function that does nothing.

ghost use Rattle.std.specs.Prelude.{◌≡◌, ◌∷◌, ℕ, List};
ghost use Rattle.wakeup_pairs.specs.declared.wakeup_item.WakeupItem.{WakeupItem};
ghost use Rattle.wakeup_pairs.specs.declared.wakeup_item.Pair.{Pair};
ghost use Rattle.wakeup_pairs.specs.Figures.{IsLongest, IsShortest, longest, shortest};
ghost use Rattle.wakeup_pairs.specs.Gathered.{gathered};
ghost use Rattle.wakeup_pairs.specs.Pairs.{ArePairs, IsPaired};

/// A switch is paired with one wake-up at most, and a wake-up with one switch at most.
pub fn one_partner()
    ensures wake { (xs : List WakeupItem) (i : ℕ) (h : ℕ) (j : ℕ) → IsPaired xs i j → IsPaired xs h j → i ≡ h }
    ensures switch { (xs : List WakeupItem) (i : ℕ) (j : ℕ) (k : ℕ) → IsPaired xs i j → IsPaired xs i k → j ≡ k }
{}

/// One pass finds the pairs, and there is no other list of them.
pub fn pairs_of_pass()
    ensures pass { (xs : List WakeupItem) → ArePairs xs (gathered xs).pairs }
    ensures one { (xs : List WakeupItem) (pairs : List Pair) (others : List Pair) → ArePairs xs pairs → ArePairs xs others
        → pairs ≡ others }
{}

/// The longest wait that is computed is the longest, and of several the first; likewise the shortest.
pub fn extremes()
    ensures longest { (first : Pair) (rest : List Pair) → IsLongest (first ∷ rest) (longest first rest) }
    ensures shortest { (first : Pair) (rest : List Pair) → IsShortest (first ∷ rest) (shortest first rest) }
{}
