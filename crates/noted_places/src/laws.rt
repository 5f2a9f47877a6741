// What the definition says of a list, as the contract of a function that does nothing.

ghost use Rattle.std.specs.Prelude.{◌≡◌, ◌<◌, ◌%◌, ℕ, List, length, slice_index};
ghost use Rattle.noted_places.specs.Noted.{noted};

/// Of so many entries there is one for each remainder: it has the place of the last number with this remainder, and the list's
/// end exactly where no number has it.
pub fn last_of_equals()
    ensures count { (room : ℕ) (ns : List ℕ) → length (noted room ns) ≡ room }
    ensures last { (room : ℕ) (ns : List ℕ) (i : ℕ) → 0 < room → i < length ns
        → ((j : ℕ) → i < j → j < length ns → slice_index ns j % room ≡ slice_index ns i % room → ⊥)
        → slice_index (noted room ns) (slice_index ns i % room) ≡ i }
    ensures none { (room : ℕ) (ns : List ℕ) (remainder : ℕ) → remainder < room
        → ((j : ℕ) → j < length ns → slice_index ns j % room ≡ remainder → ⊥)
        → slice_index (noted room ns) remainder ≡ length ns }
    ensures some { (room : ℕ) (ns : List ℕ) (i : ℕ) → 0 < room → i < length ns
        → slice_index (noted room ns) (slice_index ns i % room) < length ns }
{}
