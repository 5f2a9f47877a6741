//! Laws of the pieces. Each is the contract of a function that does nothing.

ghost use Rattle.std.specs.Prelude.{◌≡◌, ◌≢◌, ◌↔◌, ◌+◌, ◌<◌, true, false, Some, None, ℕ, List, [], ◌∷◌, ◌++◌, filter, length, map, nat_lt, slice_get, slice_index_or};
ghost use Rattle.std.specs.List.{flat_map};
ghost use Rattle.subpage.specs.Arrangement.{Keyed, IsRising, key_of};
ghost use Rattle.word_values.specs.declared.moment.Moment.{Moment};
ghost use Rattle.word_values.specs.declared.piece.PieceUnit.{PieceUnit};
ghost use Rattle.word_values.specs.declared.piece.PieceUnit.TheVariants.{All, Nanos, Events};
ghost use Rattle.split_pieces.specs.declared.rules.Rules.{Rules};
ghost use Rattle.split_pieces.specs.Examples.{at, lost, micros, nanos, by, five};
ghost use Rattle.split_pieces.specs.Pieces.{IsUnit, Pieces, piece, rest, left_in, from_start, files, is_closed, all_pieces, joined_lists, behind_start, piece_at, first_pieces};

/// A piece and what is left after it are the list, a first item is always taken, and by a time unit the piece is the
/// items below the limit.
pub fn parted()
    ensures whole { (unit : PieceUnit) (xs : List Keyed) → piece unit xs ++ rest unit xs ≡ xs }
    ensures first { (unit : PieceUnit) (x : Keyed) (xs : List Keyed) → IsUnit unit → piece unit (x ∷ xs) ≢ [] }
    ensures below { (n : ℕ) (x : Keyed) (xs : List Keyed) → IsRising key_of (x ∷ xs)
        → piece (Nanos n) (x ∷ xs) ≡ filter (λ y. nat_lt y.key (x.key + n)) (x ∷ xs) }
{}

/// There is one way to take pieces until nothing is left, and they are the whole list.
pub fn pieces_are_all()
    ensures pieces { (unit : PieceUnit) (xs : List Keyed) (pieces : List (List Keyed)) → IsUnit unit
        → Pieces unit xs pieces ↔ (all_pieces unit xs ≡ pieces) }
    ensures whole { (unit : PieceUnit) (xs : List Keyed) → IsUnit unit → flat_map (λ piece. piece) (all_pieces unit xs) ≡ xs }
{}

/// Where keys do not fall, the items before the start stand first.
pub fn starts()
    ensures { (moment : Moment) (xs : List Keyed) → IsRising key_of xs → from_start (Some moment) xs ≡ behind_start (Some moment) xs }
{}

/// With repetition the files of one list are its pieces, and joined they are what start and end leave.
pub fn files_of_one()
    ensures pieces { (rules : Rules) (x : Keyed) (xs ys : List Keyed) → IsUnit rules.unit → rules.repeat ≡ true → left_in rules ys ≡ x ∷ xs
        → files rules (ys ∷ []) ≡ all_pieces rules.unit (left_in rules ys) }
    ensures whole { (rules : Rules) (xs : List Keyed) → IsUnit rules.unit → rules.repeat ≡ true
        → joined_lists (files rules (xs ∷ [])) ≡ left_in rules xs }
{}

/// Of lists that are cut side by side each file takes the pieces of its own number, and with repetition the files use every
/// list up.
pub fn files_of_lists()
    ensures pieces { (rules : Rules) (lists : List (List Keyed)) (k : ℕ) (file : List Keyed) → slice_get (files rules lists) k ≡ Some file
        → file ≡ flat_map (piece_at rules.unit k) (map (left_in rules) lists) }
    ensures whole { (rules : Rules) (lists : List (List Keyed)) (i : ℕ) → IsUnit rules.unit → rules.repeat ≡ true → i < length lists
        → first_pieces rules.unit (length (files rules lists)) (left_in rules (slice_index_or lists i [])) ≡ left_in rules (slice_index_or lists i []) }
{}

/// Files of a list: what each takes, by unit, start and end.
pub fn rows()
    ensures twos { files (by (Events 2) true None None) (five ∷ [])
        ≡ (at 10 ∷ at 20 ∷ []) ∷ (at 30 ∷ at 40 ∷ []) ∷ (at 50 ∷ []) ∷ [] }
    ensures once { files (by (Events 2) false None None) (five ∷ []) ≡ (at 10 ∷ at 20 ∷ []) ∷ [] }
    ensures part { files (by (Events 2) true (nanos 20) (nanos 40)) (five ∷ [])
        ≡ (at 20 ∷ at 30 ∷ []) ∷ (at 40 ∷ []) ∷ [] }
    ensures end_is_in { files (by All false (nanos 20) (nanos 30)) (five ∷ []) ≡ (at 20 ∷ at 30 ∷ []) ∷ [] }
    ensures rounded { files (by All false (micros 1) None) ((at 499 ∷ at 500 ∷ []) ∷ []) ≡ (at 500 ∷ []) ∷ [] }
    ensures from_first { files (by (Nanos 20) true (nanos 15) None) (five ∷ []) ≡ (at 20 ∷ at 30 ∷ []) ∷ (at 40 ∷ at 50 ∷ []) ∷ [] }
    ensures behind { files (by (Events 1) true None None) ((at 10 ∷ lost 11 ∷ []) ∷ []) ≡ (at 10 ∷ []) ∷ (lost 11 ∷ []) ∷ [] }
    ensures beside { files (by (Events 1) true None None) ((at 10 ∷ at 40 ∷ []) ∷ (at 20 ∷ []) ∷ []) ≡ (at 10 ∷ at 20 ∷ []) ∷ (at 40 ∷ []) ∷ [] }
    ensures nothing { files (by (Events 1) true (nanos 60) None) (five ∷ []) ≡ [] ∷ [] }
    ensures start_after_end { files (by All false (nanos 40) (nanos 20)) (five ∷ []) ≡ [] ∷ [] }
{}

/// Lists that a split closes, and lists that it does not.
pub fn closed_rows()
    ensures taken { is_closed (by (Events 5) false None None) five ≡ true }
    ensures too_few { is_closed (by (Events 6) false None None) five ≡ false }
    ensures again { is_closed (by (Events 1) true None None) five ≡ false }
    ensures left { is_closed (by (Nanos 40) false None None) five ≡ true }
    ensures none_left { is_closed (by (Nanos 41) false None None) five ≡ false }
    ensures past { is_closed (by All true None (nanos 49)) five ≡ true }
    ensures at_end { is_closed (by All true None (nanos 50)) five ≡ false }
    ensures past_but_before_start { is_closed (by All true (nanos 60) (nanos 20)) five ≡ false }
{}
