// What the definitions say of one another and of the lists in the code, each as the contract of a function that does nothing.

ghost use Rattle.std.specs.Prelude.{◌≡◌, ◌&&◌, ℕ, List, false, nat_lt};
ghost use Rattle.std.specs.List.{list_any, slice_index_or};
ghost use Rattle.word_values.specs.CpuList.{Range, is_in, members_below};
ghost use Rattle.word_values.specs.Listings.{listings};
ghost use Rattle.word_values.specs.Pieces.{piece_options};
ghost use Rattle.word_values.specs.Sections.{sections};

use crate::listing::Listing;
use crate::piece::PieceOption;
use crate::section::Section;

/// The set of some ranges has a number exactly where it lies below the limit and in one of the ranges.
pub fn members_of_ranges()
    ensures { (limit : ℕ) (ranges : List Range) (cpu : ℕ)
        → slice_index_or (members_below limit ranges) cpu false
        ≡ (nat_lt cpu limit && list_any (is_in cpu) ranges) }
{}

/// The lists of all options, lists and sections are those of the definitions.
pub fn whole_lists()
    ensures pieces { PieceOption.ALL ≡ piece_options }
    ensures listings { Listing.ALL ≡ listings }
    ensures sections { Section.ALL ≡ sections }
{}
