ghost use Rattle.std.specs.Prelude.{◌≡◌};
ghost use Rattle.split_pieces.specs.Cuts.{is_apart};

use word_values::{Moment, PieceUnit};

/// What a split does with its lists.
#[derive(Clone, Copy, Debug, PartialEq, Eq)]
pub struct Rules {
    /// How much of a list one file takes: everything, the items with a key below that of the first one and so many
    /// nanoseconds, or the items up to and including so many events; losses do not count.
    pub unit: PieceUnit,
    /// Files are made while an item is left.
    pub repeat: bool,
    /// Each processor's items are cut by themselves, where there is a unit.
    pub per_cpu: bool,
    /// Items before it are left out.
    pub start: Option<Moment>,
    /// Items past it are left out, with all that follows them.
    pub stop: Option<Moment>,
}

impl Rules {
    /// Whether each processor's items are a list of their own.
    pub fn is_apart(&self) -> bool
        ensures { result ≡ is_apart self.now }
    {
        self.per_cpu && self.unit != PieceUnit::All
    }
}
