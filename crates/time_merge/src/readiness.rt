ghost use Rattle.std.specs.Prelude.{List};
ghost use Rattle.tournament_tree.specs.declared.slot_key.SlotKey.{SlotKey};
ghost use Rattle.page_pool.specs.declared.lane.Lane.{Lane};
ghost use Rattle.time_merge.specs.Nexts.{IsInStep};
ghost use Rattle.time_merge.specs.Readiness.{AreKnown};

/// Of which lanes it is known what comes next.
#[derive(Clone, Copy, Debug, PartialEq, Eq)]
pub enum Readiness {
    /// Of none: they were not made ready yet, or a read failed.
    Unready,
    /// Of all but this one, of which an item was used up.
    AllBut(usize),
    /// Of all: they are ready.
    Ready,
}

impl Readiness {
    /// The lane of which an item was used up, where the others are ready.
    pub(crate) fn used(self) -> Option<usize>
        ensures { (lanes : List Lane) (keys : List SlotKey) → AreKnown lanes keys self
            → IsInStep lanes keys result }
    {
        match self {
            Readiness::AllBut(i) => Some(i),
            Readiness::Unready | Readiness::Ready => None,
        }
    }
}
