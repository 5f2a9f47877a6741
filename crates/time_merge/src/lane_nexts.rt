ghost use Rattle.std.specs.Prelude.{◌≡◌, ℕ, List, All, length, map};
ghost use Rattle.subpage.specs.Arrangement.{CpusRise};
ghost use Rattle.event_cursor.specs.Standing.{Stands};
ghost use Rattle.time_merge.specs.LaneNexts.{HoldsLaneNext, IsLaneNext};
ghost use Rattle.time_merge.specs.LaneRows.{IsReady, next_of, parts_of};

use page_pool::{Lane, LaneState};
use tournament_tree::TournamentTree;

/// What comes next of ready lanes.
#[derive(Clone, Copy, Debug, PartialEq, Eq)]
pub enum LaneNext {
    /// The head of this lane.
    Item(usize),
    /// Nothing: the items end before the malformed sub-buffer before which this lane stands.
    Cut(usize),
    /// Nothing: all items were used up.
    Done,
}

/// What comes next of ready lanes, by a tree that is in step with them.
pub(crate) fn lane_next(lanes: &[Lane], nexts: &TournamentTree) -> LaneNext
    requires rise { CpusRise (parts_of lanes.now) }
    requires slots { length nexts.now ≡ length lanes.now }
    requires ready { All IsReady lanes.now }
    requires nexts { nexts.now ≡ map next_of lanes.now }
    ensures holds { HoldsLaneNext lanes.now result }
    ensures next { (file : List ℕ) → All (Stands file) lanes.now → IsLaneNext file lanes.now result }
{
    let Some(i) = nexts.least() else {
        return LaneNext::Done;
    };
    match lanes[i].cursor.state {
        LaneState::Malformed => LaneNext::Cut(i),
        LaneState::Fresh | LaneState::Held | LaneState::Ended => LaneNext::Item(i),
    }
}
