ghost use Rattle.std.specs.Prelude.{◌≡◌, ◌<◌, ℕ, List, length, map, All, IfOk, IfSome, IsTrue, OnErr, OnOk, false};
ghost use Rattle.std.specs.Option.{ForSome};
ghost use Rattle.trace_outside.specs.Causes.{HasCause};
ghost use Rattle.subpage.specs.Arrangement.{CpusRise};
ghost use Rattle.page_pool.specs.declared.lane.Lane.{Lane};
ghost use Rattle.event_cursor.specs.Standing.{Stands};
ghost use Rattle.time_merge.specs.LaneRows.{IsReady, next_of, parts_of};
ghost use Rattle.time_merge.specs.Loading.{LoadsLanes};
ghost use Rattle.time_merge.specs.Nexts.{HoldsNext, IsBest, IsLeastAt, IsNext};
ghost use Rattle.time_merge.specs.Reads.{HasStopped};

use crate::best::better;
use crate::ready::make_all_ready;
use event_cursor::head_key;
use page_pool::{Lane, LaneState};
use subpage::CutPlace;
use tournament_tree::SlotKey;
use trace_outside::{Failed, File};

/// What comes next of several lanes.
#[derive(Clone, Copy, Debug, PartialEq, Eq)]
pub enum Next {
    /// The head of this lane.
    Lane(usize),
    /// Nothing: all items were used up.
    Done,
    /// Nothing: the items end before this malformed sub-buffer.
    Malformed(CutPlace),
}

/// What comes next of a ready lane: the key of its head, or that of the last item before its malformed sub-buffer.
pub(crate) fn next_of(lane: &Lane) -> SlotKey
    ensures { result ≡ next_of lane.now }
{
    match lane.cursor.state {
        LaneState::Held => match head_key(lane) {
            Some(key) => SlotKey::At(key),
            None => SlotKey::Empty,
        },
        LaneState::Malformed => SlotKey::from_time(lane.cursor.high),
        LaneState::Fresh | LaneState::Ended => SlotKey::Empty,
    }
}

/// The lane of which the least comes next, and the first of several such.
fn least_of(lanes: &[Lane]) -> Option<usize>
    ensures least { IsLeastAt (map next_of lanes.now) result }
    ensures inside { IfSome result (λ i. i < length lanes.now) }
{
    let mut best = None;
    for i in 0..lanes.len() {
        best = better(best, i, next_of(&lanes[i]));
    }
    match best {
        Some((i, _)) => Some(i),
        None => None,
    }
}

/// Whether a lane stands before a malformed sub-buffer.
fn is_malformed(lane: &Lane) -> bool
    ensures yes { IsTrue result → lane.now.cursor.state ≡ LaneState.Malformed }
    ensures never { result ≡ false → lane.now.cursor.state ≡ LaneState.Malformed → ⊥ }
{
    match lane.cursor.state {
        LaneState::Malformed => true,
        LaneState::Fresh | LaneState::Held | LaneState::Ended => false,
    }
}

/// What comes next of ready lanes, of which this is the one whose next is least, if anything comes.
pub(crate) fn next_at(lanes: &[Lane], least: Option<usize>) -> Next
    requires rise { CpusRise (parts_of lanes.now) }
    requires ready { All IsReady lanes.now }
    requires least { IsLeastAt (map next_of lanes.now) least }
    requires inside { ForSome least (λ i. i < length lanes.now) }
    ensures holds { HoldsNext lanes.now result }
    ensures next { (bytes : List ℕ) → All (Stands bytes) lanes.now → IsNext bytes lanes.now result }
{
    match least {
        None => Next::Done,
        Some(i) => {
            if is_malformed(&lanes[i]) {
                Next::Malformed(CutPlace {
                    cpu: lanes[i].cpu,
                    page: lanes[i].cursor.next,
                })
            } else {
                Next::Lane(i)
            }
        }
    }
}

/// Makes the lanes ready, and tells what comes next of them: by key, then processor, the items before the least cut.
///
/// `Lane(i)` exactly where a reached item is left: it is the head of lane `i`. `Done` exactly where none is left and there
/// is no cut, `Malformed` exactly where none is left and there is one, with the sub-buffer of the least cut. It looks at
/// each lane once, and takes no memory.
///
/// # Errors
/// `Failed` where a read failed. The lanes are not to be used again then.
pub fn next_lane<F: File>(file: &mut F, lanes: &mut [Lane]) -> Result<Next, Failed>
    requires rise { CpusRise (parts_of lanes.old) }
    ensures loads { LoadsLanes F.File file.old file.new lanes.old lanes.new }
    ensures holds { IfOk result (HoldsNext lanes.new) }
    ensures ready { OnOk result (All IsReady lanes.new) }
    ensures next { IfOk result (λ next. IfSome (F.bytes file.old) (λ bytes.
        All (Stands bytes) lanes.old → IsNext bytes lanes.new next)) }
    ensures cause { HasCause (F.faults file.old) (F.faults file.new) result }
    ensures stops { OnErr result (HasStopped (F.size file.old) lanes.old lanes.new (F.reads file.old)
        (F.reads file.new)) }
{
    make_all_ready(file, lanes)?;
    Ok(next_at(lanes, least_of(lanes)))
}
