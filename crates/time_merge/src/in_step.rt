ghost use Rattle.std.specs.Prelude.{◌≡◌, ℕ, List, length, map, All, IfOk, OnErr, OnOk, IfSome};
ghost use Rattle.trace_outside.specs.Causes.{HasCause};
ghost use Rattle.subpage.specs.Arrangement.{CpusRise};
ghost use Rattle.page_pool.specs.declared.lane.Lane.{Lane};
ghost use Rattle.event_cursor.specs.Standing.{Stands};
ghost use Rattle.time_merge.specs.LaneRows.{IsReady, next_of, parts_of};
ghost use Rattle.time_merge.specs.Loading.{LoadsLanes};
ghost use Rattle.time_merge.specs.Nexts.{HoldsNext, IsInStep, IsInStepBut, IsNext};
ghost use Rattle.time_merge.specs.Reads.{HasStopped};
ghost use Rattle.time_merge.specs.Turns.{HasTurn};

use crate::next_lanes::{Next, next_at, next_of};
use crate::ready::{make_all_ready, make_one_ready};
use page_pool::Lane;
use tournament_tree::TournamentTree;
use trace_outside::{Failed, File};

/// Brings a tree into step with ready lanes: each slot has what comes next of its lane.
fn take_nexts(lanes: &[Lane], nexts: &mut TournamentTree)
    requires slots { length nexts.old ≡ length lanes.now }
    ensures { nexts.new ≡ map next_of lanes.now }
{
    for i in 0..lanes.len() {
        nexts.set(i, next_of(&lanes[i]));
    }
}

/// What comes next of ready lanes.
fn next_in(lanes: &[Lane], nexts: &TournamentTree) -> Next
    requires rise { CpusRise (parts_of lanes.now) }
    requires ready { All IsReady lanes.now }
    requires nexts { nexts.now ≡ map next_of lanes.now }
    ensures holds { HoldsNext lanes.now result }
    ensures next { (bytes : List ℕ) → All (Stands bytes) lanes.now → IsNext bytes lanes.now result }
{
    next_at(lanes, nexts.least())
}

/// Makes every lane ready, and brings a tree into step with them. Where it was so but for one lane, of which an item was
/// used, it looks at that one alone.
///
/// # Errors
/// `Failed` where a read failed. The lanes are not to be used again then.
#[inline]
pub(crate) fn make_ready_by<F: File>(
    file: &mut F,
    lanes: &mut [Lane],
    nexts: &mut TournamentTree,
    used: Option<usize>,
) -> Result<(), Failed>
    requires slots { length nexts.old ≡ length lanes.old }
    requires in_step { IsInStep lanes.old nexts.old used }
    ensures loads { LoadsLanes F.File file.old file.new lanes.old lanes.new }
    ensures nexts { OnOk result (nexts.new ≡ map next_of lanes.new) }
    ensures slots { length nexts.new ≡ length nexts.old }
    ensures ready { OnOk result (All IsReady lanes.new) }
    ensures cause { HasCause (F.faults file.old) (F.faults file.new) result }
    ensures stops { OnErr result (HasStopped (F.size file.old) lanes.old lanes.new (F.reads file.old)
        (F.reads file.new)) }
{
    match used {
        None => {
            make_all_ready(file, lanes)?;
            take_nexts(lanes, nexts);
            Ok(())
        }
        Some(used) => {
            make_one_ready(file, lanes, used)?;
            nexts.set(used, next_of(&lanes[used]));
            Ok(())
        }
    }
}

/// What [`crate::next_lane`] tells, by a tree that is in step with the lanes: after the first call it looks at one lane
/// alone, however many there are.
///
/// `Lane(i)` exactly where a reached item is left: it is the head of lane `i`. `Done` exactly where none is left and there
/// is no cut, `Malformed` exactly where none is left and there is one, with the sub-buffer of the least cut.
/// `used` is the lane of which an item was used since the call before. It takes no memory.
///
/// # Errors
/// `Failed` where a read failed. The lanes are not to be used again then.
pub fn next_lane_by<F: File>(
    file: &mut F,
    lanes: &mut [Lane],
    nexts: &mut TournamentTree,
    used: Option<usize>,
) -> Result<Next, Failed>
    requires rise { CpusRise (parts_of lanes.old) }
    requires slots { length nexts.old ≡ length lanes.old }
    requires in_step { IsInStep lanes.old nexts.old used }
    ensures loads { LoadsLanes F.File file.old file.new lanes.old lanes.new }
    ensures nexts { OnOk result (nexts.new ≡ map next_of lanes.new) }
    ensures slots { length nexts.new ≡ length nexts.old }
    ensures holds { IfOk result (HoldsNext lanes.new) }
    ensures ready { OnOk result (All IsReady lanes.new) }
    ensures next { IfOk result (λ next. IfSome (F.bytes file.old) (λ bytes.
        All (Stands bytes) lanes.old → IsNext bytes lanes.new next)) }
    ensures cause { HasCause (F.faults file.old) (F.faults file.new) result }
    ensures stops { OnErr result (HasStopped (F.size file.old) lanes.old lanes.new (F.reads file.old)
        (F.reads file.new)) }
{
    make_ready_by(file, lanes, nexts, used)?;
    Ok(next_in(lanes, nexts))
}

/// The greatest key of items of a lane that come before those of all other lanes: its items up to this key come next, one after
/// another. `None` where there may be none. The others are ready, and the tree is in step with them.
pub fn turn_of(lanes: &[Lane], nexts: &TournamentTree, i: usize) -> Option<u64>
    requires in_step { IsInStepBut lanes.now nexts.now i }
    requires slots { length nexts.now ≡ length lanes.now }
    requires rise { CpusRise (parts_of lanes.now) }
    ensures { IfSome result (λ until. (bytes : List ℕ) → All (Stands bytes) lanes.now
        → HasTurn bytes lanes.now i until) }
{
    nexts.up_to(i)
}
