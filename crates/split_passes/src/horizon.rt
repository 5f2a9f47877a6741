// How far all lanes of a piece can be gone through one by one.

ghost use Rattle.std.specs.Prelude.{◌≡◌, ◌<◌, ◌≤◌, ℕ, IfSome, IsTrue, None, length, slice_index_or};
ghost use Rattle.subpage.specs.Marks.{IsMark};
ghost use Rattle.page_pool.specs.declared.lane.Lane.{Lane};
ghost use Rattle.split_passes.specs.Rounds.{HasLater, HoldsLater, ReachesPast};
ghost use Rattle.split_passes.specs.Takings.{HasRun};

use crate::taking::FoundRun;
use page_pool::{Lane, LaneState};
use subpage::{Mark, RunLimits, plain_run};
use trace_base::Layout;

// How far a lane holds all its items, and the run at its place, where one was found that comes by then.
#[derive(Clone, Copy, Debug)]
struct LaneHorizon {
    until: u64,
    run: Option<FoundRun>,
}

/// How far all lanes hold all their items, and the run at the place of the last one of which a run was found.
#[derive(Clone, Copy, Debug)]
pub(crate) struct CommonHorizon {
    pub(crate) until: u64,
    pub(crate) lane: usize,
    pub(crate) run: Option<FoundRun>,
}

// The greatest key up to another that is less than this one. No run is known to end there.
fn below(key: u64, until: u64) -> Option<LaneHorizon>
    ensures until { IfSome result (λ found. (found.until < key) × (found.until ≤ until)) }
    ensures run { IfSome result (λ found. found.run ≡ None) }
{
    match key.checked_sub(1) {
        None => None,
        Some(last) => Some(LaneHorizon {
            until: last.min(until),
            run: None,
        }),
    }
}

// Whether a plain record of a later event stands at a place.
fn is_later(layout: &Layout, page: &[u8], mark: Mark, until: u64) -> bool
    requires { IsMark layout.now page.now mark }
    ensures { IsTrue result → HasLater layout.now page.now mark until }
{
    let limits = RunLimits {
        bytes: u32::MAX,
        events: 1,
        until: u64::MAX,
    };
    match plain_run(layout, page, mark, &limits) {
        None => false,
        Some((next, _)) => until < next.time(),
    }
}

// Of a lane that holds a sub-buffer: a run of plain records is looked at, and no further.
fn held_horizon(lane: &Lane, most: u32, until: u64) -> Option<LaneHorizon>
    requires held { lane.now.cursor.state ≡ LaneState.Held }
    ensures holds { IfSome result (λ found. (found.until ≤ until) × HoldsLater found.until most lane.now) }
    ensures run { IfSome result (λ found. IfSome found.run (HasRun lane.now)) }
{
    let Some(ahead) = lane.cursor.ahead else {
        return None;
    };
    if until < ahead.key {
        return Some(LaneHorizon { until, run: None });
    }
    let limits = RunLimits {
        bytes: u32::MAX,
        events: most,
        until,
    };
    let page = lane.page.bytes();
    let Some((next, count)) = plain_run(&lane.layout, page, lane.cursor.mark, &limits) else {
        return below(ahead.key, until);
    };
    if is_later(&lane.layout, page, next, until) {
        let run = Some(FoundRun { next, count });
        return Some(LaneHorizon { until, run });
    }
    below(next.time(), until)
}

#[inline(always)]
fn lane_horizon(lane: &Lane, most: u32, until: u64) -> Option<LaneHorizon>
    ensures reaches { IfSome result (λ found. (found.until ≤ until) × ReachesPast found.until most lane.now) }
    ensures run { IfSome result (λ found. IfSome found.run (HasRun lane.now)) }
{
    match lane.cursor.state {
        LaneState::Fresh => None,
        LaneState::Held => held_horizon(lane, most, until),
        LaneState::Ended => Some(LaneHorizon { until, run: None }),
        LaneState::Malformed => match lane.cursor.high {
            None => None,
            Some(high) => below(high, until),
        },
    }
}

// The lane that used up the most items of the sub-buffer that it holds. It is likely to come to its end first.
fn furthest(lanes: &[Lane]) -> usize
    requires { 0 < length lanes.now }
    ensures { result < length lanes.now }
{
    let mut first = 0;
    for i in 1..lanes.len() {
        if lanes[first].cursor.at < lanes[i].cursor.at {
            first = i;
        }
    }
    first
}

// Lowers the horizon to that of lane `i`, which is looked at no further than the others go, if one is found. Lane `first` is one of
// these.
fn with_lane(lanes: &[Lane], i: usize, first: usize, most: u32, least: &mut CommonHorizon) -> bool
    requires inside { i < length lanes.now }
    requires first { (d : Lane) → ReachesPast least.old.until most (slice_index_or lanes.now first d) }
    requires run { (d : Lane) → IfSome least.old.run (HasRun (slice_index_or lanes.now least.old.lane d)) }
    ensures reaches { IsTrue result → (least.new.until ≤ least.old.until)
        × ((d : Lane) → ReachesPast least.new.until most (slice_index_or lanes.now i d)) }
    ensures run { (d : Lane) → IfSome least.new.run (HasRun (slice_index_or lanes.now least.new.lane d)) }
{
    if i == first {
        return true;
    }
    let Some(found) = lane_horizon(&lanes[i], most, least.until) else {
        return false;
    };
    least.until = found.until;
    if found.run.is_none() {
        return true;
    }
    least.lane = i;
    least.run = found.run;
    true
}

/// A key up to `until` up to which each lane holds all its items, at most so many, all of them events. `None` where no such key is
/// found.
pub(crate) fn horizon(lanes: &[Lane], most: u32, until: u64) -> Option<CommonHorizon>
    requires some { 0 < length lanes.now }
    ensures reaches { IfSome result (λ found. (found.until ≤ until)
        × ((i : ℕ) (d : Lane) → i < length lanes.now → ReachesPast found.until most (slice_index_or lanes.now i d))) }
    ensures run { IfSome result (λ found. (d : Lane) → IfSome found.run (HasRun (slice_index_or lanes.now found.lane d))) }
{
    let first = furthest(lanes);
    let Some(found) = lane_horizon(&lanes[first], most, until) else {
        return None;
    };
    let mut least = CommonHorizon {
        until: found.until,
        lane: first,
        run: found.run,
    };
    for i in 0..lanes.len() {
        if !with_lane(lanes, i, first, most, &mut least) {
            return None;
        }
    }
    Some(least)
}
