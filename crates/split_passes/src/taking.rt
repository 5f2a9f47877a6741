// Runs of plain records that a piece takes at once.

ghost use Rattle.std.specs.Prelude.{◌≡◌, ◌≤◌, ℕ, IfSome, false, length, slice_index_or};
ghost use Rattle.subpage.specs.Arrangement.{CpusRise};
ghost use Rattle.page_pool.specs.Keeping.{KeepsLane, stepping};
ghost use Rattle.page_pool.specs.declared.lane.Lane.{Lane};
ghost use Rattle.time_merge.specs.LaneRows.{parts_of};
ghost use Rattle.time_merge.specs.Nexts.{IsInStepBut};
ghost use Rattle.split_passes.specs.Choices.{past_key};
ghost use Rattle.split_passes.specs.Takings.{HasRun, IsRunTaken, IsTurnTaken, LimitsAllow, RunAllowed, RunWithin};

use crate::tally::Tally;
use event_cursor::step_run;
use page_pool::{Lane, LaneState};
use split_pieces::{Gauge, last_until};
use subpage::{Mark, RunLimits, plain_run, run_between};
use time_merge::turn_of;
use tournament_tree::TournamentTree;
use trace_base::Layout;
use word_values::Moment;

/// A run of plain records that was found at a lane's place: the position after it, and how many events it has.
#[derive(Clone, Copy, Debug)]
pub(crate) struct FoundRun {
    pub(crate) next: Mark,
    pub(crate) count: u32,
}

/// More events no sub-buffer has.
pub(crate) const MOST: u64 = 1 << 31;

/// The lesser of two keys, and no key past the end.
pub(crate) fn until_of(turn: u64, allowed: u64, stop: Option<Moment>) -> u64
    ensures turn { result ≤ turn }
    ensures allowed { result ≤ allowed }
    ensures inside { (key : ℕ) → key ≤ result → past_key stop key ≡ false }
{
    match stop {
        None => turn.min(allowed),
        Some(moment) => turn.min(allowed).min(last_until(moment)),
    }
}

// How far a run may go that a piece takes: the unit, the end, and the lane's turn allow it, and the open sub-buffer has room.
fn limits_of(
    layout: &Layout,
    turn: u64,
    stop: Option<Moment>,
    gauge: &Gauge,
    tally: &Tally,
) -> Option<RunLimits>
    ensures { IfSome result (λ limits. LimitsAllow layout.now turn stop gauge.now tally.now limits) }
{
    let Some(allowance) = gauge.allows() else {
        return None;
    };
    let until = until_of(turn, allowance.until, stop);
    let bytes = tally.pages.room(layout) as u32;
    let events = allowance.events.min(MOST) as u32;
    Some(RunLimits {
        bytes,
        events,
        until,
    })
}

// A run that was found at a lane's place, where it goes no further than these limits.
fn found_within(lane: &Lane, limits: &RunLimits, found: Option<FoundRun>) -> Option<(Mark, u32)>
    requires held { lane.now.cursor.state ≡ LaneState.Held }
    requires found { IfSome found (HasRun lane.now) }
    ensures { IfSome result (λ run. RunWithin lane.now limits.now run.0 run.1) }
{
    let Some(run) = found else {
        return None;
    };
    if limits.events < run.count || limits.until < run.next.time() {
        return None;
    }
    let bytes = run_between(lane.page.bytes(), &lane.cursor.mark, &run.next);
    if (limits.bytes as usize) < bytes.len() {
        return None;
    }
    Some((run.next, run.count))
}

// The run of plain records at a lane's place that goes no further, where the item counted last stands right before it. One
// that was found there is not looked for again.
fn next_taken(
    lane: &Lane,
    limits: &RunLimits,
    found: Option<FoundRun>,
    tally: &Tally,
) -> Option<(Mark, u32)>
    requires held { lane.now.cursor.state ≡ LaneState.Held }
    requires found { IfSome found (HasRun lane.now) }
    ensures { IfSome result (λ run. RunAllowed lane.now limits.now tally.now run.0 run.1) }
{
    let Some(ahead) = lane.cursor.ahead else {
        return None;
    };
    if limits.until < ahead.key {
        return None;
    }
    let Some(time) = tally.pages.last_time() else {
        return None;
    };
    if time != lane.cursor.mark.time() {
        return None;
    }
    if let Some(known) = found_within(lane, limits, found) {
        return Some(known);
    }
    plain_run(&lane.layout, lane.page.bytes(), lane.cursor.mark, limits)
}

/// Takes the run of plain records at a lane's place into a piece and its tally, no further than to the key `turn`. `found` is one
/// that was found there, if it is known.
#[inline(always)]
pub(crate) fn take_run(
    lane: &mut Lane,
    turn: u64,
    stop: Option<Moment>,
    found: Option<FoundRun>,
    gauge: &mut Gauge,
    tally: &mut Tally,
)
    requires held { lane.old.cursor.state ≡ LaneState.Held }
    requires found { IfSome found (HasRun lane.old) }
    ensures lane { KeepsLane stepping lane.old lane.new }
    ensures taken { IsRunTaken stop turn (record { gauge = gauge.old; tally = tally.old })
        (record { gauge = gauge.new; tally = tally.new }) lane.old lane.new }
{
    let layout = lane.layout;
    let Some(limits) = limits_of(&layout, turn, stop, gauge, tally) else {
        return;
    };
    let Some((next, count)) = next_taken(lane, &limits, found, tally) else {
        return;
    };
    let run = run_between(lane.page.bytes(), &lane.cursor.mark, &next);
    tally.add_run(&layout, run, next.time(), count);
    gauge.takes_events(u64::from(count));
    step_run(lane, next, count);
}

/// Takes the run of plain records at a lane's place into a piece and its tally, as far as its items come before those of all other
/// lanes. These are ready, and the tree is in step with them.
pub(crate) fn take_turn(
    lanes: &mut [Lane],
    nexts: &TournamentTree,
    i: usize,
    stop: Option<Moment>,
    gauge: &mut Gauge,
    tally: &mut Tally,
)
    requires rise { CpusRise (parts_of lanes.old) }
    requires in_step { IsInStepBut lanes.old nexts.now i }
    requires slots { length nexts.now ≡ length lanes.old }
    requires held { (d : Lane) → (slice_index_or lanes.old i d).cursor.state ≡ LaneState.Held }
    ensures taken { (d : Lane) → IsTurnTaken stop (record { gauge = gauge.old; tally = tally.old })
        (record { gauge = gauge.new; tally = tally.new }) lanes.old i d lanes.new }
{
    if let Some(turn) = turn_of(lanes, nexts, i) {
        take_run(&mut lanes[i], turn, stop, None, gauge, tally);
    }
}
