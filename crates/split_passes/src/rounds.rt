// Rounds: what a piece takes lane by lane, since all of it stands before a horizon.

ghost use Rattle.std.specs.Prelude.{◌≡◌, ◌<◌, ℕ, All, IfSome, Some, true, length};
ghost use Rattle.event_cursor.specs.Standing.{held_left};
ghost use Rattle.split_passes.specs.Rounds.{ComesBy, HeadTaken, IsLaneTaken, IsReach, IsRoundTaken, IsSomeTaken, ReachesPast};
ghost use Rattle.split_passes.specs.Takings.{HasRun};

use crate::heads::packable_head;
use crate::horizon::horizon;
use crate::taking::{FoundRun, MOST, take_run, until_of};
use crate::tally::Tally;
use event_cursor::{head_key, step};
use page_pool::{Lane, LaneState};
use split_pieces::Gauge;
use word_values::Moment;

// How far a round goes: to the items with this key, and to so many events of a lane. A run may have been found at a lane's place.
#[derive(Clone, Copy, Debug)]
struct Reach {
    until: u64,
    most: u32,
    lane: usize,
    run: Option<FoundRun>,
}

impl Reach {
    // The run that was found at the place of lane `i`.
    fn run_of(&self, i: usize) -> Option<FoundRun>
        ensures { IfSome result (λ run. (i ≡ self.now.lane) × (self.now.run ≡ Some run)) }
    {
        if i == self.lane {
            return self.run;
        }
        None
    }
}

// Whether the next item of a lane has a key up to this one.
fn comes_by(lane: &Lane, until: u64) -> bool
    ensures { ComesBy until lane.now result }
{
    match head_key(lane) {
        None => false,
        Some(key) => key <= until,
    }
}

// Takes the next item of a lane.
fn take_head(lane: &mut Lane, tally: &mut Tally)
    requires held { lane.old.cursor.state ≡ LaneState.Held }
    requires some { 0 < length (held_left lane.old) }
    ensures taken { HeadTaken lane.old lane.new tally.old tally.new }
{
    if let Some((_, item)) = packable_head(lane) {
        tally.add(&lane.layout, &item);
        step(lane);
    }
}

// Takes some items of a lane with keys up to this one: a run, and where there is none, the next item.
fn take_some(lane: &mut Lane, until: u64, found: Option<FoundRun>, tally: &mut Tally)
    requires comes { ComesBy until lane.old true }
    requires found { IfSome found (HasRun lane.old) }
    ensures taken { IsSomeTaken until lane.old lane.new tally.old tally.new }
{
    take_run(lane, until, None, found, &mut Gauge::All, tally);
    if comes_by(lane, until) {
        take_head(lane, tally);
    }
}

// Takes all items of a lane with keys up to this one, and gives their number.
fn take_lane(lane: &mut Lane, until: u64, found: Option<FoundRun>, tally: &mut Tally) -> u64
    requires found { IfSome found (HasRun lane.old) }
    ensures taken { (most : ℕ) → ReachesPast until most lane.old
        → IsLaneTaken until most lane.old lane.new tally.old tally.new result }
{
    let from = lane.cursor.at;
    let mut run = found;
    while comes_by(lane, until) {
        take_some(lane, until, run, tally);
        run = None;
    }
    u64::from(lane.cursor.at - from)
}

// How far the next round goes.
fn reach_of(lanes: &[Lane], stop: Option<Moment>, gauge: &Gauge) -> Option<Reach>
    ensures { IfSome result (λ reach. IsReach stop gauge.now lanes.now reach) }
{
    let Some(allowance) = gauge.allows() else {
        return None;
    };
    if lanes.is_empty() {
        return None;
    }
    let most = (allowance.events / lanes.len() as u64).min(MOST) as u32;
    match horizon(lanes, most, until_of(u64::MAX, allowance.until, stop)) {
        None => None,
        Some(found) => Some(Reach {
            until: found.until,
            most,
            lane: found.lane,
            run: found.run,
        }),
    }
}

/// Takes all items of all lanes up to a horizon into a piece and its tallies, lane by lane, and gives their number. `None` where
/// none is found; nothing is taken then.
pub fn take_round(
    lanes: &mut [Lane],
    stop: Option<Moment>,
    gauge: &mut Gauge,
    tallies: &mut [Tally],
) -> Option<u64>
    requires long { length tallies.old ≡ length lanes.old }
    ensures taken { IsRoundTaken stop (record { gauge = gauge.old; lanes = lanes.old; tallies = tallies.old })
        (record { gauge = gauge.new; lanes = lanes.new; tallies = tallies.new }) result }
{
    let Some(reach) = reach_of(lanes, stop, gauge) else {
        return None;
    };
    let mut count = 0;
    for i in 0..lanes.len() {
        let run = reach.run_of(i);
        count += take_lane(&mut lanes[i], reach.until, run, &mut tallies[i]);
    }
    gauge.takes_events(count);
    Some(count)
}
