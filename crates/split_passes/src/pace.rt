// What a piece takes at once after an item, and when it pays to look for it.

ghost use Rattle.std.specs.Prelude.{◌≡◌, length, slice_index_or};
ghost use Rattle.subpage.specs.Arrangement.{CpusRise};
ghost use Rattle.page_pool.specs.declared.lane.Lane.{Lane};
ghost use Rattle.time_merge.specs.LaneRows.{parts_of};
ghost use Rattle.time_merge.specs.Nexts.{IsInStepBut};
ghost use Rattle.split_passes.specs.Rounds.{IsMoreTaken, IsRoundTried};
ghost use Rattle.split_passes.specs.Takings.{IsTurnTaken};

use crate::rounds::take_round;
use crate::taking::take_turn;
use crate::tally::Tally;
use page_pool::{Lane, LaneState};
use split_pieces::Gauge;
use tournament_tree::TournamentTree;
use word_values::Moment;

/// A turn of fewer items costs more than their share of a round.
const FEW: u32 = 8;

/// After so many such turns a round is tried.
const SHORT_TURNS: usize = 2;

/// After a round so many items are taken by themselves before the next. The first of them is likely the last of its sub-buffer,
/// so that the lane's next one has to be loaded.
const AFTER_ROUND: usize = 1;

/// Which lane gave the last item, and how many short turns and single items are to be taken before the next round. It changes no
/// result, only what it costs.
#[derive(Drop)]
pub(crate) struct Pace {
    last: Option<usize>,
    wait: usize,
}

impl Pace {
    /// Before the first item. A round is tried right after it.
    pub(crate) fn new() -> Pace {
        Pace {
            last: None,
            wait: 0,
        }
    }

    // Whether a round is tried now. Of one lane alone the turn goes as far.
    fn is_due(&self, lanes: usize) -> bool {
        self.wait == 0 && 1 < lanes
    }

    // After a turn of so many items.
    fn after_turn(&mut self, count: u32) {
        if FEW <= count {
            self.wait = SHORT_TURNS;
        } else {
            self.wait = self.wait.saturating_sub(1);
        }
    }

    // After a round of so many items. One with few of them cost more than it gave.
    fn after_round(&mut self, count: u64, lanes: usize) {
        self.last = None;
        self.wait = if count / 2 < lanes as u64 {
            lanes
        } else {
            AFTER_ROUND
        };
    }

    // Whether this lane gave the item before too. Only then it pays to look how far its turn goes.
    fn is_again(&mut self, i: usize) -> bool {
        let again = match self.last {
            None => false,
            Some(last) => last == i,
        };
        self.last = Some(i);
        again
    }
}

// Takes a round, where one is due and its horizon is found.
fn try_round(
    lanes: &mut [Lane],
    stop: Option<Moment>,
    gauge: &mut Gauge,
    tallies: &mut [Tally],
    pace: &mut Pace,
) -> bool
    requires long { length tallies.old ≡ length lanes.old }
    ensures taken { IsRoundTried stop (record { gauge = gauge.old; lanes = lanes.old; tallies = tallies.old })
        (record { gauge = gauge.new; lanes = lanes.new; tallies = tallies.new }) result }
{
    if !pace.is_due(lanes.len()) {
        return false;
    }
    match take_round(lanes, stop, gauge, tallies) {
        Some(count) => {
            pace.after_round(count, lanes.len());
            true
        }
        None => {
            pace.after_round(0, lanes.len());
            false
        }
    }
}

// Takes the rest of the turn of lane `i`, where it is likely to have one.
fn try_turn(
    lanes: &mut [Lane],
    nexts: &TournamentTree,
    i: usize,
    stop: Option<Moment>,
    gauge: &mut Gauge,
    tally: &mut Tally,
    pace: &mut Pace,
)
    requires rise { CpusRise (parts_of lanes.old) }
    requires in_step { IsInStepBut lanes.old nexts.now i }
    requires slots { length nexts.now ≡ length lanes.old }
    requires held { (d : Lane) → (slice_index_or lanes.old i d).cursor.state ≡ LaneState.Held }
    ensures taken { (d : Lane) → IsTurnTaken stop (record { gauge = gauge.old; tally = tally.old })
        (record { gauge = gauge.new; tally = tally.new }) lanes.old i d lanes.new }
{
    if !pace.is_again(i) {
        pace.after_turn(0);
        return;
    }
    let at = lanes[i].cursor.at;
    take_turn(lanes, nexts, i, stop, gauge, tally);
    pace.after_turn(lanes[i].cursor.at.saturating_sub(at));
}

/// Takes what comes next after an item of lane `i`, as far as it is had at once: a round of all lanes, or else a run of this
/// one. It gives the lane with which the tree is not in step, or `None` after a round.
pub(crate) fn take_more(
    lanes: &mut [Lane],
    nexts: &TournamentTree,
    i: usize,
    stop: Option<Moment>,
    gauge: &mut Gauge,
    tallies: &mut [Tally],
    pace: &mut Pace,
) -> Option<usize>
    requires rise { CpusRise (parts_of lanes.old) }
    requires in_step { IsInStepBut lanes.old nexts.now i }
    requires slots { length nexts.now ≡ length lanes.old }
    requires long { length tallies.old ≡ length lanes.old }
    requires held { (d : Lane) → (slice_index_or lanes.old i d).cursor.state ≡ LaneState.Held }
    ensures taken { IsMoreTaken stop (record { gauge = gauge.old; lanes = lanes.old; tallies = tallies.old })
        (record { gauge = gauge.new; lanes = lanes.new; tallies = tallies.new }) i result }
{
    if try_round(lanes, stop, gauge, tallies, pace) {
        return None;
    }
    try_turn(lanes, nexts, i, stop, gauge, &mut tallies[i], pace);
    Some(i)
}
