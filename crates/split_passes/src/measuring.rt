ghost use Rattle.std.specs.Prelude.{◌≡◌, [], All, length, IfOk, IfSome, OnOk};
ghost use Rattle.trace_outside.specs.Causes.{HasCause};
ghost use Rattle.subpage.specs.Arrangement.{CpusRise};
ghost use Rattle.event_cursor.specs.Standing.{Stands};
ghost use Rattle.time_merge.specs.LaneRows.{IsReady, parts_of};
ghost use Rattle.split_passes.specs.Measures.{IsMeasured, SkipsOver, Tallied};
ghost use Rattle.split_passes.specs.Through.{GoThrough};

use crate::choice::{Choice, choose};
use crate::pace::{Pace, take_more};
use crate::tally::Tally;
use event_cursor::step;
use page_pool::Lane;
use split_pieces::Gauge;
use subpage::CutPlace;
use time_merge::{Next, next_lane_by};
use tournament_tree::TournamentTree;
use trace_outside::{Failed, File};
use word_values::Moment;

/// Where a piece ends.
#[derive(Clone, Copy, Debug, PartialEq, Eq)]
pub enum PieceEnd {
    /// Before an item that its unit leaves to the next file.
    Full,
    /// Before an item past the end.
    Past,
    /// After the last item.
    Done,
    /// After the last item before a malformed sub-buffer.
    Malformed(CutPlace),
}

/// Goes through the items of a piece, in their order, and counts each lane's items and their sub-buffers.
///
/// # Errors
/// `Failed` where a read failed.
pub(crate) fn measure<F: File>(
    file: &mut F,
    lanes: &mut [Lane],
    stop: Option<Moment>,
    gauge: &mut Gauge,
    tallies: &mut [Tally],
    nexts: &mut TournamentTree,
) -> Result<PieceEnd, Failed>
    requires rise { CpusRise (parts_of lanes.old) }
    requires long { length tallies.old ≡ length lanes.old }
    requires slots { length nexts.old ≡ length lanes.old }
    ensures through { GoThrough F.File file.old file.new lanes.old lanes.new }
    ensures slots { length nexts.new ≡ length nexts.old }
    ensures long { length tallies.new ≡ length lanes.new }
    ensures measured { IfOk result (λ end. IfSome (F.bytes file.old) (λ bytes. All (Stands bytes) lanes.old
        → Tallied lanes.old [] tallies.old
        → IsMeasured bytes stop (record { gauge = gauge.old; lanes = lanes.old }) (record { gauge = gauge.new; lanes = lanes.new })
        tallies.new end)) }
    ensures ready { OnOk result (All IsReady lanes.new) }
    ensures over { SkipsOver lanes.old tallies.old tallies.new }
    ensures cause { HasCause (F.faults file.old) (F.faults file.new) result }
{
    let mut used = None;
    let mut pace = Pace::new();
    loop {
        match next_lane_by(file, lanes, nexts, used)? {
            Next::Lane(i) => match choose(&lanes[i], stop, gauge, &mut tallies[i]) {
                Choice::Takes => {
                    step(&mut lanes[i]);
                    used = take_more(lanes, nexts, i, stop, gauge, tallies, &mut pace);
                }
                Choice::Past => return Ok(PieceEnd::Past),
                Choice::Full => return Ok(PieceEnd::Full),
            },
            Next::Done => return Ok(PieceEnd::Done),
            Next::Malformed(cut) => return Ok(PieceEnd::Malformed(cut)),
        }
    }
}
