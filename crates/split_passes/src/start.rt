// The items before the start.

ghost use Rattle.std.specs.Prelude.{◌≡◌, ◌-◌, ◌≤◌, All, IfSome, OnOk, Some, length};
ghost use Rattle.trace_outside.specs.Causes.{HasCause, raised};
ghost use Rattle.subpage.specs.Arrangement.{CpusRise, Keyed};
ghost use Rattle.page_pool.specs.declared.lane.Lane.{Lane};
ghost use Rattle.event_cursor.specs.Keys.{first_of};
ghost use Rattle.event_cursor.specs.Standing.{Stands, keyed_held};
ghost use Rattle.time_merge.specs.LaneRows.{parts_of};
ghost use Rattle.time_merge.specs.Reads.{all_unread};
ghost use Rattle.split_pieces.specs.Moments.{is_before};
ghost use Rattle.split_passes.specs.Starting.{ListStarted};
ghost use Rattle.split_passes.specs.Through.{GoThrough};

use event_cursor::{head_key, step};
use page_pool::Lane;
use split_pieces::is_before;
use time_merge::{Next, next_lane_by};
use tournament_tree::TournamentTree;
use trace_outside::{Failed, File};
use word_values::Moment;

// Whether a lane's first item stands before the start.
fn stands_before(lane: &Lane, start: Moment) -> bool
    ensures { (x : Keyed) → first_of (keyed_held lane.now) ≡ Some x → result ≡ is_before start x.key }
{
    match head_key(lane) {
        Some(key) => is_before(start, key),
        None => false,
    }
}

/// Passes over the items of lanes that stand before the start.
///
/// # Errors
/// `Failed` where a read failed.
pub(crate) fn pass_over<F: File>(
    file: &mut F,
    lanes: &mut [Lane],
    start: Moment,
    nexts: &mut TournamentTree,
) -> Result<(), Failed>
    requires rise { CpusRise (parts_of lanes.old) }
    requires slots { length nexts.old ≡ length lanes.old }
    ensures through { GoThrough F.File file.old file.new lanes.old lanes.new }
    ensures slots { length nexts.new ≡ length nexts.old }
    ensures told { OnOk result (IfSome (F.bytes file.old) (λ bytes. All (Stands bytes) lanes.old
        → ListStarted bytes (Some start) lanes.old lanes.new)) }
    ensures reads_done { OnOk result (F.reads file.new ≤ raised (F.reads file.old)
        (all_unread (F.size file.old) lanes.old - all_unread (F.size file.old) lanes.new)) }
    ensures cause { HasCause (F.faults file.old) (F.faults file.new) result }
{
    let mut used = None;
    loop {
        match next_lane_by(file, lanes, nexts, used)? {
            Next::Lane(i) => {
                if !stands_before(&lanes[i], start) {
                    return Ok(());
                }
                step(&mut lanes[i]);
                used = Some(i);
            }
            Next::Done => return Ok(()),
            Next::Malformed(_) => return Ok(()),
        }
    }
}
