// Runs of plain records on their way from one sub-buffer into another.

ghost use Rattle.std.specs.Prelude.{◌≡◌, ◌≤◌, IfSome};
ghost use Rattle.page_pool.specs.Keeping.{KeepsLane, stepping};
ghost use Rattle.split_passes.specs.Runs.{IsRunPacked, RunFits};

use event_cursor::step_run;
use page_pool::{Lane, LaneState};
use page_write::Packer;
use subpage::{Mark, RunLimits, plain_run, run_between};

// More events no sub-buffer has.
const MOST: u64 = 1 << 31;

// The run of plain records at a lane's place, where the item packed last stands right before it: as many as the open
// sub-buffer has room for.
fn next_run(lane: &Lane, packer: &Packer<'_>, most: u64) -> Option<(Mark, u32)>
    requires held { lane.now.cursor.state ≡ LaneState.Held }
    requires same { packer.now.layout ≡ lane.now.layout }
    ensures { IfSome result (λ run. RunFits lane.now packer.now.held most run.0 run.1) }
{
    let Some(time) = packer.last_time() else {
        return None;
    };
    if time != lane.cursor.mark.time() {
        return None;
    }
    let room = packer.room() as u32;
    let most = most.min(MOST) as u32;
    let limits = RunLimits {
        bytes: room,
        events: most,
        until: u64::MAX,
    };
    plain_run(&lane.layout, lane.page.bytes(), lane.cursor.mark, &limits)
}

/// Packs the run of plain records at a lane's place, where the item packed last stands right before it: at most so many, as
/// many as the open sub-buffer has room for. It gives their number.
pub fn pack_run(lane: &mut Lane, packer: &mut Packer<'_>, most: u64) -> u64
    requires held { lane.old.cursor.state ≡ LaneState.Held }
    requires same { packer.old.layout ≡ lane.old.layout }
    ensures lane { KeepsLane stepping lane.old lane.new }
    ensures same { packer.new.layout ≡ lane.old.layout }
    ensures few { result ≤ most }
    ensures run { IsRunPacked lane.old lane.new packer.old.held packer.new.held result }
{
    let Some((next, count)) = next_run(lane, packer, most) else {
        return 0;
    };
    let run = run_between(lane.page.bytes(), &lane.cursor.mark, &next);
    packer.add_run(run, next.time());
    step_run(lane, next, count);
    u64::from(count)
}
