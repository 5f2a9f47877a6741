// Over a run of plain records.

ghost use Rattle.std.specs.Prelude.{◌≡◌, ◌<◌, max, unwrap_or};
ghost use Rattle.subpage.specs.Run.{IsRunTo};
ghost use Rattle.event_cursor.specs.Stepping.{IsSteppedOver};

use crate::stepping::ahead_at;
use page_pool::{Lane, LaneState};
use subpage::Mark;

// The greatest time up to one that is no earlier than those right before it.
fn high_up_to(high: Option<u64>, time: u64) -> u64
    ensures { result ≡ max (unwrap_or high 0) time }
{
    match high {
        None => time,
        Some(high) => high.max(time),
    }
}

/// Uses up the items of a run of plain records, which stands at the lane's place and ends at `next`: only the item after it
/// is read.
pub fn step_run(lane: &mut Lane, next: Mark, count: u32)
    requires held { lane.old.cursor.state ≡ LaneState.Held }
    requires run { IsRunTo lane.old.layout lane.old.page lane.old.cursor.mark next count }
    requires some { 0 < count }
    ensures used { (run : IsRunTo lane.old.layout lane.old.page lane.old.cursor.mark next count)
        → IsSteppedOver run.items lane.old lane.new }
{
    let high = Some(high_up_to(lane.cursor.high, next.time()));
    lane.cursor.ahead = ahead_at(&lane.layout, lane.page.bytes(), next, high);
    lane.cursor.mark = next;
    lane.cursor.at += count;
    lane.cursor.high = high;
}
