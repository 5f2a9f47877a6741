ghost use Rattle.std.specs.Prelude.{◌≡◌, ◌≢◌, ◌≤◌, ◌<◌, [], IfOk, IfSome, OnErr};
ghost use Rattle.trace_outside.specs.Causes.{HasCause, raised};
ghost use Rattle.trace_outside.specs.Keeping.{KeepsFile};
ghost use Rattle.subpage.specs.Processor.{page_count};
ghost use Rattle.page_pool.specs.Keeping.{KeepsLane, loading};
ghost use Rattle.event_cursor.specs.Standing.{OwnIfHeld, held_left, most_left};
ghost use Rattle.event_cursor.specs.Loading.{ComesTo, KeepsLeft, LoadsLane, IsState, IsAnswer};
ghost use Rattle.event_cursor.specs.Unread.{IsAsked, size_there};

use crate::fetching::fetch;
use crate::stepping::ahead_at;
use page_pool::{Lane, LaneState};
use trace_outside::{Failed, File};

/// How loading ended.
#[derive(Clone, Copy, Debug, PartialEq, Eq)]
pub enum Loaded {
    /// The lane holds a sub-buffer with an item.
    Loaded,
    /// No item is left, and no sub-buffer.
    End,
    /// No item is left before this malformed sub-buffer.
    Malformed(u64),
}

/// Loads the processor's sub-buffers from the next one on, until one has an item (trace-cmd.dat.v6(5)). A sub-buffer that
/// does not stand wholly in the part and in the file is malformed.
///
/// # Errors
/// `Failed` where a read failed. The lane is not to be used again then.
#[inline(never)]
pub fn load<F: File>(file: &mut F, lane: &mut Lane) -> Result<Loaded, Failed>
    // It holds no sub-buffer, or the held one is used up.
    requires used_up { held_left lane.old ≡ [] }
    requires sound { lane.old.cursor.state ≢ LaneState.Malformed }
    ensures loads { LoadsLane F.File file.old file.new lane.old lane.new }
    ensures state { IfOk result (IsState lane.new) }
    ensures failed { OnErr result (lane.new.cursor.state ≡ LaneState.Fresh) }
    ensures answer { IfOk result (λ answer.
        IfSome (F.bytes file.old) (λ bytes. IsAnswer bytes lane.new answer)) }
    ensures cause { HasCause (F.faults file.old) (F.faults file.new) result }
{
    lane.cursor.state = LaneState::Fresh;
    let count = lane.part.size.div_ceil(u64::from(lane.layout.page));
    while lane.cursor.next < count {
        if let Some(answer) = load_next(file, lane, count)? {
            return Ok(answer);
        }
    }
    lane.cursor.state = LaneState::Ended;
    Ok(Loaded::End)
}

/// Loads the next of the part's `count` sub-buffers. `None`: it has no item.
fn load_next<F: File>(file: &mut F, lane: &mut Lane, count: u64) -> Result<Option<Loaded>, Failed>
    requires fresh { lane.old.cursor.state ≡ LaneState.Fresh }
    requires count { count ≡ page_count lane.old.layout lane.old.part }
    requires more { lane.old.cursor.next < count }
    ensures place { KeepsLane loading lane.old lane.new }
    ensures comes { IfOk result (ComesTo (F.size file.old) lane.old lane.new) }
    ensures failed { OnErr result (lane.new.cursor.state ≡ LaneState.Fresh) }
    ensures left { IfSome (F.bytes file.old) (λ bytes. KeepsLeft bytes lane.old lane.new) }
    ensures own { IfSome (F.bytes file.old) (λ bytes. OwnIfHeld bytes lane.new) }
    ensures answer { IfOk result (λ answer.
        IfSome (F.bytes file.old) (λ bytes. IfSome answer (IsAnswer bytes lane.new))) }
    ensures most { most_left lane.new ≤ most_left lane.old }
    ensures cause { HasCause (F.faults file.old) (F.faults file.new) result }
    ensures reads { F.reads file.new ≤ raised (F.reads file.old)
        (size_there lane.old.layout (F.size file.old) lane.old.part lane.old.cursor.next) }
    ensures asked { OnErr result (IsAsked (F.size file.old) lane.old lane.new) }
    ensures keeps { KeepsFile F.File file.old file.new }
{
    let number = lane.cursor.next;
    let layout = lane.layout;
    let found = fetch(&layout, file, lane.part, number, &mut lane.page)?;
    let Some(mark) = found else {
        lane.cursor.state = LaneState::Malformed;
        return Ok(Some(Loaded::Malformed(number)));
    };
    lane.cursor.next = number + 1;
    let ahead = ahead_at(&layout, lane.page.bytes(), mark, lane.cursor.high);
    if ahead.is_none() {
        return Ok(None);
    }
    lane.cursor.state = LaneState::Held;
    lane.cursor.held = number;
    lane.cursor.at = 0;
    lane.cursor.mark = mark;
    lane.cursor.ahead = ahead;
    Ok(Some(Loaded::Loaded))
}
