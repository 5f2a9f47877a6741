ghost use Rattle.std.specs.Prelude.{◌≡◌, ◌≤◌, ◌<◌, ◌↔◌, true, IsTrue, [], length, drop, IfNone, IfOk, IfSome, OnErr};
ghost use Rattle.trace_outside.specs.Causes.{HasCause, raised};
ghost use Rattle.trace_outside.specs.Keeping.{KeepsFile};
ghost use Rattle.subpage.specs.Marks.{IsMark, items_from};
ghost use Rattle.page_pool.specs.Keeping.{KeepsLane, seeking};
ghost use Rattle.event_cursor.specs.Fetched.{HoldsItems, IsFetched, IsOwnPage};
ghost use Rattle.event_cursor.specs.Passing.{IsPassedBy};
ghost use Rattle.event_cursor.specs.Places.{IsSought, SoughtIn};
ghost use Rattle.event_cursor.specs.Standing.{Stands};
ghost use Rattle.event_cursor.specs.Unread.{is_there_in};

use crate::fetching::fetch;
use crate::places::Place;
use crate::stepping::ahead_at;
use page_pool::{Cursor, Lane, LaneState};
use subpage::{Mark, RunLimits, open_checked, pass_item, plain_run};
use trace_base::Layout;
use trace_outside::{Failed, File};

/// How going back ended.
#[derive(Clone, Copy, Debug, PartialEq, Eq)]
pub enum Sought {
    /// The lane stands at the place.
    Held,
    /// The sub-buffer is malformed, or has fewer items than the place says.
    Malformed,
}

/// The position after the run of plain records at a position, or else after its one item, and how many items these are: at
/// most `most`. `None`: no item is left.
fn pass_some(layout: &Layout, page: &[u8], mark: Mark, most: u32) -> Option<(Mark, u32)>
    requires mark { IsMark layout.now page.now mark }
    requires some { 0 < most }
    ensures passed { IfSome result (λ passed. IsPassedBy layout.now page.now mark passed.0 passed.1) }
    ensures some { IfSome result (λ passed. 0 < passed.1) }
    ensures few { IfSome result (λ passed. passed.1 ≤ most) }
    ensures none { IfNone result (items_from layout.now page.now mark ≡ []) }
{
    let limits = RunLimits {
        bytes: u32::MAX,
        events: most,
        until: u64::MAX,
    };
    if let Some(run) = plain_run(layout, page, mark, &limits) {
        return Some(run);
    }
    let Some((behind, _)) = pass_item(layout, page, mark) else {
        return None;
    };
    Some((behind.mark(), 1))
}

/// The position after the first `count` items of a sub-buffer. `None`: it has fewer.
fn pass(layout: &Layout, page: &[u8], first: Mark, count: u32) -> Option<Mark>
    requires { IsMark layout.now page.now first }
    ensures mark { IfSome result (λ mark. IsMark layout.now page.now mark) }
    ensures passed { IfSome result (λ mark.
        items_from layout.now page.now mark ≡ drop count (items_from layout.now page.now first)) }
    ensures enough { IfSome result (λ mark. count ≤ length (items_from layout.now page.now first)) }
    ensures few { IfNone result (length (items_from layout.now page.now first) < count) }
{
    let mut mark = first;
    let mut passed = 0;
    while passed < count {
        let Some((behind, more)) = pass_some(layout, page, mark, count - passed) else {
            return None;
        };
        mark = behind;
        passed += more;
    }
    Some(mark)
}

/// Whether the lane holds this sub-buffer.
fn holds_page(lane: &Lane, number: u64) -> bool
    ensures { IsTrue result ↔ ((lane.now.cursor.state ≡ LaneState.Held) × (lane.now.cursor.held ≡ number)) }
{
    lane.cursor.state == LaneState::Held && lane.cursor.held == number
}

/// The position before the first item of a sub-buffer of the lane's part, which is read and checked unless it is held.
/// `None`: it is malformed.
fn turn_to<F: File>(number: u64, file: &mut F, lane: &mut Lane) -> Result<Option<Mark>, Failed>
    ensures holds { IfOk result (HoldsItems lane.new.layout lane.new.page) }
    ensures part { KeepsLane seeking lane.old lane.new }
    ensures own { IfOk result (λ found. IfSome (F.bytes file.old) (λ bytes. Stands bytes lane.old
        → IsOwnPage lane.new.layout bytes lane.new.part number lane.new.page found)) }
    ensures told { IfOk result (λ found. IfSome (F.bytes file.old) (λ bytes. Stands bytes lane.old
        → IsFetched lane.new.layout bytes lane.new.part number lane.new.page found)) }
    ensures failed { OnErr result (lane.new.cursor.state ≡ LaneState.Fresh) }
    ensures cause { HasCause (F.faults file.old) (F.faults file.new) result }
    ensures held { lane.old.cursor.state ≡ LaneState.Held → lane.old.cursor.held ≡ number
        → F.reads file.new ≡ F.reads file.old }
    ensures reads { F.reads file.new ≤ raised (F.reads file.old) lane.old.layout.page }
    ensures keeps { KeepsFile F.File file.old file.new }
{
    let layout = lane.layout;
    if holds_page(lane, number) {
        return Ok(Some(open_checked(&layout, lane.page.bytes())));
    }
    lane.cursor.state = LaneState::Fresh;
    fetch(&layout, file, lane.part, number, &mut lane.page)
}

/// Goes back to a place: the lane holds the sub-buffer `place.page` at its item `place.at`, with `place.high` as the
/// greatest time so far. It reads that sub-buffer, and nothing where the lane holds it.
///
/// `Malformed` exactly where the sub-buffer is malformed or has fewer than `place.at` items: never for a place of the
/// processor's items in a file that tells its bytes. The lane holds no sub-buffer then.
///
/// # Errors
/// `Failed` where a read failed. The lane holds no sub-buffer then, and is not to be used again.
pub fn seek<F: File>(place: &Place, file: &mut F, lane: &mut Lane) -> Result<Sought, Failed>
    requires there { is_there_in lane.old.layout (F.size file.old) lane.old.part place.now.page ≡ true }
    ensures part { KeepsLane seeking lane.old lane.new }
    ensures sought { IfOk result (IsSought place.now lane.new) }
    ensures failed { OnErr result (lane.new.cursor.state ≡ LaneState.Fresh) }
    ensures told { IfOk result (λ sought. IfSome (F.bytes file.old) (λ bytes. Stands bytes lane.old
        → SoughtIn lane.old.layout bytes lane.old.part place.now lane.new sought)) }
    ensures cause { HasCause (F.faults file.old) (F.faults file.new) result }
    ensures held { lane.old.cursor.state ≡ LaneState.Held → lane.old.cursor.held ≡ place.now.page
        → F.reads file.new ≡ F.reads file.old }
    ensures reads { F.reads file.new ≤ raised (F.reads file.old) lane.old.layout.page }
    ensures keeps { KeepsFile F.File file.old file.new }
{
    let found = turn_to(place.page, file, lane)?;
    lane.cursor.state = LaneState::Fresh;
    let layout = lane.layout;
    let Some(first) = found else {
        return Ok(Sought::Malformed);
    };
    let Some(mark) = pass(&layout, lane.page.bytes(), first, place.at) else {
        return Ok(Sought::Malformed);
    };
    let ahead = ahead_at(&layout, lane.page.bytes(), mark, place.high);
    lane.cursor = Cursor {
        state: LaneState::Held,
        held: place.page,
        next: place.page + 1,
        at: place.at,
        mark,
        high: place.high,
        ahead,
    };
    Ok(Sought::Held)
}
