ghost use Rattle.std.specs.Prelude.{◌≡◌, ◌+◌, ◌<◌, ℕ, IfSome, get_or, length, option_map};
ghost use Rattle.subpage.specs.Arrangement.{key_of};
ghost use Rattle.subpage.specs.ItemView.{item_view};
ghost use Rattle.subpage.specs.Marks.{IsMark, items_from};
ghost use Rattle.event_cursor.specs.Keys.{key_behind, first_of};
ghost use Rattle.page_pool.specs.InOrder.{TellsAhead};
ghost use Rattle.event_cursor.specs.Standing.{held_left, keyed_held, most_left};
ghost use Rattle.event_cursor.specs.Stepping.{IsHead, IsStepped, head_view};

use page_pool::{Ahead, Cursor, Lane, LaneState};
use subpage::{Item, Mark, item_between, pass_item};
use trace_base::Layout;

/// The key of an item that follows those whose greatest time is `high`: the greatest time up to it, in nanoseconds.
pub fn key_behind(high: Option<u64>, item: &Item<'_>) -> u64
    ensures { result ≡ key_behind high (item_view item.now) }
{
    let time = match item {
        Item::Event { time, .. } => *time,
        Item::Loss { time, .. } => *time,
    };
    match high {
        None => time,
        Some(high) => high.max(time),
    }
}

/// The item at a place in a sub-buffer, after items whose greatest time is `high`. It is put together right where the caller
/// keeps it.
#[inline(always)]
pub(crate) fn ahead_at(layout: &Layout, page: &[u8], mark: Mark, high: Option<u64>) -> Option<Ahead>
    requires { IsMark layout.now page.now mark }
    ensures { TellsAhead layout.now page.now mark high result }
{
    let Some((behind, payload)) = pass_item(layout, page, mark) else {
        return None;
    };
    let item = item_between(page, &mark, &behind, payload);
    Some(Ahead {
        key: key_behind(high, &item),
        behind,
        payload,
    })
}

/// The key of the item that [`head`] gives.
pub fn head_key(lane: &Lane) -> Option<u64>
    ensures { result ≡ option_map key_of (first_of (keyed_held lane.now)) }
{
    if lane.cursor.state != LaneState::Held {
        return None;
    }
    match lane.cursor.ahead {
        Some(ahead) => Some(ahead.key),
        None => None,
    }
}

/// The first item at a cursor of a held sub-buffer, with its key. The item was read when the cursor came to it, and is not
/// read again.
#[inline]
pub fn head_at<'a>(layout: &Layout, cursor: &Cursor, page: &'a [u8]) -> Option<(u64, Item<'a>)>
    requires { TellsAhead layout.now page.now cursor.now.mark cursor.now.high cursor.now.ahead }
    ensures head { IsHead cursor.now.high (items_from layout.now page.now cursor.now.mark) result }
    ensures bytes { IfSome result (λ head. (i : ℕ) → get_or page.now i 0 < 256) }
{
    match cursor.ahead {
        None => None,
        Some(ahead) => {
            let item = item_between(page, &cursor.mark, &ahead.behind, ahead.payload);
            Some((ahead.key, item))
        }
    }
}

/// The first item of the held sub-buffer that is not used up, with its key. `None` exactly where the held one is used up
/// or none is held. The held sub-buffer is of bytes.
pub fn head(lane: &Lane) -> Option<(u64, Item<'_>)>
    ensures head { option_map (λ head. head_view lane.now.cpu head) result ≡ first_of (keyed_held lane.now) }
    ensures bytes { IfSome result (λ head. (i : ℕ) → get_or lane.now.page i 0 < 256) }
{
    if lane.cursor.state != LaneState::Held {
        return None;
    }
    head_at(&lane.layout, &lane.cursor, lane.page.bytes())
}

/// Uses up the item that [`head`] gives.
#[inline(always)]
pub fn step(lane: &mut Lane)
    requires held { lane.old.cursor.state ≡ LaneState.Held }
    requires some { 0 < length (held_left lane.old) }
    ensures used { IsStepped lane.old lane.new }
    ensures most { most_left lane.new + 1 ≡ most_left lane.old }
{
    if let Some(ahead) = lane.cursor.ahead {
        let high = Some(ahead.key);
        let mark = ahead.behind.mark();
        lane.cursor.ahead = ahead_at(&lane.layout, lane.page.bytes(), mark, high);
        lane.cursor.mark = mark;
        lane.cursor.at += 1;
        lane.cursor.high = high;
    }
}

/// The same, by the lane's layout as the caller has it: a loop that was made for one byte order goes by a layout of that order,
/// and keeps the call within itself.
#[inline(always)]
pub fn step_by(layout: &Layout, lane: &mut Lane)
    requires layout { lane.old.layout ≡ layout.now }
    requires held { lane.old.cursor.state ≡ LaneState.Held }
    requires some { 0 < length (held_left lane.old) }
    ensures used { IsStepped lane.old lane.new }
    ensures most { most_left lane.new + 1 ≡ most_left lane.old }
{
    if let Some(ahead) = lane.cursor.ahead {
        let high = Some(ahead.key);
        let mark = ahead.behind.mark();
        lane.cursor.ahead = ahead_at(layout, lane.page.bytes(), mark, high);
        lane.cursor.mark = mark;
        lane.cursor.at += 1;
        lane.cursor.high = high;
    }
}
