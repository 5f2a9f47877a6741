// An item added to an open sub-buffer, whose bytes stand in a buffer.

ghost use Rattle.std.specs.Prelude.{◌≡◌, ◌+◌, ◌≤◌, ℕ, List, [], ◌∷◌, ◌++◌, length, Some};
ghost use Rattle.subpage.specs.ItemData.{ItemData, EventAt, LossAt};
ghost use Rattle.subpage.specs.ItemView.{item_view};
ghost use Rattle.subpage.specs.Run.{IsRun};
ghost use Rattle.page_write.specs.Held.{lost_of, lost_text, told, HoldsAll, Holds, AddsTo};
ghost use Rattle.page_write.specs.PageBytes.{area_len, IsPackable};

use crate::bits::STEP_BITS;
use crate::open_page::{Lost, OpenPage};
use crate::put::{end_of_record, put_piece, put_record};
use subpage::Item;
use trace_base::Layout;

// The loss that an item tells.
fn lost_of_loss(count: Option<u64>) -> Lost
    ensures { (time : ℕ) → result ≡ lost_of (LossAt time count) }
{
    match count {
        None => Lost::Uncounted,
        Some(count) => Lost::Counted(count),
    }
}

/// How many bytes the number of a loss has after the records.
#[tactic(auto, using(crate::proofs::Holding::counted_len))]
pub fn len_of_lost(layout: &Layout, lost: Lost) -> usize
    ensures { result ≡ length (lost_text layout.now lost) }
{
    match lost {
        Lost::Nothing | Lost::Uncounted => 0,
        Lost::Counted(_) => layout.commit_size as usize,
    }
}

// Opens a sub-buffer with an event, whose time is the timestamp.
#[inline(never)]
fn add_first(layout: &Layout, time: u64, payload: &[u8], into: &mut [u8]) -> OpenPage
    requires packable { IsPackable layout.now (EventAt time payload.now) }
    requires whole { length into.old ≡ layout.now.page }
    ensures { HoldsAll layout.now result into.new (EventAt time payload.now) [] }
{
    let at = layout.data_at as usize;
    let behind = put_record(layout.order, 0, payload, at, into);
    OpenPage {
        start: time,
        time,
        used: behind - at,
        lost: Lost::Nothing,
    }
}

// Adds an event to an open sub-buffer, or none where it opens a further one.
#[inline(always)]
fn add_next(
    layout: &Layout,
    page: OpenPage,
    time: u64,
    payload: &[u8],
    into: &mut [u8],
) -> Option<OpenPage>
    requires packable { IsPackable layout.now (EventAt time payload.now) }
    requires whole { length into.old ≡ layout.now.page }
    requires room { page.used + length (lost_text layout.now page.lost) ≤ area_len layout.now }
    ensures { (y : ItemData) (ys : List ItemData) → HoldsAll layout.now page into.old y ys
        → AddsTo layout.now (y ∷ ys) (EventAt time payload.now) into.old into.new result }
{
    if time < page.time {
        return None;
    }
    let step = time - page.time;
    if step >= 1 << STEP_BITS {
        return None;
    }
    let at = layout.data_at as usize + page.used;
    let end = layout.page as usize - len_of_lost(layout, page.lost);
    if end_of_record(at, step, payload.len()) > end {
        return None;
    }
    let behind = put_record(layout.order, step, payload, at, into);
    Some(OpenPage {
        start: page.start,
        time,
        used: behind - layout.data_at as usize,
        lost: page.lost,
    })
}

/// Adds an item to the open sub-buffer, or opens one with it; none where one is open and the item opens a further one.
#[inline(always)]
pub fn add_to(
    layout: &Layout,
    page: Option<OpenPage>,
    item: &Item<'_>,
    into: &mut [u8],
) -> Option<OpenPage>
    requires packable { IsPackable layout.now (item_view item.now) }
    requires whole { length into.old ≡ layout.now.page }
    requires held { Holds layout.now page into.old (told layout.now page into.old) }
    ensures { AddsTo layout.now (told layout.now page into.old) (item_view item.now) into.old into.new result }
{
    match *item {
        Item::Event { time, payload } => match page {
            None => Some(add_first(layout, time, payload, into)),
            Some(page) => add_next(layout, page, time, payload, into),
        },
        Item::Loss { time, count } => match page {
            None => Some(OpenPage {
                start: time,
                time,
                used: 0,
                lost: lost_of_loss(count),
            }),
            Some(_) => None,
        },
    }
}

/// Adds a run of plain records, the last of whose events is at `end`, to an open sub-buffer: their bytes go in as they stand.
pub fn add_run_to(
    layout: &Layout,
    page: OpenPage,
    run: &[u8],
    end: u64,
    into: &mut [u8],
) -> OpenPage
    requires whole { length into.old ≡ layout.now.page }
    requires room { page.used + length (lost_text layout.now page.lost) + length run.now ≤ area_len layout.now }
    ensures { (y : ItemData) (ys xs : List ItemData) → HoldsAll layout.now page into.old y ys
        → IsRun layout.now.order page.time xs run.now end → HoldsAll layout.now result into.new y (ys ++ xs) }
{
    put_piece(layout.data_at as usize + page.used, run, into);
    OpenPage {
        start: page.start,
        time: end,
        used: page.used + run.len(),
        lost: page.lost,
    }
}
