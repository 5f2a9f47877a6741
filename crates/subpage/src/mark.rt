ghost use Rattle.std.specs.Prelude.{◌≡◌, ◌≤◌, length};
ghost use Rattle.subpage.specs.ItemView.{item_view};
ghost use Rattle.subpage.specs.Marks.{bytes_from, item_between, items_from, mark_of, IsMark, IsFirst, IsInside, IsPassed, past_loss};
ghost use Rattle.subpage.specs.Run.{time_at};

use crate::item::Item;
use crate::loss::Loss;
use crate::next::{Next, next_event, pass_silent};
use crate::reading::{filled_up, short_event};
use trace_base::Layout;

/// A position among the items of a sub-buffer, as plain numbers: it can be kept beside the sub-buffer's bytes, and the
/// item there is read in the time that this one item takes.
#[derive(Clone, Copy, Debug)]
pub struct Mark {
    /// The loss, where it is still to be told.
    pub(crate) loss: Option<Loss>,
    /// The running time there.
    pub(crate) time: u64,
    /// Where the bytes that are left begin, and where the committed bytes end.
    pub(crate) from: u32,
    pub(crate) to: u32,
}

impl Mark {
    /// The position of no item.
    pub const NONE: Mark = Mark {
        loss: None,
        time: 0,
        from: 0,
        to: 0,
    };

    /// The running time there. After an event it is the event's.
    #[inline(always)]
    pub fn time(&self) -> u64
        ensures { result ≡ time_at self.now }
    {
        self.time
    }

    /// The position after the loss, where one is told here.
    #[inline(always)]
    fn past_loss(&self) -> ItemEnd
        ensures { result ≡ past_loss self.now }
    {
        ItemEnd {
            time: self.time,
            from: self.from,
            to: self.to,
        }
    }
}

/// The position after an item. No loss is told there, so that less is kept of it than of another [`Mark`].
#[derive(Clone, Copy, Debug)]
pub struct ItemEnd {
    pub(crate) time: u64,
    pub(crate) from: u32,
    pub(crate) to: u32,
}

impl ItemEnd {
    /// This position as any other.
    #[inline(always)]
    pub fn mark(&self) -> Mark
        ensures { result ≡ mark_of self.now }
    {
        Mark {
            loss: None,
            time: self.time,
            from: self.from,
            to: self.to,
        }
    }
}

/// The committed bytes from a position on.
pub(crate) fn bytes_behind(page: &[u8], mark: Mark) -> &[u8]
    requires forward { mark.from ≤ mark.to }
    requires within { mark.to ≤ length page.now }
    ensures { result.now ≡ bytes_from page.now mark }
{
    let (front, _) = page.split_at(mark.to as usize);
    let (_, rest) = front.split_at(mark.from as usize);
    rest
}

/// The same position, with everything passed over that tells no item.
pub(crate) fn settle(layout: &Layout, page: &[u8], mark: Mark) -> Mark
    requires { IsMark layout.now page.now mark }
    ensures same { items_from layout.now page.now result ≡ items_from layout.now page.now mark }
    ensures mark { IsMark layout.now page.now result }
{
    let (time, rest) = pass_silent(layout.order, mark.time, bytes_behind(page, mark));
    Mark {
        loss: mark.loss,
        time,
        from: mark.to - rest.len() as u32,
        to: mark.to,
    }
}

/// Which bytes of a sub-buffer are an item's payload, as plain numbers.
#[derive(Clone, Copy, Debug)]
pub struct Span {
    pub(crate) from: u32,
    pub(crate) len: u32,
}

impl Span {
    /// No bytes.
    pub const NONE: Span = Span { from: 0, len: 0 };
}

/// The item between a position and the one after it, as [`pass_item`] found them. It is not decoded again.
#[inline(always)]
pub fn item_between<'a>(page: &'a [u8], mark: &Mark, behind: &ItemEnd, payload: Span) -> Item<'a>
    requires { IsInside page.now payload }
    ensures { item_view result ≡ item_between page.now mark.now behind.now payload }
{
    match mark.loss {
        Some(loss) => Item::Loss {
            time: loss.time,
            count: loss.count,
        },
        None => {
            let (_, rest) = page.split_at(payload.from as usize);
            let (payload, _) = rest.split_at(payload.len as usize);
            Item::Event {
                time: behind.time,
                payload,
            }
        }
    }
}

/// The position after the first event from a position on, whatever stands before it, and its payload.
#[inline(never)]
fn pass_next(layout: Layout, page: &[u8], start: ItemEnd) -> Option<(ItemEnd, Span)>
    requires { IsMark layout page.now (mark_of start) }
    ensures { IsPassed layout page.now (mark_of start) result }
{
    match next_event(layout.order, start.time, bytes_behind(page, start.mark())) {
        Next::Event {
            time,
            payload,
            rest,
        } => {
            let from = start.to - rest.len() as u32;
            let behind = ItemEnd {
                time,
                from,
                to: start.to,
            };
            let len = payload.len();
            let filled = filled_up(len) as u32;
            let payload = Span {
                from: from - filled,
                len: len as u32,
            };
            Some((behind, payload))
        }
        // The bytes from a position on can be read.
        Next::Done | Next::Malformed => None,
    }
}

/// The position after the event at a position at which no loss is told, and its payload. Most events have their length in
/// their first word.
#[inline(always)]
fn pass_event(layout: &Layout, page: &[u8], start: ItemEnd) -> Option<(ItemEnd, Span)>
    requires { IsMark layout.now page.now (mark_of start) }
    ensures { IsPassed layout.now page.now (mark_of start) result }
{
    match short_event(layout.order, start.time, bytes_behind(page, start.mark())) {
        Some((time, len)) => {
            let from = start.from + 4;
            let behind = ItemEnd {
                time,
                from: from + len,
                to: start.to,
            };
            Some((behind, Span { from, len }))
        }
        None => {
            // Taken apart, so that what is found above stands in no place that the call writes to.
            let (behind, payload) = pass_next(*layout, page, start)?;
            Some((behind, payload))
        }
    }
}

/// The position after the item at a position, and the item's payload.
#[inline(always)]
pub fn pass_item(layout: &Layout, page: &[u8], mark: Mark) -> Option<(ItemEnd, Span)>
    requires { IsMark layout.now page.now mark }
    ensures { IsPassed layout.now page.now mark result }
{
    let start = mark.past_loss();
    if mark.loss.is_some() {
        return Some((start, Span::NONE));
    }
    pass_event(layout, page, start)
}

/// The item at a position, and the position after it.
pub fn first_at<'a>(layout: &Layout, page: &'a [u8], mark: Mark) -> Option<(Item<'a>, Mark)>
    requires { IsMark layout.now page.now mark }
    ensures { IsFirst layout.now page.now mark result }
{
    let (behind, payload) = pass_item(layout, page, mark)?;
    Some((item_between(page, &mark, &behind, payload), behind.mark()))
}
