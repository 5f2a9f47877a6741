// Runs of plain records, which can be copied as they stand.

ghost use Rattle.std.specs.Prelude.{◌≡◌, ◌+◌, ◌-◌, ◌^◌, ◌<◌, ◌≤◌, length, min, IfSome, None};
ghost use Rattle.subpage.specs.Marks.{IsMark};
ghost use Rattle.subpage.specs.PlainRecord.{IsFurther, IsPlainPassed, mark_at};
ghost use Rattle.subpage.specs.Run.{run_bytes, time_at, IsBetween, IsRunFound, IsRunTo, NonePlain};

use crate::mark::{Mark, bytes_behind};
use crate::reading::{plain_event, short_event};
use trace_base::{Layout, Order};

/// How far a run goes at most.
#[derive(Clone, Copy, Debug)]
pub struct RunLimits {
    /// So many bytes.
    pub bytes: u32,
    /// So many events.
    pub events: u32,
    /// No event later than this time.
    pub until: u64,
}

/// Where a run from a position on ends at the latest: so many bytes after it, or where the committed bytes end.
#[inline(always)]
fn end_within(mark: Mark, bytes: u32) -> u32
    requires { mark.from ≤ mark.to }
    ensures { result ≡ min (mark.from + bytes) mark.to }
{
    if bytes < mark.to - mark.from {
        return mark.from + bytes;
    }
    mark.to
}

/// The position after the plain record at a position, where the record ends no later than at `end`, and its event is no later
/// than `until`. No byte from `end` on is looked at.
#[inline(always)]
fn pass_plain(layout: &Layout, page: &[u8], mark: Mark, end: u32, until: u64) -> Option<Mark>
    requires mark { IsMark layout.now page.now mark }
    requires event { mark.loss ≡ None }
    requires forward { mark.from ≤ end }
    requires within { end ≤ mark.to }
    ensures passed { IsPlainPassed layout.now page.now mark end until result }
    ensures same { IfSome result (λ next. next.to ≡ mark.to) }
{
    let cut = Mark {
        loss: None,
        time: mark.time,
        from: mark.from,
        to: end,
    };
    let Some((time, len)) = short_event(layout.order, mark.time, bytes_behind(page, cut)) else {
        return None;
    };
    if until < time {
        return None;
    }
    Some(Mark {
        loss: None,
        time,
        from: mark.from + 4 + len,
        to: mark.to,
    })
}

/// How far a run has come.
#[derive(Clone, Copy, Debug)]
struct Reached {
    /// Where its bytes end.
    from: usize,
    /// How much later than its last event a further one may be.
    left: u64,
}

impl Reached {
    /// The position there, of a run whose events are no later than `until`.
    #[inline(always)]
    fn mark(&self, until: u64, to: u32) -> Mark
        requires from { self.now.from < 2 ^ 32 }
        requires left { self.now.left ≤ until }
        ensures { result ≡ mark_at until to self.now }
    {
        Mark {
            loss: None,
            time: until - self.left,
            from: self.from as u32,
            to,
        }
    }
}

/// One plain record further, where it ends within the bytes and its event is not too late. What moves from record to record is
/// only what the next one is tried against.
#[inline(always)]
fn pass_further(order: Order, bytes: &[u8], reached: Reached) -> Option<Reached>
    requires { reached.from ≤ length bytes.now }
    ensures { IsFurther order bytes.now reached result }
{
    let Some((delta, behind)) = plain_event(order, bytes, reached.from) else {
        return None;
    };
    let delta = u64::from(delta);
    if reached.left < delta {
        return None;
    }
    Some(Reached {
        from: behind,
        left: reached.left - delta,
    })
}

/// The position after a run that begins with one record, and how many records it has.
fn longest_run(
    layout: &Layout,
    page: &[u8],
    mark: Mark,
    first: Mark,
    end: u32,
    limits: RunLimits,
) -> (Mark, u32)
    requires first { IsRunTo layout.now page.now mark first 1 }
    requires end { first.from ≤ end }
    requires within { end ≤ first.to }
    requires in_time { time_at first ≤ limits.until }
    requires some { 0 < limits.events }
    ensures run { IsRunTo layout.now page.now mark result.0 result.1 }
    ensures some { 0 < result.1 }
    ensures few { result.1 ≤ limits.events }
    ensures end { result.0.from ≤ end }
    ensures same { result.0.to ≡ first.to }
    ensures in_time { time_at result.0 ≤ limits.until }
    ensures longest { result.1 < limits.events
        → NonePlain layout.now page.now result.0 (end - result.0.from) limits.until }
{
    let (bytes, _) = page.split_at(end as usize);
    let mut reached = Reached {
        from: first.from as usize,
        left: limits.until - first.time,
    };
    let mut more = limits.events - 1;
    while 0 < more {
        let Some(further) = pass_further(layout.order, bytes, reached) else {
            return (reached.mark(limits.until, first.to), limits.events - more);
        };
        reached = further;
        more -= 1;
    }
    (reached.mark(limits.until, first.to), limits.events)
}

/// The longest run of plain records from a position on within the limits: the position after it, and how many events it has.
/// `None` where a loss is told at the position, or no such record stands there.
///
/// A plain record is an event's whose first word tells the length of its payload. In a run they stand one right after
/// another, so that nothing moves the running time between them.
pub fn plain_run(
    layout: &Layout,
    page: &[u8],
    mark: Mark,
    limits: &RunLimits,
) -> Option<(Mark, u32)>
    requires { IsMark layout.now page.now mark }
    ensures { IsRunFound layout.now page.now mark limits.now result }
{
    if mark.loss.is_some() {
        return None;
    }
    if limits.events == 0 {
        return None;
    }
    let end = end_within(mark, limits.bytes);
    let Some(first) = pass_plain(layout, page, mark, end, limits.until) else {
        return None;
    };
    Some(longest_run(layout, page, mark, first, end, *limits))
}

/// The bytes between two positions.
pub fn run_between<'a>(page: &'a [u8], mark: &Mark, next: &Mark) -> &'a [u8]
    requires { IsBetween page.now mark.now next.now }
    ensures { result.now ≡ run_bytes page.now mark.now next.now }
{
    let (_, rest) = page.split_at(mark.from as usize);
    let (run, _) = rest.split_at((next.from - mark.from) as usize);
    run
}
