ghost use Rattle.std.specs.Prelude.{◌≡◌, ◌<◌, ◌^◌, ◌≤◌, ◌+◌, ◌-◌, ◌++◌, drop, length, option_map, Some};
ghost use Rattle.std.specs.Option.{option_or};
ghost use Rattle.subpage.specs.Left.{loss_items};
ghost use Rattle.subpage.specs.Reading.{walk};
ghost use Rattle.subpage.specs.Summary.{summary_of};

use crate::loss::Loss;
use crate::next::{Next, next_event};
use crate::reading::claimed_event;
use trace_base::Order;

/// How many items there are, and when the first and the last are.
#[derive(Clone, Copy, Debug)]
pub struct Summary {
    pub count: u32,
    pub first: Option<u64>,
    pub last: Option<u64>,
}

fn summary_of_loss(loss: Option<Loss>) -> Summary
    ensures { result ≡ summary_of (loss_items loss) }
{
    match loss {
        None => Summary {
            count: 0,
            first: None,
            last: None,
        },
        Some(loss) => Summary {
            count: 1,
            first: Some(loss.time),
            last: Some(loss.time),
        },
    }
}

/// One event more, after all others.
#[inline(always)]
fn with_event(summary: Summary, time: u64) -> Summary
    requires { summary.count < 2 ^ 32 - 1 }
    ensures count { result.count ≡ summary.count + 1 }
    ensures first { result.first ≡ option_or summary.first (Some time) }
    ensures last { result.last ≡ Some time }
{
    Summary {
        count: summary.count + 1,
        first: summary.first.or(Some(time)),
        last: Some(time),
    }
}

/// The bytes after the first `len`.
#[inline(always)]
fn bytes_past(bytes: &[u8], len: usize) -> &[u8]
    requires { len ≤ length bytes.now }
    ensures { result.now ≡ drop len bytes.now }
{
    let (_, rest) = bytes.split_at(len);
    rest
}

/// A summary of the items, where the bytes can be read. Most events have their length in their first word, and are passed over
/// before anything else is looked for. Whether they end past the bytes is asked once, after the last of them.
#[inline(always)]
fn summarize_in(order: Order, loss: Option<Loss>, start: u64, bytes: &[u8]) -> Option<Summary>
    requires { length bytes.now < 2 ^ 31 }
    ensures { result
        ≡ option_map (λ xs. summary_of (loss_items loss ++ xs)) (walk order start bytes.now) }
{
    let mut summary = summary_of_loss(loss);
    let mut time = start;
    let mut from = 0;
    loop {
        if let Some((after, behind)) = claimed_event(order, time, bytes, from) {
            summary = with_event(summary, after);
            time = after;
            from = behind;
        } else {
            if bytes.len() < from {
                return None;
            }
            match next_event(order, time, bytes_past(bytes, from)) {
                Next::Event {
                    time: after,
                    rest,
                    ..
                } => {
                    summary = with_event(summary, after);
                    time = after;
                    from = bytes.len() - rest.len();
                }
                Next::Done => return Some(summary),
                Next::Malformed => return None,
            }
        }
    }
}

/// A summary of the items, where the bytes can be read.
pub fn summarize(loss: Option<Loss>, order: Order, start: u64, bytes: &[u8]) -> Option<Summary>
    requires { length bytes.now < 2 ^ 31 }
    ensures { result
        ≡ option_map (λ xs. summary_of (loss_items loss ++ xs)) (walk order start bytes.now) }
{
    // A loop for each order, so that no event asks for it.
    match order {
        Order::Little => summarize_in(Order::Little, loss, start, bytes),
        Order::Big => summarize_in(Order::Big, loss, start, bytes),
    }
}
