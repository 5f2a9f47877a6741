ghost use Rattle.std.specs.Prelude.{◌≡◌, ◌-◌, [], drop, length, IsTrue, ℕ};
ghost use Rattle.subpage.specs.ElementView.{element_view};
ghost use Rattle.subpage.specs.ItemData.{told_by};
ghost use Rattle.subpage.specs.NextEvent.{HasPayload, IsNext, IsSuffix};
ghost use Rattle.subpage.specs.Reading.{walk};

use crate::element::Element;
use crate::reading::split_element;
use crate::running_time::time_behind;
use trace_base::Order;

/// What follows in a sub-buffer's committed bytes.
#[derive(Clone, Copy, Debug)]
pub enum Next<'a> {
    /// An event, the running time after it, and the bytes after it.
    Event {
        time: u64,
        payload: &'a [u8],
        rest: &'a [u8],
    },
    /// No further event.
    Done,
    /// Bytes that no elements spell, or a running time of 2^64 or more.
    Malformed,
}

/// The next event, from a running time on.
#[inline(never)]
pub fn next_event(order: Order, start: u64, bytes: &[u8]) -> Next<'_>
    ensures next { IsNext order start bytes.now result }
    ensures suffix { IsSuffix bytes.now result }
    ensures payload { HasPayload bytes.now result }
{
    let mut time = start;
    let mut rest = bytes;
    while !rest.is_empty() {
        let Some((element, behind)) = split_element(order, rest) else {
            return Next::Malformed;
        };
        let Some(after) = time_behind(time, &element) else {
            return Next::Malformed;
        };
        time = after;
        rest = behind;
        if let Element::Event { payload, .. } = element {
            return Next::Event {
                time,
                payload,
                rest,
            };
        }
    }
    Next::Done
}

/// Whether an element tells no item.
fn is_silent(element: &Element<'_>) -> bool
    ensures { IsTrue result → (time : ℕ) → told_by time (element_view element.now) ≡ [] }
{
    match *element {
        Element::Event { .. } => false,
        Element::End | Element::Discarded { .. } | Element::Extend { .. } | Element::Stamp { .. } =>
            true,
    }
}

/// The running time and the bytes at the next event: the elements before it are passed over.
pub fn pass_silent(order: Order, start: u64, bytes: &[u8]) -> (u64, &[u8])
    ensures same { walk order result.0 result.1.now ≡ walk order start bytes.now }
    ensures suffix { result.1.now ≡ drop (length bytes.now - length result.1.now) bytes.now }
{
    let mut time = start;
    let mut rest = bytes;
    loop {
        let Some((element, behind)) = split_element(order, rest) else {
            return (time, rest);
        };
        if !is_silent(&element) {
            return (time, rest);
        }
        let Some(after) = time_behind(time, &element) else {
            return (time, rest);
        };
        time = after;
        rest = behind;
    }
}
