// The elements of committed bytes, read from the front: each function gives what it read, and the bytes after it.

ghost use Rattle.std.specs.Prelude.{◌≡◌, ◌-◌, ◌^◌, ◌<◌, ◌≤◌, IfSome, length, option_map};
ghost use Rattle.subpage.specs.Element.{round4, type_len, time_delta};
ghost use Rattle.subpage.specs.ElementView.{split_view};
ghost use Rattle.subpage.specs.NextEvent.{IsClaimed, IsShort};
ghost use Rattle.subpage.specs.PlainRecord.{IsPlainFront, IsPlainFrom};
ghost use Rattle.subpage.specs.Reading.{word_at, counted_at, short_event_at, long_event_at, discarded_at, extend_at, stamp_at, rest_at, element_at};

use crate::element::Element;
use crate::running_time::time_past;
use trace_base::{Order, read_u32};

/// How many bits of a first word are its delta; the word after it goes on above them.
const DELTA_BITS: u32 = 27;

const DELTA_MASK: u32 = (1 << DELTA_BITS) - 1;

fn type_len_of(order: Order, word: u32) -> u32
    ensures value { result ≡ type_len order word }
    ensures five_bits { result < 32 }
{
    match order {
        Order::Little => word & 0x1f,
        Order::Big => word >> DELTA_BITS,
    }
}

fn time_delta_of(order: Order, word: u32) -> u32
    ensures value { result ≡ time_delta order word }
    ensures bits { result < 2 ^ 27 }
{
    match order {
        Order::Little => word >> 5,
        Order::Big => word & DELTA_MASK,
    }
}

#[tactic(auto, unfolding(crate::specs::Reading::word_at))]
fn split_word(order: Order, bytes: &[u8]) -> Option<(u32, &[u8])>
    ensures { option_map (λ x. (x.0, x.1.now)) result ≡ word_at order bytes.now }
{
    if bytes.len() < 4 {
        return None;
    }
    let (_, rest) = bytes.split_at(4);
    Some((read_u32(order, bytes), rest))
}

/// A length rounded up to whole words.
pub fn filled_up(len: usize) -> usize
    requires { len < 2 ^ 32 }
    ensures { result ≡ round4 len }
{
    (len + 3) / 4 * 4
}

/// A length that counts its own word, and the bytes that it counts, padded to whole words.
#[tactic(auto, unfolding(crate::specs::Reading::counted_at))]
fn split_counted(order: Order, bytes: &[u8]) -> Option<(u32, &[u8], &[u8])>
    ensures value { option_map (λ x. (x.0, x.1.now, x.2.now)) result ≡ counted_at order bytes.now }
    ensures room { IfSome result (λ x. (4 ≤ x.0) × (x.0 - 4 ≤ length x.1.now)) }
{
    let (len, after) = split_word(order, bytes)?;
    if len < 4 {
        return None;
    }
    let filled = filled_up(len as usize) - 4;
    if after.len() < filled {
        return None;
    }
    let (counted, rest) = after.split_at(filled);
    Some((len, counted, rest))
}

#[tactic(auto, unfolding(crate::specs::Reading::short_event_at))]
fn split_short_event(kind: u32, delta: u32, bytes: &[u8]) -> Option<(Element<'_>, &[u8])>
    requires { kind < 32 }
    ensures { option_map split_view result ≡ short_event_at kind delta bytes.now }
{
    let len = 4 * kind as usize;
    if bytes.len() < len {
        return None;
    }
    let (payload, rest) = bytes.split_at(len);
    Some((Element::Event { delta, payload }, rest))
}

#[tactic(auto, unfolding(crate::specs::Reading::long_event_at))]
fn split_long_event(order: Order, delta: u32, bytes: &[u8]) -> Option<(Element<'_>, &[u8])>
    ensures { option_map split_view result ≡ long_event_at order delta bytes.now }
{
    let (len, counted, rest) = split_counted(order, bytes)?;
    let payload = &counted[..len as usize - 4];
    Some((Element::Event { delta, payload }, rest))
}

#[tactic(auto, unfolding(crate::specs::Reading::discarded_at))]
fn split_discarded(order: Order, delta: u32, bytes: &[u8]) -> Option<(Element<'_>, &[u8])>
    ensures { option_map split_view result ≡ discarded_at order delta bytes.now }
{
    let (_, _, rest) = split_counted(order, bytes)?;
    Some((Element::Discarded { delta }, rest))
}

#[tactic(auto, unfolding(crate::specs::Reading::extend_at))]
fn split_extend(order: Order, low: u32, bytes: &[u8]) -> Option<(Element<'_>, &[u8])>
    ensures { option_map split_view result ≡ extend_at order low bytes.now }
{
    let (high, rest) = split_word(order, bytes)?;
    let delta = u64::from(low) + (u64::from(high) << DELTA_BITS);
    Some((Element::Extend { delta }, rest))
}

#[tactic(auto, unfolding(crate::specs::Reading::stamp_at))]
fn split_stamp(order: Order, low: u32, bytes: &[u8]) -> Option<(Element<'_>, &[u8])>
    requires { low < 2 ^ 27 }
    ensures { option_map split_view result ≡ stamp_at order low bytes.now }
{
    let (high, rest) = split_word(order, bytes)?;
    let time = u64::from(low) + (u64::from(high) << DELTA_BITS);
    Some((Element::Stamp { time }, rest))
}

/// The element whose first word has this kind and delta.
#[tactic(auto, unfolding(crate::specs::Reading::rest_at))]
fn split_rest(order: Order, kind: u32, delta: u32, bytes: &[u8]) -> Option<(Element<'_>, &[u8])>
    requires kind { kind < 32 }
    requires delta { delta < 2 ^ 27 }
    ensures { option_map split_view result ≡ rest_at order kind delta bytes.now }
{
    match kind {
        0 => split_long_event(order, delta, bytes),
        1..=28 => split_short_event(kind, delta, bytes),
        29 if delta == 0 => Some((Element::End, &bytes[bytes.len()..])),
        29 => split_discarded(order, delta, bytes),
        30 => split_extend(order, delta, bytes),
        // Only 31 is left.
        _ => split_stamp(order, delta, bytes),
    }
}

/// The element at the front.
#[tactic(auto, unfolding(crate::specs::Reading::element_at))]
pub fn split_element(order: Order, bytes: &[u8]) -> Option<(Element<'_>, &[u8])>
    ensures { option_map split_view result ≡ element_at order bytes.now }
{
    let (word, after) = split_word(order, bytes)?;
    let kind = type_len_of(order, word);
    split_rest(order, kind, time_delta_of(order, word), after)
}

/// The running time after the event at the front and its payload's length, where its first word tells the length.
#[inline(always)]
pub fn short_event(order: Order, time: u64, bytes: &[u8]) -> Option<(u64, u32)>
    ensures told { IsShort order time bytes.now result }
    ensures plain { IsPlainFront order time bytes.now result }
{
    if bytes.len() < 4 {
        return None;
    }
    let word = read_u32(order, bytes);
    let kind = type_len_of(order, word);
    if kind == 0 || kind > 28 {
        return None;
    }
    let len = 4 * kind;
    if bytes.len() < 4 + len as usize {
        return None;
    }
    let Some(after) = time_past(time, time_delta_of(order, word)) else {
        return None;
    };
    Some((after, len))
}

/// What the word at a place claims of an event: the running time after it, and the place after it, wherever the bytes end. `None`
/// where no whole word stands there, or it does not tell a payload's length, or the time is too late.
#[inline(always)]
pub fn claimed_event(order: Order, time: u64, bytes: &[u8], from: usize) -> Option<(u64, usize)>
    ensures { IfSome result (λ event. IsClaimed order time bytes.now from event.0 event.1) }
{
    if bytes.len() < 4 || bytes.len() - 4 < from {
        return None;
    }
    let (_, rest) = bytes.split_at(from);
    let word = read_u32(order, rest);
    let kind = type_len_of(order, word);
    if kind == 0 || kind > 28 {
        return None;
    }
    let Some(after) = time_past(time, time_delta_of(order, word)) else {
        return None;
    };
    Some((after, from + 4 + 4 * kind as usize))
}

/// The delta of the event at a place and the place after it, where its first word tells the length of its payload.
#[inline(always)]
pub fn plain_event(order: Order, bytes: &[u8], from: usize) -> Option<(u32, usize)>
    requires { from ≤ length bytes.now }
    ensures { IsPlainFrom order bytes.now from result }
{
    if bytes.len() < from + 4 {
        return None;
    }
    let (_, rest) = bytes.split_at(from);
    let word = read_u32(order, rest);
    let kind = type_len_of(order, word);
    if kind == 0 || kind > 28 {
        return None;
    }
    let behind = from + 4 + 4 * kind as usize;
    if bytes.len() < behind {
        return None;
    }
    Some((time_delta_of(order, word), behind))
}
