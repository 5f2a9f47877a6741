// Pieces put into a buffer at a place.

ghost use Rattle.std.specs.Prelude.{◌≡◌, ◌+◌, ◌≤◌, ◌<◌, ◌^◌, ◌*◌, ◌⊎◌, ◌++◌, drop, length, false};
ghost use Rattle.trace_base.specs.Number.{bytes_of};
ghost use Rattle.page_write.specs.Record.{is_short, pair_word, first_word, event_text, extend_text, record_text, zeros};
ghost use Rattle.page_write.specs.Fill.{event_len, record_len};
ghost use Rattle.page_write.specs.PageBytes.{IsPut, put_at};

use crate::bits::DELTA_BITS;
use subpage::filled_up;
use trace_base::{Order, put_u32, put_u64};

/// The kind of element that a time extend is.
const EXTEND: u32 = 30;

// Whether the first word has room for the length of a payload: from one to 28 words, and whole ones.
fn is_in_first_word(len: usize) -> bool
    ensures { result ≡ is_short len }
{
    matches!(len, 4..=112) && len % 4 == 0
}

/// Where an event ends that begins at a place and is so much later than what stands before it.
#[tactic(auto, unfolding(crate::specs::Fill::record_len, crate::specs::Fill::event_len))]
pub fn end_of_record(at: usize, step: u64, len: usize) -> usize
    requires place { at ≤ 2 ^ 32 }
    requires few { len < 2 ^ 32 }
    ensures { result ≡ at + record_len step len }
{
    let event_at = if step < 1 << DELTA_BITS { at } else { at + 8 };
    if is_in_first_word(len) {
        event_at + 4 + len
    } else {
        event_at + 8 + filled_up(len)
    }
}

/// Puts these bytes.
#[tactic(auto, unfolding(crate::specs::PageBytes::put_at))]
pub fn put_piece(at: usize, piece: &[u8], into: &mut [u8])
    requires { at + length piece.now ≤ length into.old }
    ensures { into.new ≡ put_at at piece.now into.old }
{
    into[at..at + piece.len()].copy_from_slice(piece);
}

/// Puts so many zero bytes.
#[tactic(auto, unfolding(crate::specs::PageBytes::put_at))]
pub fn put_zeros(at: usize, count: usize, into: &mut [u8])
    requires { at + count ≤ length into.old }
    ensures { into.new ≡ put_at at (zeros count) into.old }
{
    into[at..at + count].fill(0);
}

// Sets the first four bytes to the number: in a given order that is one store, in any order it would be four of a byte each.
fn set_word(order: Order, value: u32, into: &mut [u8])
    requires { 4 ≤ length into.old }
    ensures { into.new ≡ bytes_of order 4 value ++ drop 4 into.old }
{
    match order {
        Order::Little => put_u32(Order::Little, value, into),
        Order::Big => put_u32(Order::Big, value, into),
    }
}

// Puts a word of 32 bits.
fn put_word(order: Order, value: u32, at: usize, into: &mut [u8])
    requires { at + 4 ≤ length into.old }
    ensures { into.new ≡ put_at at (bytes_of order 4 value) into.old }
{
    let (_, rest) = into.split_at_mut(at);
    set_word(order, value, rest);
}

/// Puts a kernel's long, which has 4 or 8 bytes.
pub fn put_long(order: Order, size: u32, value: u64, at: usize, into: &mut [u8])
    requires size { (size ≡ 4) ⊎ (size ≡ 8) }
    requires fits { value < 256 ^ size }
    requires room { at + size ≤ length into.old }
    ensures { into.new ≡ put_at at (bytes_of order size value) into.old }
{
    let (_, rest) = into.split_at_mut(at);
    if size == 4 {
        put_u32(order, value as u32, rest);
    } else {
        put_u64(order, value, rest);
    }
}

// The number of an element's first word: five bits for its kind and 27 for a time.
fn pair_word_of(order: Order, kind: u32, delta: u32) -> u32
    requires kind { kind < 32 }
    requires delta { delta < 2 ^ 27 }
    ensures { result ≡ pair_word order kind delta }
{
    match order {
        Order::Little => kind + 32 * delta,
        Order::Big => kind * (1 << DELTA_BITS) + delta,
    }
}

// Puts the first word of an element.
#[tactic(auto, unfolding(crate::specs::Record::first_word))]
fn put_first_word(order: Order, kind: u32, delta: u32, at: usize, into: &mut [u8])
    requires kind { kind < 32 }
    requires delta { delta < 2 ^ 27 }
    requires room { at + 4 ≤ length into.old }
    ensures { into.new ≡ put_at at (first_word order kind delta) into.old }
{
    put_word(order, pair_word_of(order, kind, delta), at, into);
}

// Puts an event whose first word does not tell the length of its payload, and gives the place after it.
#[inline(never)]
#[tactic(auto, unfolding(crate::specs::Fill::event_len))]
fn put_long_event(order: Order, delta: u32, payload: &[u8], at: usize, into: &mut [u8]) -> usize
    requires long { is_short (length payload.now) ≡ false }
    requires delta { delta < 2 ^ 27 }
    requires few { length payload.now < 2 ^ 31 }
    requires room { at + event_len (length payload.now) ≤ length into.old }
    ensures { IsPut at (event_text order delta payload.now) into.old into.new result }
{
    let len = payload.len();
    let filled = filled_up(len);
    put_first_word(order, 0, delta, at, into);
    put_word(order, len as u32 + 4, at + 4, into);
    put_piece(at + 8, payload, into);
    put_zeros(at + 8 + len, filled - len, into);
    at + 8 + filled
}

// Puts an event, and gives the place after it.
#[inline(always)]
#[tactic(auto, unfolding(crate::specs::Fill::event_len))]
fn put_event(order: Order, delta: u32, payload: &[u8], at: usize, into: &mut [u8]) -> usize
    requires delta { delta < 2 ^ 27 }
    requires few { length payload.now < 2 ^ 31 }
    requires room { at + event_len (length payload.now) ≤ length into.old }
    ensures { IsPut at (event_text order delta payload.now) into.old into.new result }
{
    let len = payload.len();
    if is_in_first_word(len) {
        put_first_word(order, (len / 4) as u32, delta, at, into);
        put_piece(at + 4, payload, into);
        at + 4 + len
    } else {
        put_long_event(order, delta, payload, at, into)
    }
}

// Puts a time extend.
fn put_extend(order: Order, step: u64, at: usize, into: &mut [u8])
    requires step { step < 2 ^ 59 }
    requires room { at + 8 ≤ length into.old }
    ensures { into.new ≡ put_at at (extend_text order step) into.old }
{
    put_first_word(order, EXTEND, (step % (1 << DELTA_BITS)) as u32, at, into);
    put_word(order, (step / (1 << DELTA_BITS)) as u32, at + 4, into);
}

// Puts an event after a step of time that needs a time extend, and gives the place after it.
#[inline(never)]
#[tactic(auto, unfolding(crate::specs::Fill::record_len))]
fn put_far_record(order: Order, step: u64, payload: &[u8], at: usize, into: &mut [u8]) -> usize
    requires far { 2 ^ 27 ≤ step }
    requires step { step < 2 ^ 59 }
    requires few { length payload.now < 2 ^ 31 }
    requires room { at + record_len step (length payload.now) ≤ length into.old }
    ensures { IsPut at (record_text order step payload.now) into.old into.new result }
{
    put_extend(order, step, at, into);
    put_event(order, 0, payload, at + 8, into)
}

/// Puts an event after a step of time, with a time extend where the step needs it, and gives the place after it.
#[inline(always)]
#[tactic(auto, unfolding(crate::specs::Fill::record_len))]
pub fn put_record(order: Order, step: u64, payload: &[u8], at: usize, into: &mut [u8]) -> usize
    requires step { step < 2 ^ 59 }
    requires few { length payload.now < 2 ^ 31 }
    requires room { at + record_len step (length payload.now) ≤ length into.old }
    ensures { IsPut at (record_text order step payload.now) into.old into.new result }
{
    if step < 1 << DELTA_BITS {
        put_event(order, step as u32, payload, at, into)
    } else {
        put_far_record(order, step, payload, at, into)
    }
}
