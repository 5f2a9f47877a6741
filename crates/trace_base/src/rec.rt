// The numbers and the bytes of a record's fields.

ghost use Rattle.std.specs.Prelude.{◌≡◌, ◌≤◌, ◌+◌, ◌<◌, ◌^◌, length, take, if◌then◌else◌};
ghost use Rattle.trace_base.specs.Number.{num};
ghost use Rattle.trace_base.specs.Fields.{is_size, half, sized, unsigned_in, signed_of, number_in, place_in, bytes_in};

use crate::field::{Field, FieldPlace};
use crate::numbers::{read_u16, read_u32, read_u64};
use crate::order::Order;

/// The payload of a record, with the order of its numbers.
#[derive(Clone, Copy, Drop)]
pub struct Rec<'a> {
    /// The order of every number in it.
    pub order: Order,
    /// Its bytes.
    pub payload: &'a [u8],
}

/// The unsigned number of so many bytes at a place; 0 where one of them is missing.
#[tactic(auto, unfolding(crate::specs::Fields::unsigned_in))]
pub fn unsigned_at(order: Order, payload: &[u8], at: usize, size: u32) -> u64
    ensures { result ≡ unsigned_in order payload.now at size }
{
    let size_len = size as usize;
    if payload.len() < size_len || payload.len() - size_len < at {
        return 0;
    }
    front(order, &payload[at..], size)
}

/// The unsigned number of so many bytes at the front.
fn front(order: Order, bytes: &[u8], size: u32) -> u64
    requires { size ≤ length bytes.now }
    ensures { result ≡ (if is_size size then num order (take size bytes.now) else 0) }
{
    match size {
        1 => bytes[0] as u64,
        2 => read_u16(order, bytes) as u64,
        4 => read_u32(order, bytes) as u64,
        8 => read_u64(order, bytes),
        _ => 0,
    }
}

/// The field's exact value; 0 where it is no number and no pointer, or where one of its bytes is missing.
#[tactic(auto, unfolding(crate::specs::Fields::number_in))]
pub fn number_of(rec: &Rec<'_>, field: &Field) -> i128
    ensures { result ≡ number_in rec.now.order rec.now.payload.now field.now }
{
    if !field.kind.has_number() {
        return 0;
    }
    let number = unsigned_at(rec.order, rec.payload, field.offset as usize, field.size);
    let signed = field.kind.is_number() && field.signed;
    sized(signed, field.size, number)
}

/// The value of a number of `size` bytes: as two's complement, if it is signed.
pub fn sized(signed: bool, size: u32, number: u64) -> i128
    ensures { result ≡ sized signed size number }
{
    if signed {
        signed_of(number, size)
    } else {
        number as i128
    }
}

fn half(size: u32) -> u64
    ensures { result ≡ half size }
{
    match size {
        1 => 0x80,
        2 => 0x8000,
        4 => 0x8000_0000,
        _ => 0x8000_0000_0000_0000,
    }
}

#[tactic(auto, unfolding(crate::specs::Fields::signed_of))]
fn signed_of(number: u64, size: u32) -> i128
    ensures { result ≡ signed_of size number }
{
    let half = half(size);
    if number < half {
        number as i128
    } else {
        number as i128 - 2 * half as i128
    }
}

/// Where a field's bytes begin, and how many there are if the payload has them.
#[tactic(auto, unfolding(crate::specs::Fields::place_in))]
fn place_of(rec: &Rec<'_>, field: &Field) -> (usize, usize)
    ensures { result ≡ place_in rec.now.order rec.now.payload.now field.now }
{
    let at = field.offset as usize;
    let size = field.size as usize;
    let word = unsigned_at(rec.order, rec.payload, at, 4) as usize;
    match field.place {
        FieldPlace::Fixed if size == 0 => (at, rec.payload.len()),
        FieldPlace::Fixed => (at, size),
        FieldPlace::DataLoc => (word % 65_536, word / 65_536),
        FieldPlace::RelLoc => (at + size + word % 65_536, word / 65_536),
    }
}

/// The field's bytes inside the payload.
#[tactic(auto, using(crate::proofs::FieldBytes::part_is, crate::proofs::FieldBytes::past), unfolding(crate::specs::Fields::bytes_in))]
pub fn bytes_of<'a>(rec: &Rec<'a>, field: &Field) -> &'a [u8]
    ensures { result.now ≡ bytes_in rec.now.order rec.now.payload.now field.now }
{
    let (start, len) = place_of(rec, field);
    if rec.payload.len() < start {
        return &[];
    }
    let from = &rec.payload[start..];
    let count = len.min(from.len());
    &from[..count]
}
