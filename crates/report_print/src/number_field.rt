// Where numbers stand in events.

ghost use Rattle.std.specs.Prelude.{◌≡◌, ◌%◌, ◌^◌, FitsSigned};
ghost use Rattle.std.specs.Int.{cast_unsigned, w32, w128};
ghost use Rattle.trace_base.specs.Fields.{field_named, sized, unsigned_in};
ghost use Rattle.report_print.specs.NumberFields.{counted_field, low_32, number_at, number_field, of_counted, of_number, place_of, signed_32};

use trace_base::{Field, Order, field_named, sized, unsigned_at};

/// Where a number stands in an event.
#[derive(Clone, Copy, Debug, PartialEq, Eq)]
pub struct NumberField {
    /// Its offset in the event, in bytes.
    pub offset: u32,
    /// Its length in bytes.
    pub size: u32,
    /// Whether it has a sign.
    pub signed: bool,
}

impl NumberField {
    fn at(field: &Field) -> NumberField
        ensures { result ≡ place_of field.now }
    {
        NumberField {
            offset: field.offset,
            size: field.size,
            signed: field.kind.is_number() && field.signed,
        }
    }

    /// Where a field stands that is a number.
    pub fn of(field: &Field) -> Option<NumberField>
        ensures { result ≡ number_field field.now }
    {
        if field.kind.is_number() {
            Some(NumberField::at(field))
        } else {
            None
        }
    }

    /// Where a field stands that is a number or an address.
    fn of_counted(field: &Field) -> Option<NumberField>
        ensures { result ≡ counted_field field.now }
    {
        if field.kind.has_number() {
            Some(NumberField::at(field))
        } else {
            None
        }
    }

    /// Where the first field of this name stands, if it is a number.
    pub fn named(name: &[u8], fields: &[Field]) -> Option<NumberField>
        ensures { result ≡ of_number (field_named name.now fields.now) }
    {
        NumberField::of(field_named(name, fields)?)
    }

    /// The same if it is a number or an address.
    pub fn counted(name: &[u8], fields: &[Field]) -> Option<NumberField>
        ensures { result ≡ of_counted (field_named name.now fields.now) }
    {
        NumberField::of_counted(field_named(name, fields)?)
    }

    /// The exact number, and 0 where one of its bytes is missing. The usual sizes are named, so that each is one read.
    #[inline(always)]
    pub fn number(self, order: Order, payload: &[u8]) -> i128
        ensures { result ≡ number_at order payload.now self }
    {
        let at = self.offset as usize;
        if self.size == 8 {
            return sized(self.signed, 8, unsigned_at(order, payload, at, 8));
        }
        if self.size == 4 {
            return sized(self.signed, 4, unsigned_at(order, payload, at, 4));
        }
        any_number(order, payload, self.offset, self.size, self.signed)
    }

    /// The number modulo 2^64.
    #[inline(always)]
    pub fn low_64(self, order: Order, payload: &[u8]) -> u64
        ensures { result ≡ cast_unsigned w128 (number_at order payload.now self) % 2 ^ 64 }
    {
        (self.number(order, payload).cast_unsigned() & 0xffff_ffff_ffff_ffff) as u64
    }

    /// The number modulo 2^32. No sign is extended, which would be cut off again.
    #[inline(always)]
    #[tactic(auto, unfolding(crate::specs::NumberFields::low_32), using(crate::proofs::CommonNumbers::four_bytes))]
    pub fn low_32(self, order: Order, payload: &[u8]) -> u32
        ensures { result ≡ low_32 order payload.now self }
    {
        let at = self.offset as usize;
        if self.size == 4 {
            return (unsigned_at(order, payload, at, 4) % 4_294_967_296) as u32;
        }
        if self.size == 2 && !self.signed {
            return (unsigned_at(order, payload, at, 2) % 4_294_967_296) as u32;
        }
        if self.size == 1 && !self.signed {
            return (unsigned_at(order, payload, at, 1) % 4_294_967_296) as u32;
        }
        let number = any_number(order, payload, self.offset, self.size, self.signed);
        (number.cast_unsigned() % 4_294_967_296) as u32
    }

    /// The same as a number with a sign.
    pub fn signed_32(self, order: Order, payload: &[u8]) -> i32
        ensures value { result ≡ signed_32 order payload.now self }
        ensures range { FitsSigned w32 result }
    {
        self.low_32(order, payload).cast_signed()
    }
}

/// The number of any size at an offset. It is told what it needs in numbers, so that a place need not lie in memory.
#[inline(never)]
fn any_number(order: Order, payload: &[u8], offset: u32, size: u32, signed: bool) -> i128
    ensures { result ≡ sized signed size (unsigned_in order payload.now offset size) }
{
    sized(
        signed,
        size,
        unsigned_at(order, payload, offset as usize, size),
    )
}
