ghost use Rattle.std.specs.Prelude.{◌≡◌, IfOk};
ghost use Rattle.std.specs.Option.{option_copied};
ghost use Rattle.trace_base.specs.Fields.{field_named, has_number, is_number};

use crate::byte_text::ByteText;
use std::alloc::{AllocError, Global};

/// What a field of a record is.
#[derive(Clone, Copy, Debug, PartialEq, Eq)]
pub enum FieldKind {
    /// A number of 1, 2, 4 or 8 bytes.
    Number,
    /// Characters, up to the first NUL or the field's end.
    Text,
    /// Bytes without a further meaning.
    Bytes,
    /// An address of 4 or 8 bytes.
    Pointer,
}

impl FieldKind {
    /// Whether it is a number, which alone may have a sign.
    #[inline(always)]
    pub fn is_number(self) -> bool
        ensures { result ≡ is_number self }
    {
        match self {
            FieldKind::Number => true,
            FieldKind::Text | FieldKind::Bytes | FieldKind::Pointer => false,
        }
    }

    /// Whether it has a value as a number: an address has one too.
    #[inline(always)]
    pub fn has_number(self) -> bool
        ensures { result ≡ has_number self }
    {
        match self {
            FieldKind::Number | FieldKind::Pointer => true,
            FieldKind::Text | FieldKind::Bytes => false,
        }
    }
}

/// Where the bytes of a field stand in its record (the kernel's `__data_loc` and `__rel_loc`).
#[derive(Clone, Copy, Debug, PartialEq, Eq)]
pub enum FieldPlace {
    /// At the field's own offset.
    Fixed,
    /// Where a word at the field's offset says, counted from the record's first byte.
    DataLoc,
    /// Where a word at the field's offset says, counted from the end of the field.
    RelLoc,
}

/// A field of an event's record (Documentation/trace/events.rst, 'Event formats'). Places and sizes are in bytes.
#[derive(Drop)]
pub struct Field {
    /// Its name, an identifier.
    pub name: ByteText,
    /// Where it stands in the record.
    pub offset: u32,
    /// How long it is there; 0 for one that reaches to the record's end.
    pub size: u32,
    /// Whether its numbers have a sign.
    pub signed: bool,
    /// What it is.
    pub kind: FieldKind,
    /// Where its bytes stand.
    pub place: FieldPlace,
    /// How long one of its elements is.
    pub element: u32,
}

impl Field {
    /// A copy of the field.
    pub fn copy(&self, alloc: Global) -> Result<Field, AllocError>
        ensures { IfOk result (λ field. field ≡ self.now) }
    {
        let name = ByteText::copy(alloc, self.name.as_bytes())?;
        Ok(Field {
            name,
            offset: self.offset,
            size: self.size,
            signed: self.signed,
            kind: self.kind,
            place: self.place,
            element: self.element,
        })
    }
}

/// The first field of this name.
pub fn field_named<'a>(name: &[u8], fields: &'a [Field]) -> Option<&'a Field>
    ensures { option_copied result ≡ field_named name.now fields.now }
{
    fields.iter().find(|field| field.name.as_bytes() == name)
}
