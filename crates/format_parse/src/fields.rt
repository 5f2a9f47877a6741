// The field that a field line declares.

ghost use Rattle.std.specs.Prelude.{◌≡◌, IfOk};
ghost use Rattle.trace_base.specs.FieldReading.{field_view};
ghost use Rattle.format_parse.specs.FieldKinds.{field_of, kind_of, place_of, element_of, dynamic_kind, fixed_kind, is_text, has_star};

use crate::words::after_front;
use std::alloc::{AllocError, Global};
use trace_base::{ByteText, Field, FieldKind, FieldLine, FieldPlace};

/// The field that the line declares.
#[tactic(auto, unfolding(crate::specs::FieldKinds::field_of))]
pub(crate) fn field_of(alloc: Global, line: &FieldLine<'_>) -> Result<Field, AllocError>
    ensures { IfOk result (λ field. field ≡ field_of (field_view line.now)) }
{
    let name = ByteText::copy(alloc, line.name)?;
    Ok(Field {
        name,
        offset: line.offset,
        size: line.size,
        signed: line.signed,
        kind: kind_of(line),
        place: place_of(line.kind_text),
        element: element_of(line.size, line.count),
    })
}

#[tactic(auto, unfolding(crate::specs::FieldKinds::place_of))]
fn place_of(kind_text: &[u8]) -> FieldPlace
    ensures { result ≡ place_of kind_text.now }
{
    if after_front(b"__data_loc ", kind_text).is_some() {
        FieldPlace::DataLoc
    } else if after_front(b"__rel_loc ", kind_text).is_some() {
        FieldPlace::RelLoc
    } else {
        FieldPlace::Fixed
    }
}

#[tactic(auto, unfolding(crate::specs::FieldKinds::kind_of))]
fn kind_of(line: &FieldLine<'_>) -> FieldKind
    ensures { result ≡ kind_of (field_view line.now) }
{
    if let Some(rest) = after_front(b"__data_loc ", line.kind_text) {
        return dynamic_kind(rest);
    }
    if let Some(rest) = after_front(b"__rel_loc ", line.kind_text) {
        return dynamic_kind(rest);
    }
    fixed_kind(line.kind_text, line.array, line.size)
}

fn dynamic_kind(rest: &[u8]) -> FieldKind
    ensures { result ≡ dynamic_kind rest.now }
{
    if rest == b"char[]".as_slice() {
        FieldKind::Text
    } else {
        FieldKind::Bytes
    }
}

fn fixed_kind(kind_text: &[u8], array: bool, size: u32) -> FieldKind
    ensures { result ≡ fixed_kind kind_text.now array size }
{
    if array {
        if is_text(kind_text) {
            FieldKind::Text
        } else {
            FieldKind::Bytes
        }
    } else if has_star(kind_text) && (size == 4 || size == 8) {
        FieldKind::Pointer
    } else if size == 1 || size == 2 || size == 4 || size == 8 {
        FieldKind::Number
    } else {
        FieldKind::Bytes
    }
}

fn is_text(kind_text: &[u8]) -> bool
    ensures { result ≡ is_text kind_text.now }
{
    kind_text == b"char".as_slice() || kind_text == b"const char".as_slice()
}

fn has_star(kind_text: &[u8]) -> bool
    ensures { result ≡ has_star kind_text.now }
{
    match kind_text.last() {
        Some(last) => *last == b'*',
        None => false,
    }
}

fn element_of(size: u32, count: u32) -> u32
    ensures { result ≡ element_of size count }
{
    if count != 0 && size % count == 0 {
        size / count
    } else {
        1
    }
}
