//! The numbers that the fields of a record give.

ghost use Rattle.std.specs.Prelude.{◌≡◌, IfSome};
ghost use Rattle.trace_base.specs.Fields.{sized};
ghost use Rattle.fmt_eval.specs.Numbers.{number, reduced};
ghost use Rattle.fmt_eval.specs.NumView.{num_view};
ghost use Rattle.fmt_eval.specs.Reads.{placed};
ghost use Rattle.fmt_eval.specs.Values.{given, sized_kind, field_number, element_at, element, length_of};

use crate::num::{Num, sign_extended};
use fmt_expr::CKind;
use trace_base::{Field, FieldKind, Rec, bytes_of, number_of, sized, unsigned_at};

/// The kind of a number of so many bytes, after promotion.
fn sized_kind(signed: bool, size: u32) -> CKind
    ensures { result ≡ sized_kind signed size }
{
    if size < 4 {
        CKind::I32
    } else if size == 4 {
        if signed { CKind::I32 } else { CKind::U32 }
    } else if signed {
        CKind::I64
    } else {
        CKind::U64
    }
}

/// The number that four bytes are.
#[tactic(auto, using(crate::proofs::Reductions::signed_half, crate::proofs::Reductions::unsigned_half))]
fn half_number(signed: bool, bytes: u64) -> Num
    ensures { num_view result ≡ number (sized_kind signed 4) (reduced (sized_kind signed 4) (sized signed 4 bytes)) }
{
    let half = (bytes % 4_294_967_296) as u32;
    if signed {
        Num {
            bits: sign_extended(half),
            kind: CKind::I32,
        }
    } else {
        Num {
            bits: half as u64,
            kind: CKind::U32,
        }
    }
}

/// The number that eight bytes are.
#[tactic(auto, using(crate::proofs::Reductions::signed_whole, crate::proofs::Reductions::unsigned_whole))]
fn whole_number(signed: bool, bytes: u64) -> Num
    ensures { num_view result ≡ number (sized_kind signed 8) (reduced (sized_kind signed 8) (sized signed 8 bytes)) }
{
    Num {
        bits: bytes,
        kind: if signed { CKind::I64 } else { CKind::U64 },
    }
}

/// The number of four bytes of the payload.
#[inline(always)]
pub fn half_at(rec: &Rec<'_>, at: u32, signed: bool) -> Num
    ensures { num_view result ≡ placed (given rec.now) at 4 signed }
{
    half_number(signed, unsigned_at(rec.order, rec.payload, at as usize, 4))
}

/// The number of eight bytes of the payload.
#[inline(always)]
pub fn whole_at(rec: &Rec<'_>, at: u32, signed: bool) -> Num
    ensures { num_view result ≡ placed (given rec.now) at 8 signed }
{
    whole_number(signed, unsigned_at(rec.order, rec.payload, at as usize, 8))
}

/// The number of a field of four or eight bytes, which needs no wider number; none of any other.
#[inline(always)]
#[tactic(auto, unfolding(trace_base::specs::Fields::number_in))]
pub fn usual_number(rec: &Rec<'_>, field: &Field) -> Option<Num>
    ensures { IfSome result (λ n. num_view n ≡ field_number (given rec.now) field.now) }
{
    let signed = field.kind == FieldKind::Number && field.signed;
    match (field.kind, field.size) {
        (FieldKind::Number | FieldKind::Pointer, 4) => Some(half_at(rec, field.offset, signed)),
        (FieldKind::Number | FieldKind::Pointer, 8) => Some(whole_at(rec, field.offset, signed)),
        _ => None,
    }
}

/// The number of a field.
pub fn field_number(rec: &Rec<'_>, field: &Field) -> Num
    ensures { num_view result ≡ field_number (given rec.now) field.now }
{
    let signed = field.kind == FieldKind::Number && field.signed;
    match usual_number(rec, field) {
        Some(number) => number,
        None => Num::reduced(sized_kind(signed, field.size), number_of(rec, field)),
    }
}

#[tactic(auto, using(crate::proofs::Elements::past_element, crate::proofs::Elements::past_index))]
fn element_at(rec: &Rec<'_>, field: &Field, index: i128) -> i128
    ensures { result ≡ element_at (given rec.now) field.now index }
{
    let bytes = bytes_of(rec, field);
    if index < 0 {
        return 0;
    }
    if index >= bytes.len() as i128 {
        return 0;
    }
    let at = index as u128 * field.element as u128;
    if at >= bytes.len() as u128 {
        return 0;
    }
    sized(
        field.signed,
        field.element,
        unsigned_at(rec.order, bytes, at as usize, field.element),
    )
}

/// The number of an element of a field; 0 where the index is not inside.
pub fn element(rec: &Rec<'_>, field: &Field, index: i128) -> Num
    ensures { num_view result ≡ element (given rec.now) field.now index }
{
    Num::reduced(
        sized_kind(field.signed, field.element),
        element_at(rec, field, index),
    )
}

/// How many bytes a dynamic field has.
pub fn length_of(rec: &Rec<'_>, field: &Field) -> Num
    ensures { num_view result ≡ length_of (given rec.now) field.now }
{
    let word = unsigned_at(rec.order, rec.payload, field.offset as usize, 4);
    Num::reduced(CKind::U32, (word / 65_536) as i128)
}
