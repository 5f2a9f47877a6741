// The numbers of fields, of their elements and of their lengths.

use super::samples::{PAYLOAD, boxed, field, int, rec};
use fmt_eval::{Num, number};
use fmt_expr::CKind::{I32, I64, U32, U64};
use fmt_expr::{CKind, Expr};
use std::alloc::{AllocError, Global};
use trace_base::FieldKind;

/// The place, size and sign of a field, and its number.
type FieldRow = (u32, u32, bool, u64, CKind);

const FIELDS: [FieldRow; 10] = [
    (4, 1, true, 0xffffffffffffffff, I32),
    (4, 1, false, 0xff, I32),
    (6, 2, true, 0xfffffffffffffffe, I32),
    (6, 2, false, 0xfffe, I32),
    (4, 4, true, 0xfffffffffffeffff, I32),
    (4, 4, false, 0xfffeffff, U32),
    (4, 8, true, 0x00030005fffeffff, I64),
    (4, 8, false, 0x00030005fffeffff, U64),
    (13, 4, false, 0, U32),
    (4, 3, true, 0, I32),
];

fn field_gives(alloc: Global, row: &FieldRow) -> Result<bool, AllocError> {
    let (offset, size, signed, bits, kind) = *row;
    let field = field(alloc, FieldKind::Number, (offset, size), signed, size)?;
    Ok(number(&Expr::FieldNumber { field }, &rec(&PAYLOAD)) == Num { bits, kind })
}

/// The first row that does not hold.
fn wrong_field(alloc: Global, rows: &[FieldRow]) -> Result<Option<usize>, AllocError> {
    for (i, row) in rows.iter().enumerate() {
        if !field_gives(alloc, row)? {
            return Ok(Some(i));
        }
    }
    Ok(None)
}

/// Whether the element of two bytes at an index is this.
fn element_is(alloc: Global, index: u64, bits: u64) -> Result<bool, AllocError> {
    let expr = Expr::Element {
        field: field(alloc, FieldKind::Bytes, (4, 8), false, 2)?,
        index: boxed(alloc, int(index))?,
    };
    Ok(number(&expr, &rec(&PAYLOAD)) == Num { bits, kind: I32 })
}

#[test]
fn fields_have_the_kinds_of_their_sizes(rt: HostRuntime) -> Result<(), AllocError> {
    assert_eq!(rt; wrong_field(rt.alloc(), &FIELDS)?, None);
    Ok(())
}

#[test]
fn elements_and_lengths_are_numbers(rt: HostRuntime) -> Result<(), AllocError> {
    let alloc = rt.alloc();
    assert!(rt; element_is(alloc, 0, 0xffff)?);
    assert!(rt; element_is(alloc, 1, 0xfffe)?);
    assert!(rt; element_is(alloc, 3, 3)?);
    assert!(rt; element_is(alloc, 4, 0)?);
    assert!(rt; element_is(alloc, u64::MAX, 0)?);
    let length = Expr::Length {
        field: field(alloc, FieldKind::Bytes, (8, 4), false, 1)?,
    };
    assert_eq!(rt; number(&length, &rec(&PAYLOAD)), Num { bits: 3, kind: U32 });
    Ok(())
}
