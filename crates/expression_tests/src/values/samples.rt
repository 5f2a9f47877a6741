// Trees and records.

use c_operators::BinaryOp;
use fmt_expr::CKind::I32;
use fmt_expr::{Expr, Operand};
use std::alloc::{AllocError, Global};
use trace_base::{ByteText, Field, FieldKind, FieldPlace, Order, Rec};

pub(super) const PAYLOAD: [u8; 16] = *b"ab\0d\xff\xff\xfe\xff\x05\x00\x03\x00wxyz";

pub(super) fn boxed(alloc: Global, expr: Expr) -> Result<Box<Expr>, AllocError> {
    Ok(Box::new(alloc, expr)?)
}

pub(super) fn int(bits: u64) -> Expr {
    Expr::Number { bits, kind: I32 }
}

/// Two trees with an operator between them.
pub(super) fn chain(
    alloc: Global,
    first: Expr,
    op: BinaryOp,
    value: Expr,
) -> Result<Expr, AllocError> {
    let mut rest = Vec::new(alloc);
    rest.push(Operand { op, value })?;
    Ok(Expr::Chain {
        first: boxed(alloc, first)?,
        rest,
    })
}

pub(super) fn field(
    alloc: Global,
    kind: FieldKind,
    (offset, size): (u32, u32),
    signed: bool,
    element: u32,
) -> Result<Field, AllocError> {
    Ok(Field {
        name: ByteText::copy(alloc, b"f")?,
        offset,
        size,
        signed,
        kind,
        place: FieldPlace::Fixed,
        element,
    })
}

pub(super) fn rec<'a>(payload: &'a [u8]) -> Rec<'a> {
    Rec {
        order: Order::Little,
        payload,
    }
}

pub(super) fn no_payload() -> Rec<'static> {
    Rec {
        order: Order::Little,
        payload: &[],
    }
}
