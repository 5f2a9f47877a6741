// Trees with constant parts.

use super::samples::{chain, field, int, rec};
use c_operators::BinaryOp;
use fmt_eval::number;
use fmt_expr::Expr;
use fmt_fold::folded;
use std::alloc::{AllocError, Global};
use trace_base::FieldKind;

/// `(((1 | 2) + 1) << 1) - 1`
fn mask(alloc: Global) -> Result<Expr, AllocError> {
    let flags = chain(alloc, int(1), BinaryOp::BitOr, int(2))?;
    let next = chain(alloc, flags, BinaryOp::Plus, int(1))?;
    let doubled = chain(alloc, next, BinaryOp::ShiftLeft, int(1))?;
    chain(alloc, doubled, BinaryOp::Minus, int(1))
}

/// A byte under that mask.
fn masked(alloc: Global) -> Result<Expr, AllocError> {
    let field = field(alloc, FieldKind::Number, (1, 1), false, 1)?;
    chain(
        alloc,
        Expr::FieldNumber { field },
        BinaryOp::BitAnd,
        mask(alloc)?,
    )
}

fn written(expr: &Expr) -> Option<u64> {
    match expr {
        Expr::Number { bits, .. } => Some(*bits),
        _ => None,
    }
}

#[test]
fn a_mask_is_written_out(rt: HostRuntime) -> Result<(), AllocError> {
    let mask = mask(rt.alloc())?;
    assert_eq!(rt; written(&folded(rt.alloc(), &mask)?), Some(7));
    Ok(())
}

#[test]
fn a_field_under_a_mask_keeps_its_number(rt: HostRuntime) -> Result<(), AllocError> {
    let masked = masked(rt.alloc())?;
    let folded = folded(rt.alloc(), &masked)?;
    assert_eq!(rt; written(&folded), None);
    assert_eq!(rt; number(&folded, &rec(&[0, 0x85])).bits, 5);
    Ok(())
}
