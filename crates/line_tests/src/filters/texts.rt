// How texts are put together.

use c_operators::BinaryOp;
use std::alloc::AllocError;

/// Appends a piece to a text so many times.
pub(crate) fn put_often(text: &mut Vec<u8>, piece: &str, count: u32) -> Result<(), AllocError> {
    for _ in 0..count {
        text.extend_from_slice(piece.as_bytes())?;
    }
    Ok(())
}

/// Appends bytes. Where memory runs out they are left out, and the row that wants them fails.
pub(crate) fn add(out: &mut Vec<u8>, bytes: &[u8]) {
    let _ = out.extend_from_slice(bytes);
}

/// How an operator is written.
fn mark(op: BinaryOp) -> &'static [u8] {
    match op {
        BinaryOp::LogicOr => b"||",
        BinaryOp::LogicAnd => b"&&",
        BinaryOp::BitOr => b"|",
        BinaryOp::BitXor => b"^",
        BinaryOp::BitAnd => b"&",
        BinaryOp::Equal => b"==",
        BinaryOp::NotEqual => b"!=",
        BinaryOp::Less => b"<",
        BinaryOp::LessEqual => b"<=",
        BinaryOp::Greater => b">",
        BinaryOp::GreaterEqual => b">=",
        BinaryOp::ShiftLeft => b"<<",
        BinaryOp::ShiftRight => b">>",
        BinaryOp::Plus => b"+",
        BinaryOp::Minus => b"-",
        BinaryOp::Times => b"*",
        BinaryOp::Divide => b"/",
        BinaryOp::Remainder => b"%",
    }
}

/// Appends an operator between two blanks.
pub(crate) fn put_mark(out: &mut Vec<u8>, op: BinaryOp) {
    add(out, b" ");
    add(out, mark(op));
    add(out, b" ");
}
