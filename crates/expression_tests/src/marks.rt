// The operators of two operands, and how they are written.

use c_operators::BinaryOp;

pub(crate) const BINARY: &[(&str, BinaryOp)] = &[
    ("||", BinaryOp::LogicOr),
    ("&&", BinaryOp::LogicAnd),
    ("|", BinaryOp::BitOr),
    ("^", BinaryOp::BitXor),
    ("&", BinaryOp::BitAnd),
    ("==", BinaryOp::Equal),
    ("!=", BinaryOp::NotEqual),
    ("<", BinaryOp::Less),
    ("<=", BinaryOp::LessEqual),
    (">", BinaryOp::Greater),
    (">=", BinaryOp::GreaterEqual),
    ("<<", BinaryOp::ShiftLeft),
    (">>", BinaryOp::ShiftRight),
    ("+", BinaryOp::Plus),
    ("-", BinaryOp::Minus),
    ("*", BinaryOp::Times),
    ("/", BinaryOp::Divide),
    ("%", BinaryOp::Remainder),
];

/// How an operator is written.
pub(crate) fn mark(op: BinaryOp) -> &'static str {
    for (mark, found) in BINARY {
        if *found == op {
            return *mark;
        }
    }
    ""
}

/// Appends bytes. Where memory runs out they are left out, and the row that wants them fails.
pub(crate) fn add(out: &mut Vec<u8>, bytes: &[u8]) {
    let _ = out.extend_from_slice(bytes);
}

/// Appends an operator between two blanks.
pub(crate) fn put_mark(out: &mut Vec<u8>, op: BinaryOp) {
    add(out, b" ");
    add(out, mark(op).as_bytes());
    add(out, b" ");
}
