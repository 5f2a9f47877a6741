// The operators, as C11 6.5.5 to 6.5.14 list them.

use c_operators::BinaryOp;

/// Each operator's spelling, with the operator and its level, from 6.5.5 on.
const OPERATORS: [(&[u8], BinaryOp, u32); 18] = [
    (b"*", BinaryOp::Times, 1),
    (b"/", BinaryOp::Divide, 1),
    (b"%", BinaryOp::Remainder, 1),
    (b"+", BinaryOp::Plus, 2),
    (b"-", BinaryOp::Minus, 2),
    (b"<<", BinaryOp::ShiftLeft, 3),
    (b">>", BinaryOp::ShiftRight, 3),
    (b"<", BinaryOp::Less, 4),
    (b">", BinaryOp::Greater, 4),
    (b"<=", BinaryOp::LessEqual, 4),
    (b">=", BinaryOp::GreaterEqual, 4),
    (b"==", BinaryOp::Equal, 5),
    (b"!=", BinaryOp::NotEqual, 5),
    (b"&", BinaryOp::BitAnd, 6),
    (b"^", BinaryOp::BitXor, 7),
    (b"|", BinaryOp::BitOr, 8),
    (b"&&", BinaryOp::LogicAnd, 9),
    (b"||", BinaryOp::LogicOr, 10),
];

/// Punctuators that are no operator between two operands.
const OTHERS: [&[u8]; 6] = [b"", b"!", b"~", b"=", b"->", b"<<="];

#[test]
fn marks_and_levels_are_those_of_c(rt: HostRuntime) {
    for (mark, op, level) in OPERATORS {
        assert_eq!(rt; BinaryOp::from_mark(mark), Some(op));
        assert_eq!(rt; op.level(), level);
    }
    for mark in OTHERS {
        assert_eq!(rt; BinaryOp::from_mark(mark), None);
    }
}
