//! The tree of a filter's condition.

use c_operators::BinaryOp;
use trace_base::ByteText;

/// An operator before its operand, as in C11 6.5.3.3.
#[derive(Clone, Copy, Debug, PartialEq, Eq)]
pub enum FilterPrefix {
    /// `!`
    Not,
    /// `-`
    Minus,
    /// `~`
    Invert,
}

/// A condition.
#[derive(Drop)]
#[cycle(expr)]
pub enum FilterExpr {
    Number(u64),
    /// The bytes of a text, without its quotes.
    Text(ByteText),
    /// A name, of a field mostly.
    Field(ByteText),
    /// An operator before its operand.
    Prefix {
        op: FilterPrefix,
        of: Box<FilterExpr>,
    },
    /// Operators of one level, applied from the left. There is at least one.
    Chain {
        first: Box<FilterExpr>,
        rest: Vec<FilterOperand>,
    },
}

/// An operator between two operands, and what follows it.
#[derive(Drop)]
#[cycle(expr)]
pub struct FilterOperand {
    pub op: BinaryOp,
    pub value: FilterExpr,
}
