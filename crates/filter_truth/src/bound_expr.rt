//! Conditions whose names have numbers.

use c_operators::BinaryOp;
use filter_lang::FilterPrefix;
use trace_base::ByteText;

/// A condition for the events of all formats.
#[derive(Drop)]
#[cycle(bound)]
pub enum BoundExpr {
    Number(u64),
    Text(ByteText),
    /// The task's name.
    Task,
    /// The processor.
    Cpu,
    /// What the name of this number stands for in the event's format.
    Named(usize),
    Prefix {
        op: FilterPrefix,
        of: Box<BoundExpr>,
    },
    Chain {
        first: Box<BoundExpr>,
        rest: Vec<BoundOperand>,
    },
}

/// An operator and what follows it.
#[derive(Drop)]
#[cycle(bound)]
pub struct BoundOperand {
    pub op: BinaryOp,
    pub value: BoundExpr,
}
