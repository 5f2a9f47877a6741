//! C's operators between two operands: how they are spelled, and how tightly they bind.
#![tactic(auto)]

mod binary;

pub use binary::BinaryOp;
