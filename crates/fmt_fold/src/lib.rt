//! Constant folding: typed trees whose constant parts are computed once, before any record is read.
//!
//! Masks of real print fmts are long sums of constants. [`folded`] gives a tree that means the same over every record, in
//! which each number that reads no record is written out.
#![tactic(auto)]

mod constants;
mod fold;
mod make;

pub use fold::folded;
