//! The pieces of a split: what start, end and unit leave of lists of items, file by file.
//!
//! `specs/` says it of whole lists: what a file takes of a list and what it leaves ([`laws`] tells what these definitions
//! come to), which lists a split cuts, and when a malformed sub-buffer is still reached (`Cuts.antt`). The code decides
//! the same item by item: [`is_before`] and [`is_past`] for start and end, [`Gauge`] for a piece. Nothing here takes memory.
#![tactic(auto)]

mod gauge;
pub mod laws;
mod moment;
mod rules;

pub use gauge::{Allowance, Gauge};
pub use moment::{is_before, is_past, last_until};
pub use rules::Rules;
