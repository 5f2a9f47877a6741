//! A trace file made from a seed, and the line that sums up a report of it.
#![tactic(auto)]

mod file;
mod generator;
mod header;
mod summary;
mod write;

pub use file::generate;
pub use summary::summary_line;
