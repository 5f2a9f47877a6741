//! A split of a file whose header was read.
//!
//! [`cut_file`] is the one call: it takes all memory, and then the new files are made.
#![tactic(auto)]

mod split;

pub use split::cut_file;
