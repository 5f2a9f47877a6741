//! What `dump` prints: the text of every section of a trace file's header.
#![tactic(auto)]

mod entries;
mod lines;
mod lists;
mod sections;
mod summary;

pub use sections::dump;
