//! A tournament tree: which of several slots has the least key, kept up to date in a few steps for each key that changes.
#![tactic(auto)]

mod marks;
mod slot_key;
mod trees;

pub use slot_key::SlotKey;
pub use trees::TournamentTree;
