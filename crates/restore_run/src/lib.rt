//! A restore, from the names in its words.
//!
//! [`restore_files`] is the one call: it makes the new file, and tells which file the message names.
#![tactic(auto)]

mod restore;

pub use restore::restore_files;
