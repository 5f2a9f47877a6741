//! The program's top call: words and files in, lines, a message and a status out.
#![tactic(auto)]

mod command;
mod dump;
mod laws;
mod messages;
mod selftest;
mod top;
mod topic;

pub use laws::{differences_by_places, selection_rises, split_files_read_back};
pub use run_endings::Status;
pub use subpage::CutPlace;
pub use top::run;
