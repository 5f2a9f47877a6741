//! What every job of a run shares: how it may end, beside what it means, and what it is lent.
//!
//! [`Status`] is the answer of a run, and [`JobEnd`] an answer with the file that its message names; the functions of `ends` give the
//! answer for how lanes, a pass over them or a cut ended. A command takes its processors by [`Selection::chosen`] or [`Selection::chosen_with_bytes`], and is lent
//! [`Resources`]. The four endings stand in `specs/Ending.antt`, over the record of `specs/Meaning.antt`.
#![tactic(auto)]

mod ends;
mod job_end;
mod resources;
mod selection;
mod status;

pub use ends::{is_whole, status_of_cut, status_of_end, status_of_pass, status_or_memory};
pub use job_end::JobEnd;
pub use resources::Resources;
pub use selection::Selection;
pub use status::Status;
