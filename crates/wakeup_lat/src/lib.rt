//! How long woken tasks waited until they ran.
//!
//! [`gather`] goes once through the reached items of a trace, in their order, and pairs wake-ups with switches:
//! `specs/Roles.antt` says what an event is by its format, and the crate `wakeup_pairs` which belong together. Whether an
//! event is shown does not matter. [`put_wakeups`] writes the section at the end of a report: a line for each pair, and the
//! average, the longest and the shortest wait.
#![tactic(auto)]

mod gathering;
mod lines;
mod role;
mod section;
mod seeing;
mod wakeup_gatherer;

pub use gathering::gather;
pub use section::put_wakeups;
