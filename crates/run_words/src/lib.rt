//! What the words of a command line ask a run for.
//!
//! [`ask`] reads all words into a [`Job`], and the filters among them in their order. [`read_filters`] reads them again, for each further
//! file of a report.
#![tactic(auto)]

mod job;
mod usage;

pub use job::{FileCommand, Job};
pub use usage::{AskFault, UsageFault, ask, read_filters};
