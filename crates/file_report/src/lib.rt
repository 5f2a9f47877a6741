//! The report of one file: its events, with or without latencies, the calls among them, a list, or the rest of a latency file.
//!
//! [`print_report`] is the one call, over a file whose header was read.
#![tactic(auto)]

mod calls;
mod events;
mod list;
mod report;

pub use report::{ReportPlan, print_report};
