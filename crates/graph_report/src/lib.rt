//! The calls of a trace as the function graph tracer recorded them, and their lines (`report --calls`).
//!
//! [`gather_calls`] goes over the items of all processors in the order in which they happened, as far as they are reached,
//! and gives a call for each entry, exit and loss. [`put_calls`] puts their lines, indented by depth and with durations, and
//! takes no memory. What an event is for the calls is found once for each format; which exit belongs to which entry is
//! `call_pairs`'s.
#![tactic(auto)]

mod call_gatherer;
mod gathering;
mod putting;
mod role;
mod seeing;
mod text;

pub use gathering::{Calls, gather_calls};
pub use putting::put_calls;
pub use text::put_line;
