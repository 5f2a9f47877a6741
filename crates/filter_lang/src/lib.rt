//! The filters of a report: which events to show or to hide.
//!
//! A filter names events and may have a condition on their fields, as `sched_switch:prev_prio < 100 && COMM != "bash"`.
//! [`parse_filter`] reads one, or tells the place from which on the text is none.
//!
//! That is the one call of a program. What it gives is a [`Filter`], which `filter_truth` binds to the formats of a file; a
//! [`FilterExpr`] knows no field yet. The functions of [`laws`] do nothing: a text is one filter, or is refused at one place.
#![tactic(auto)]

mod condition;
mod events;
mod expr;
mod fault;
mod filter;
mod first;
pub mod laws;
mod lexer;
mod make;
mod number;
mod parse_fault;
mod parser;
mod reader;
mod taken;
mod token;

pub use expr::{FilterExpr, FilterOperand, FilterPrefix};
pub use fault::FilterFault;
pub use filter::{EventName, Filter};
pub use parser::parse_filter;
