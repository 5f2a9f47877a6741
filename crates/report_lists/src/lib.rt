//! The lists of a report: the events of a file, their format texts, its symbols and its printk formats.
//!
//! There is a call for each list: [`put_event_names`], [`put_event_formats`], [`put_symbols`] and [`put_printk_formats`]. Each
//! puts one line after another, of what was read before, and takes no memory.
#![tactic(auto)]

mod events;
mod names;

pub use events::{put_event_formats, put_event_names};
pub use names::{put_printk_formats, put_symbols};
