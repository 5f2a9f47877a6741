//! The formats of a file's events.
//!
//! [`parse_format`] reads one format text, as the kernel writes it, and a [`FormatTable`] holds the formats of a file by
//! their ids, each at a place that stays.
//!
//! A table is made of a file's texts by [`FormatTable::with_texts`], a system at a time. `by_id`, by which the program goes,
//! gives a format's place in it, and `get` the [`EventFormat`] there. `by_name` gives the place of the first format of a name;
//! tests alone call it. [`table_laws`] does nothing: it says of which texts a table is.
#![tactic(auto)]

mod common;
mod fields;
mod format;
mod parse;
mod table;
mod words;

pub use format::EventFormat;
pub use parse::parse_format;
pub use table::{FormatTable, table_laws};
