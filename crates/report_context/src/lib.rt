//! What the lines of a report stand on, for the report of one file and for that of several.
//!
//! [`context_of`] makes the context of a file with this header, [`ItemLines`] forms its lines, and [`put_cpus`] puts the first one.
#![tactic(auto)]

mod context;
mod lines;

pub use context::{context_of, read_formats, read_symbols};
pub use lines::{ItemLines, LINES_ROOM, line_buffer, put_cpus};
