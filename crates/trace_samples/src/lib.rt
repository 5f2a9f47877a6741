//! Sub-buffers and whole traces made in memory, for tests: a [`Page`] is a sub-buffer told in a line, whose bytes stand in
//! [`layout`], and a [`TraceFile`] a file made section by section. [`switch_file`] and [`many_events`] are whole files, each with
//! its report, and [`words_of_line`] takes a command line apart.
#![tactic(auto)]

mod layouts;
mod lines;
mod many;
mod sub_buffers;
mod traces;

pub use layouts::layout;
pub use lines::words_of_line;
pub use many::{many_events, many_events_report};
pub use sub_buffers::{PAGE, Page, put_pages};
pub use traces::{
    FUNCTION_FORMAT, LATENCY_FILE, ONE_EVENT, SWITCH_FORMAT, SWITCH_HEADER, SWITCH_REPORT, SYMBOLS,
    TASKS, TraceFile, switch_file,
};
