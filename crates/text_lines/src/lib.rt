//! The lines of a text.
//!
//! The texts inside a trace file (format descriptions, kallsyms, printk formats, saved command lines) are rows of lines.
//! A line ends at a newline; every other byte belongs to it, a carriage return too.
//!
//! [`first_line`] takes the first line off a text, and gives what follows it, until nothing does: so a text is read.
//! [`first_after`] finds the first line that begins with a word, and [`line_end`] tells what is to follow a text that is printed
//! in front of others. [`joined_lines`] does nothing: it is the law that a text is its lines.
#![tactic(auto)]

mod lines;

pub use lines::{first_after, first_line, joined_lines, line_end};
