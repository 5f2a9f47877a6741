//! The report of several files, from their names.
//!
//! [`print_files`] is the one call: it opens all inputs with their headers, prints their report, and closes them on every way out.
#![tactic(auto)]

mod several;
mod sources;

pub use several::print_files;
