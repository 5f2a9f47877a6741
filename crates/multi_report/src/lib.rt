//! Several files in one report, in the order of time, each line with its file's name.
//!
//! [`report_files`] puts a first line for each file, and then the lines of the items of all files by key, then file, then
//! processor, then position, up to the least cut. A file is to all files what a processor is to its file: its number stands
//! in the place of the processor's, and what it has left, up to its own least cut, is one row (`specs/Merge.antt`). What
//! comes next of each file is kept in a tree, so that an item costs a few steps, however many files and lanes there are.
//! No memory is taken.
#![tactic(auto)]

pub mod laws;
mod printing;
mod report;
mod source;
mod sources;
mod taking;

pub use report::{FilesEnd, FilesFault, report_files};
pub use source::Source;
