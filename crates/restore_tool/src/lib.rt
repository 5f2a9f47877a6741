//! `restore`: a trace file made of the header of a partial one and one data file a processor, which is what is left when a
//! recording breaks off (trace-cmd-restore(1)).
//!
//! [`restore`] writes the header with a table, and after it the data files, each from a multiple of the page on. The file stands
//! under its name only once it is finished. [`restore_named`] does so for the names of a folder: it opens all files in order,
//! before anything is created, and closes them on every way out.
#![tactic(auto)]

mod copying;
mod frame;
pub mod laws;
mod named;
mod placing;
mod processors;
mod restoring;

pub use copying::DataFault;
pub use frame::{close_files, open_files};
pub use named::{Names, RestoreFault, Source, restore_named};
pub use processors::{blank_parts, for_processors};
pub use restoring::restore;
