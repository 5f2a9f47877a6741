//! The outside of the program: files, sinks and folders as traits, with objects in memory and over std, whole reads and
//! writes, and text on its way to a sink.
//!
//! Whoever reads takes a [`File`], whoever writes a [`Sink`], and whoever opens or makes files by name a [`Folder`]; a [`Gate`]
//! holds threads up in tests. [`read_piece`] and [`read_bytes`] tell a file that ends early from a read that failed,
//! [`read_all`] is for bytes that are known to be there, [`write_all`] and [`write_parts`] write whole texts, and [`copy_rest`]
//! copies what is left of a file. A report goes out through a [`Pending`], in large pieces. [`RealFile`] and its sisters are the
//! system's files; [`MemFile`] and its sisters are in memory, and fail where a test asks them to.
#![tactic(auto)]

mod copies;
mod counts;
mod memory;
mod outside;
mod pending;
mod piece;
mod real;
mod requests;
mod whole;

pub use copies::{CopyFault, copy_rest};
pub use counts::Counts;
pub use memory::{MemFault, MemFile, MemFolder, MemSink, NoGate};
pub use outside::{Failed, File, Folder, Gate, Sink};
pub use pending::Pending;
pub use piece::{PieceFault, read_bytes, read_piece};
pub use real::{RealFile, RealFolder, RealOut, RealSink};
pub use whole::{read_all, write_all, write_parts};
