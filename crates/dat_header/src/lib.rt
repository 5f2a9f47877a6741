//! The header of a trace file, read and written.
//!
//! [`read_header`] reads the header that a file begins with, and [`read_partial`] that of a partial file, which has no data. Each
//! gives a [`Header`], or an [`OpenFault`], which says what is wrong and where. [`write_header`] writes a header with a table of
//! parts, and [`header_len`] tells beforehand how long that is. Where several files have one header but for its table,
//! [`text_before_table`] makes the text in front of that once, and [`write_with_table`] writes it with a table. The other
//! functions do nothing: their contracts are laws, as that a file has at most one header and that what is written reads back.
#![tactic(auto)]

mod carried;
mod header;
mod instances;
mod items;
mod laws;
mod layout;
mod lengths;
mod machine;
mod opening;
mod partial;
mod partial_laws;
mod pieces;
mod put;
mod read;
mod sections;
mod write;

pub use dat_options::{OpenFault, Opt};
pub use header::{Body, Header, System};
pub use laws::{header_is_computed, header_reads_back, one_header};
pub use lengths::header_len;
pub use partial::read_partial;
pub use partial_laws::{one_partial_header, partial_header_is_computed};
pub use read::read_header;
pub use write::{text_before_table, write_header, write_with_table};
