//! The options of a trace file and its table of parts, read and written, and the faults that opening a file may meet.
#![tactic(auto)]

mod fault;
mod laws;
mod option;
mod options;
mod table;

pub use fault::OpenFault;
pub use laws::{
    one_options, one_table, options_are_computed, options_read_back, table_is_computed,
    table_reads_back,
};
pub use option::Opt;
pub use options::{read_options, write_options};
pub use table::{read_table, write_table};
