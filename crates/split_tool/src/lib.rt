//! `split`: a trace cut into new files, each a trace file again (trace-cmd-split(1)).
//!
//! [`split`] goes through its lists once for each file: a first pass measures the file's pieces, so that its table is
//! known before its first byte, and a second one packs them. A file stands under its name only once it is finished. All
//! memory is taken by [`lists_over`] and [`SplitWork::new`].
//!
//! Of a new file, [`put_name`] makes the name, [`data_place`] the place of its first sub-buffer, and [`write_front`] writes what
//! stands before that place: the header with its table, and zero bytes.
#![tactic(auto)]

mod files;
mod front;
mod grouping;
pub mod laws;
mod lists;
mod names;
mod splitting;
mod start;
mod table;
mod unmade;
mod work;

pub use front::{data_place, write_front};
pub use grouping::lists_over;
pub use names::{FileName, put_name};
pub use splitting::{SplitPlan, split};
pub use time_merge::{End, IoFault};
pub use work::SplitWork;
