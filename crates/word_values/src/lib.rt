//! What one word of a command line spells: numbers and lists of processors, moments, the size of a piece, and the names
//! of a dump's sections and a report's lists.
//!
//! A call for each kind of word gives its value, or none where the word spells none: [`cpu_number`], [`cpu_set`], [`Moment::parse`],
//! [`piece_count`] and its sisters, and [`Section::named`], by which an option is known. [`Section::ALL`], [`PieceOption::ALL`] and
//! [`Listing::ALL`] are what there is to choose from. [`members_of_ranges`] and [`whole_lists`] do nothing: they are laws.
#![tactic(auto)]

mod cpu_list;
mod cut;
mod laws;
mod listing;
mod moment;
mod number;
mod piece;
mod processor_set;
mod section;

pub use cpu_list::{cpu_number, cpu_set};
pub use laws::{members_of_ranges, whole_lists};
pub use listing::Listing;
pub use moment::Moment;
pub use number::{event_count, piece_count, seed_number, worker_count};
pub use piece::{PieceOption, PieceUnit};
pub use processor_set::CpuSet;
pub use section::Section;
