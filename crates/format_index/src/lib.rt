//! Where the formats of a table stand, by the numbers that events tell, and the role that the events of each play for a command.
//!
//! Most formats are found in one step, where the table itself would compute a hash for each event.
#![tactic(auto)]

mod places;
mod roles;

pub use places::{FormatIndex, PlacedFormat};
pub use roles::{FormatRole, FormatRoles};
