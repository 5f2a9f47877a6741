//! A direct-mapped cache of where numbers stand in a list.
//!
//! [`Places`] has an entry for each remainder modulo the number of its entries. It notes the place of each number of a list in
//! the number's entry, and gives it in one step. Where another number has taken the entry, its users look elsewhere.
#![tactic(auto)]

mod laws;
mod places;

pub use laws::last_of_equals;
pub use places::Places;
