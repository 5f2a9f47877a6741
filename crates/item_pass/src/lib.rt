//! One pass over the reached items of several processors, in their order.
//!
//! [`pass`] has lanes of its own. It hands each reached item to a [`Gatherer`], and tells the malformed sub-buffer that ends
//! the items, if one does. What is gathered, and which items do not matter to it, is the gatherer's own.
#![tactic(auto)]

mod gatherer;
mod passing;
mod taking;

pub use gatherer::Gatherer;
pub use passing::{PassFault, pass};
