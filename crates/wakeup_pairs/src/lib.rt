//! Which wake-up of a task belongs to which switch to it, and how long the tasks waited between the two.
//!
//! `specs/Pairs.antt` says which belong together, by their places in the list of what was seen of a trace. [`Wakeups`] finds
//! these pairs in one pass, with a map of the tasks that wait; that it finds them, and that there are no others, is in
//! [`laws`]. Of pairs there are the average, the longest and the shortest wait.
#![tactic(auto)]

mod figures;
pub mod laws;
mod pairs;
mod wakeup_item;

pub use figures::{average, latency, longest, shortest};
pub use pairs::Wakeups;
pub use wakeup_item::{Pair, Switch, Wake, WakeupItem};
