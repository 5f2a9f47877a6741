//! The order of several processors' items, over one held sub-buffer of each.
//!
//! Items stand by key, then processor, then position, and end before the least cut. What is still to come of lanes in that order
//! is one list, `to_come` in `specs/LaneRows.antt`: [`next_lane_by`] tells its first item, by a tree of what comes next of
//! each lane, and whoever steps that lane has its rest. [`next_lane`] tells the same by a look at every lane: it is the
//! plain call beside the fast one, which tests compare with it, while every command goes by the tree. Over fresh lanes the
//! list is that of the reached items ([`laws`]).
//!
//! Whoever holds the lanes of a file, and takes their items one by one, holds [`Lanes`]: these have one layout, their
//! processors' numbers rise, and the tree is in step with them, so that no call says it again.
//!
//! Whoever takes many items at once makes the lanes ready, all of them ([`make_all_ready`]) or, where dirty bits tell which
//! ones moved, those alone ([`make_moved_ready`]; [`wants_load`] tells which lanes are to be dirty), and asks for the
//! [`horizon`] up to which their items are known, by a tree of the lanes' greatest times ([`high_of`]).
#![tactic(auto)]

mod best;
mod ending;
mod highs;
mod horizons;
mod in_step;
mod lane_nexts;
mod lanes;
pub mod laws;
mod next_lanes;
mod others;
mod readiness;
mod ready;
mod setting;

pub use ending::{End, IoFault};
pub use highs::{high_of, horizon};
pub use horizons::Horizon;
pub use in_step::{next_lane_by, turn_of};
pub use lane_nexts::LaneNext;
pub use lanes::Lanes;
pub use next_lanes::{Next, next_lane};
pub use others::Others;
pub use readiness::Readiness;
pub use ready::{make_all_ready, make_moved_ready, wants_load};
pub use setting::pool_over;
