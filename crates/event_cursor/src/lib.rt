//! Where a lane stands among its processor's items: loading its sub-buffers, the item at its place, one item on, and
//! going back to a place. The key of the item at its place is kept beside it, and is told without a look at the bytes.
//!
//! What a lane has used up and what it has left is one definition, `Stands` in `specs/Standing.antt`. A call over a file
//! that tells its bytes leaves what was left as it was, or takes its first item. Over any file what a lane's cursor says of
//! the held sub-buffer is so, by the lane's type.
//!
//! Going on: [`load`] reads the next sub-buffers until one holds an item, [`head`] tells the item at the lane's place (or
//! [`head_key`] its key alone), and [`step`] uses it up; [`step_run`] uses up a run of events at once. Going back, for a second
//! pass: [`Place`] notes where a lane stands, and [`seek`] takes it there again.
#![tactic(auto)]

mod fetching;
mod laws;
mod loading;
mod places;
mod running;
mod seeking;
mod stepping;

pub use fetching::is_there;
pub use laws::used_items;
pub use loading::{Loaded, load};
pub use places::Place;
pub use running::step_run;
pub use seeking::{Sought, seek};
pub use stepping::{head, head_at, head_key, key_behind, step, step_by};
