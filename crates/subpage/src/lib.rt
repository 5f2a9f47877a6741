//! Sub-buffers of a trace.dat file: what stands in one, and the items that it tells.
//!
//! [`open_page`] finds whether a sub-buffer is well formed, and gives the position before its first item, a [`Mark`]: plain
//! numbers that a cursor keeps beside the bytes. [`open_checked`] gives it again. [`pass_item`] passes over an item and tells
//! where its payload stands, by which [`item_between`] gives it again without decoding it. [`plain_run`] passes over events
//! whose records can be copied as they stand, and [`run_between`] gives their bytes. Nothing here takes memory, and no size
//! that stands in the page is trusted.
//!
//! [`check_page`] is the plain way to the same items, for whoever keeps nothing beside the bytes: a [`Page`] gives them by an
//! iterator, with their number and times. Tests call it; the program opens each sub-buffer by [`open_page`].
//!
//! The definitions go further than the code: `specs/` also says what the items of a whole processor are
//! (`Processor.antt`), in which order those of several processors stand (`Arrangement.antt`), and where a malformed
//! sub-buffer ends them (`Cut.antt`). [`laws`] tells what these definitions come to; by one of them a report goes without the
//! processors that [`drop_empty`] drops.
#![tactic(auto)]

mod cut_place;
mod element;
mod item;
mod items;
pub mod laws;
mod loss;
mod mark;
mod next;
mod page;
mod parts;
mod reading;
mod run;
mod running_time;
mod summary;

pub use cut_place::CutPlace;
pub use item::Item;
pub use items::Items;
pub use mark::{ItemEnd, Mark, Span, first_at, item_between, pass_item};
pub use page::{Page, check_page, open_checked, open_page};
pub use parts::drop_empty;
pub use reading::filled_up;
pub use run::{RunLimits, plain_run, run_between};
