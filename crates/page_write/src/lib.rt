//! Items packed into sub-buffers: the rule in numbers alone, the bytes, and these on their way to a sink. Nothing here takes memory.
//!
//! A [`Packer`] packs items into one sub-buffer, in a buffer that it borrows. Give it each item by `add`; where the answer is
//! [`Added::Full`], and after the last item, `close` gives the bytes of the sub-buffer, and after `restart` the item that had no
//! room opens the next one. Events whose records stand elsewhere just as the packer would write them are added at once by
//! `add_run`, as far as there is `room`. A [`Room`] answers `add` alike, so that it tells where sub-buffers end before any is
//! written.
//!
//! Over a processor's items there are two passes: [`PageCount`] tells how many sub-buffers they take, and [`write_item`] and
//! [`write_last`] write these. The other functions are laws, which a program need not call. Their contracts say that items have
//! one packing and are read back from it, which items can be packed, and that [`Room`] and [`Packer`] answer alike.
#![tactic(auto)]

mod added;
mod adding;
mod bits;
mod closing;
mod count;
mod fill;
mod laws;
mod len;
mod open_page;
mod packer;
mod put;
mod room;
mod write;

pub use added::Added;
pub use count::PageCount;
pub use fill::Fill;
pub use laws::{
    both_add, file_reads_back, nothing_written, one_packing, page_reads_back, part_reads_back,
    short_events_can_be_packed, step_by_step, told_items_can_be_packed,
};
pub use packer::Packer;
pub use room::Room;
pub use write::{write_item, write_last};
