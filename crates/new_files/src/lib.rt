//! What every tool that makes a file needs: zero bytes up to a multiple of a page; and, in `specs/`, what a new file is, what
//! making some leaves of a folder, and which names it is asked for.
#![tactic(auto)]

mod padding;

pub use padding::{gap, write_zeros};
