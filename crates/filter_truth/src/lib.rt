//! The truth of filters at events, and which events filters show.
//!
//! A filter is bound once to the formats of a file by [`bind`], which looks up all names; [`holds`] then tells whether
//! it holds at an event, and [`Filters::show`] what showing and hiding filters make of it. An event that no filter
//! names costs a look-up for each filter.
//!
//! A report takes [`Filters`]: [`Filters::bind`] binds all its filters, [`Filters::settled`] tells of a format once whether all
//! of its events are shown or none, and `show` decides where neither is so. [`bind`] and [`holds`] are for one filter alone;
//! tests call them. The functions of [`laws`] do nothing.
#![tactic(auto)]

mod binding;
mod bound_expr;
mod column;
mod evaluation;
mod filter;
pub mod laws;
mod name_numbers;
mod named;
mod named_format;
mod select;
mod value;

pub use evaluation::Event;
pub use filter::{Bound, bind, holds};
pub use select::{FilterUse, Filters};
