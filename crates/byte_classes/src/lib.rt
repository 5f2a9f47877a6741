//! What a byte is, once for every text: a blank, a part of a word, or a digit of a number.
#![tactic(auto)]

mod classes;
mod digits;

pub use classes::{is_blank, is_word};
pub use digits::number_written;
