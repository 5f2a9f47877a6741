//! What the tokens of a print fmt mean by themselves: numbers with C's kinds, letters and texts with their escapes
//! resolved, and types by their names.
//!
//! [`number`], [`letter`] and [`push_text`] take a token as it is spelled, and [`plain_text`] gives a text that stands for itself.
//! Of a type's names [`is_qualifier`] tells those that are left out; by the others [`cast_of`] tells what a cast to it makes of a
//! number, and [`size_of`] its bytes. The functions of [`laws`] do nothing: each spelling has one meaning.
#![tactic(auto)]

mod cast_to;
mod ckind;
mod escape;
pub mod laws;
mod numeral;
mod quoted;
mod types;

pub use cast_to::CastTo;
pub use ckind::CKind;
pub use numeral::{Numeral, number};
pub use quoted::{letter, plain_text, push_text};
pub use types::{cast_of, is_qualifier, size_of, unsigned_long};
