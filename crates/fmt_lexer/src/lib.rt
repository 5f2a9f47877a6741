//! The tokens of a print fmt: the C expression that an event's format text ends in.
//!
//! [`tokens`] cuts a text into names, numbers, letters (C's character constants), texts (its string
//! literals) and marks (its punctuators). It keeps no state beside the place that it has reached, and gives
//! kinds and places alone: what a token means is left to those who read its bytes. Of a number's bytes
//! [`number_parts`] tells the base, the digits and the suffix.
//!
//! A filter has marks of its own, so whoever reads one takes [`word_len`] and [`number_parts`] and cuts the
//! text itself. The functions of [`laws`] do nothing: a text has one row of tokens, and a number one division.
#![tactic(auto)]

mod bytes;
mod first;
pub mod laws;
mod lexer;
mod mark;
mod number;
mod quoted;
mod token;

pub use bytes::word_len;
pub use lexer::tokens;
pub use number::{Base, NumberParts, number_parts};
pub use token::{Token, TokenKind};
