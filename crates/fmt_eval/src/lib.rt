//! The values of typed trees over a record: numbers of C's kinds, texts and bytes.
//!
//! [`number`] is the definition in Rust, one recursion over the tree, and [`holds`] tells whether it is not 0. Of a tree that is used over
//! many records [`read_of`] and [`test_of`] tell once what is known before any: [`number_by`] and [`holds_by`] go by that.
//!
//! Of a tree whose kind is a text [`put_text`] puts it, and of one that has bytes [`bytes`] gives them; [`only_flag`] gives the text of
//! flags without putting it, where it is that of one alone. [`put_hexadecimal`], [`put_octets`] and [`put_piece`] are for others who
//! write as these texts are written, and [`cast_bits`] for whoever reads a number as a cast does. The functions of `laws` do nothing.
#![tactic(auto)]

mod array;
mod cast;
mod eval;
mod field;
mod field_bytes;
mod flags;
mod laws;
mod narrow;
mod num;
mod operators;
mod pieces;
mod read;
mod short;
mod text;

pub use cast::cast_bits;
pub use eval::number;
pub use field_bytes::bytes;
pub use flags::only_flag;
pub use laws::{one_reduced, reduced_is, values_by_kind};
pub use num::Num;
pub use pieces::{put_hexadecimal, put_octets, put_piece};
pub use read::{Read, Test, holds_by, number_by, read_of, test_of};
pub use short::holds;
pub use text::put_text;
