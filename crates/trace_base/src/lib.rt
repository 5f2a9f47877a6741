//! The ground that every other crate stands on: numbers in a file's byte order, texts and lists, layouts, the fields of
//! records, and text that goes into memory that is there already.
//!
//! `read_u16` and its sisters read a number that bytes begin with, in a file's [`Order`]; of a record, a [`Rec`], [`number_of`]
//! gives a field's value and [`bytes_of`] its bytes; a [`Common`] is what every event begins with. [`read_field_line`] gives
//! the field that a line of a format declares, and [`field_named`] finds a [`Field`] by its name. Text that is formed goes into
//! a [`Tail`], which keeps what there is room for and tells how long it truly is; text and lists that are kept are a
//! [`ByteText`] and a [`ListOf`], which contracts see as lists. [`until_nul`] ends a text of C where C does. [`puts_join`] and
//! [`kept_of_text`] do nothing: they are laws.
#![tactic(auto)]

mod byte_text;
mod common;
mod digits;
mod few_bytes;
mod field;
mod field_line;
mod layout;
mod list_of;
mod nul;
mod numbers;
mod order;
mod part;
mod rec;
mod tail;
mod times;
mod words;

pub use byte_text::ByteText;
pub use common::Common;
pub use digits::{two_digits, write_digits};
pub use field::{Field, FieldKind, FieldPlace, field_named};
pub use field_line::{FieldLine, after_word, decimal, is_identifier, one_field, read_field_line};
pub use layout::Layout;
pub use list_of::ListOf;
pub use nul::{long_text_len, text_len, until_nul};
pub use numbers::{put_u16, put_u32, put_u64, read_u16, read_u32, read_u64};
pub use order::Order;
pub use part::Part;
pub use rec::{Rec, bytes_of, number_of, sized, unsigned_at};
pub use tail::{Tail, kept_of_text, puts_join};
pub use times::micros;
pub use words::Words;
