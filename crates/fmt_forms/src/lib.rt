//! How the numbers and texts of a print fmt are laid out: by the flags, the width and the precision of a conversion.
//!
//! [`form_of`] gives the [`Form`] of a conversion. [`show_integer`] shows an integer in its form, [`show_text`] a text in its
//! width, [`show_cut`] as much of it as the precision shows, [`show_until_nul`] and, where most have one letter or none,
//! [`show_short`] as much of it up to its first NUL, [`show_address`] an address, and [`show_offset`] a name and how far after
//! its address an address is. Their contracts tell of the `Tail` what stays true through cuts. [`put_repeated`] puts so many
//! spaces or zeros. [`is_signed`] says whether a conversion shows a sign. No call takes memory.
#![tactic(auto)]

mod decimal;
mod few_digits;
mod form;
mod hexadecimal;
mod integer;
mod layout;
mod repeat;
mod text;

pub use decimal::{is_signed, show_integer};
pub use form::{Form, form_of};
pub use repeat::{Fill, put_repeated};
pub use text::{show_address, show_cut, show_offset, show_short, show_text, show_until_nul};
