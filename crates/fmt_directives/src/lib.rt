//! The directives of a print fmt's format text: the text between its conversions, and the conversions.
#![tactic(auto)]

mod conversion;
mod directive;
mod laws;
mod pieces;

pub use directive::{Amount, Base, Directive, Length, PointerForm, Spec};
pub use laws::{computed_directives, computed_piece, one_row};
pub use pieces::directives;
