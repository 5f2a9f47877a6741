//! Print fmts: a format text that is read once, and the text that it prints of a record.
//!
//! [`compile`] reads the format text of a print fmt into a [`PrintPlan`], or answers none where it cannot be read, and [`print`]
//! puts the text that a plan prints of a record into a `Tail`, without taking memory. A plan's text, [`Directive`]s and arguments
//! can be looked at.
#![tactic(auto)]

mod argument;
mod arguments;
mod conversions;
mod flow;
mod name;
mod plan;
mod printing;
mod reading;
mod step;

pub use fmt_directives::{Amount, Base, Directive, Length, PointerForm, Spec};
pub use plan::PrintPlan;
pub use printing::print;
pub use reading::compile;
