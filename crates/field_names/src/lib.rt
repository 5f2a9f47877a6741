//! The fields of a record by their names.
//!
//! A print fmt may name each of thousands of fields: with [`FieldNames`] a name costs the logarithm of their number.
#![tactic(auto)]

mod names;

pub use names::FieldNames;
