//! The typed trees of a print fmt: what its tokens mean, with the fields of its event.
//!
//! [`parse_args`] goes once over the tokens, with one method a production of the grammar. The grammar itself is a
//! relation between places in the tokens and trees, in `specs/Derivation.antt`; the laws say that it has at most one
//! tree, and that this is the tree that is given.
//!
//! `parse_args` gives a [`PrintFmt`], whose arguments are each an [`Expr`]; [`kind`] tells whether one gives a number, a text or bytes.
//! The functions of [`laws`] do nothing.
#![tactic(auto)]

mod args;
mod calls;
mod expr;
mod fault;
mod fields;
mod head;
mod heads;
mod judge;
mod kinds;
pub mod laws;
mod leaf;
mod make;
mod ops;
mod parse;
mod print_fmt;
mod reader;
mod taken;
mod texts;
mod types;
mod words;

pub use args::parse_args;
pub use expr::{Entry, Expr, Operand, PrefixOp};
pub use fmt_literal::{CKind, CastTo};
pub use judge::kind;
pub use kinds::Kind;
pub use print_fmt::PrintFmt;
