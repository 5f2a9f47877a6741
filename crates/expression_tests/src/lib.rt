//! Tests of the expressions in print fmts: how a print fmt is read, its tokens, the meaning of each by itself, its trees and the
//! directives of its text (`fmt_lexer`, `fmt_literal`, `fmt_expr` and `fmt_directives`); the values of trees, and trees with their
//! constant parts computed (`fmt_eval`, `fmt_fold`); and below them C's operators (`c_operators`) and fields by their names
//! (`field_names`). Those in filters are tested in `line_tests`.
//!
//! All that is read of a print fmt goes through the one driver in `rows`: a row is a line of `ROWS` in `tokens`, `literals`,
//! `trees` or `directives`, and its first word says what is made of its text. A new kind of row is an arm of that module's
//! `told`.
//!
//! An operator or cast of C is a line of `OPERANDS_AND_VALUES` in `values::operators`, and the number of a field a row of
//! `FIELDS` in `values::fields`. The texts of flags, symbols and bytes are those of small lists in `values::texts`, and what is
//! computed before is in `values::folds`; `values::samples` has what these trees are made of. How tightly an operator binds is a
//! row of `OPERATORS` in `operators`, and `names` has fields of equal names.
#![tactic(auto)]

#[cfg(test)]
mod directives;
#[cfg(test)]
mod literals;
#[cfg(test)]
mod marks;
#[cfg(test)]
mod names;
#[cfg(test)]
mod operators;
#[cfg(test)]
mod rows;
#[cfg(test)]
mod tokens;
#[cfg(test)]
mod trees;
#[cfg(test)]
mod values;
