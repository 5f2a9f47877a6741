//! Tests of what print fmts print (`fmt_print`), and of what they print from: a trace file's names (`symbols`) and its event
//! formats (`format_parse`). Whole lines of events have theirs in `line_tests`.
//!
//! A line of symbols, of printk formats or of command lines is a line of the texts in `names`, and what is found there a line
//! beside them. A field's declaration is a line of `FIELDS` in `formats`, and a whole format one of `TEXTS`.
//!
//! A conversion of a number is a line of `NUMBERS` in `print_fmts`, one of a number in hexadecimal a line of `HEXADECIMAL`, one
//! of a text a line of `TEXTS`, what symbols and printk formats give one of `OTHERS`, and arguments of every kind, written as C,
//! are lines of `ARGUMENTS`.
#![tactic(auto)]

#[cfg(test)]
mod formats;
#[cfg(test)]
mod names;
#[cfg(test)]
mod print_fmts;
