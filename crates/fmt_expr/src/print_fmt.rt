//! A print fmt that was read.

use crate::expr::Expr;
use trace_base::{ByteText, ListOf};

/// A print fmt: what a record of an event is printed as (Documentation/trace/events.rst, 'Event formats').
#[derive(Drop)]
pub struct PrintFmt {
    /// The format text, with its escapes resolved.
    pub text: ByteText,
    /// The arguments, in order.
    pub args: ListOf<Expr>,
    /// The kernel's long size in bytes, 4 or 8.
    pub long: u32,
}
