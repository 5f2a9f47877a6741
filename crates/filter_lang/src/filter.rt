//! A filter that was read.

use crate::expr::FilterExpr;
use trace_base::{ByteText, ListOf};

/// A name of events: `A` names the events and the systems of that name, `A/B` the event B of the system A.
#[derive(Drop)]
pub struct EventName {
    pub first: ByteText,
    pub second: Option<ByteText>,
}

/// Names of events, and a condition; without one it holds of each event that is named.
#[derive(Drop)]
pub struct Filter {
    pub events: ListOf<EventName>,
    pub cond: Option<FilterExpr>,
}
