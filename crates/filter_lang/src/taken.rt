//! What was read, and the place after it.

use crate::expr::FilterExpr;
use crate::filter::EventName;

/// A tree, and the place after it. The tree is boxed, so that giving it up is one call.
#[derive(Drop)]
pub struct Taken {
    pub expr: Box<FilterExpr>,
    pub next: usize,
}

/// An event's name, and the place after it.
#[derive(Drop)]
pub struct TakenEvent {
    pub event: EventName,
    pub next: usize,
}

/// Names of events, and the place after them.
#[derive(Drop)]
pub struct TakenEvents {
    pub events: Vec<EventName>,
    pub next: usize,
}
