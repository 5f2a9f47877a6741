//! What was read, and the place after it.

use crate::expr::{Entry, Expr};
use trace_base::ByteText;

/// A tree, how deep it nests, and the place after it. The tree is boxed, so that giving it up is one call.
#[derive(Drop)]
pub struct Taken {
    pub expr: Box<Expr>,
    pub nest: u32,
    pub next: usize,
}

/// Adjoining texts, joined, and the place after them.
#[derive(Drop)]
pub struct TakenText {
    pub text: ByteText,
    pub next: usize,
}

/// How many names and `*` a type has, and the place after them.
#[derive(Clone, Copy)]
pub struct ParsedType {
    pub names: usize,
    pub stars: usize,
    pub next: usize,
}

/// An entry, how deep its value nests, and the place after it.
#[derive(Drop)]
pub struct TakenEntry {
    pub value: Box<Expr>,
    pub text: ByteText,
    pub nest: u32,
    pub next: usize,
}

/// A row of entries, how deep their values nest, and the place after them.
#[derive(Drop)]
pub struct TakenEntries {
    pub entries: Vec<Entry>,
    pub nest: u32,
    pub next: usize,
}
