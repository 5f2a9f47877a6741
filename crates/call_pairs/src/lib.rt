//! The calls that the kernel's function graph tracer records: which entry an exit belongs to, and what is told of both.
//!
//! What is seen of a trace, entries, exits and losses, goes into a [`Tracing`] in the order in which it happened. There is one
//! [`Call`] for each, with its duration once that is known. Which exit belongs to which entry is said by their places in the
//! list of what is seen (`specs/Pairs.antt`); the code keeps a stack of open entries for each thread. It knows neither formats
//! nor files.
#![tactic(auto)]

mod call;
mod graph_item;
pub mod laws;
mod stacks;
mod thread;
mod threads;
mod tracing;

pub use call::Call;
pub use graph_item::{GraphEvent, GraphItem, clipped};
pub use thread::Thread;
pub use tracing::Tracing;
