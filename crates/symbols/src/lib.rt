//! The names that a trace file carries: of addresses in the kernel, of printk formats and of tasks.
//!
//! [`Symbols::read`] reads three texts once; each look-up is then one binary search over numbers in one array, and takes no
//! memory. A task is looked for first where `noted_places::Places` has its pid, and a symbol among those of its page of memory: that is
//! where most stand.
//!
//! For the name of an address call `name_at`, for the text of a printk format `printk_at`, and for the name of a task `comm_of`.
//! `task_place` tells where what was made of each task beforehand may stand. `symbol`, `printk` and `task_at` give the names
//! one after another, as a list of them needs, each up to its count. [`one_map`] does nothing: it is the law that names stand
//! for one map.
#![tactic(auto)]

mod digits;
mod first;
mod found;
mod guide;
mod lines;
mod maps;
mod names;
mod order;
mod read;
mod rows;
mod search;
mod table;

pub use maps::Symbols;
pub use table::one_map;
