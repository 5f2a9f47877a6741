// What every job is lent.

use std::alloc::Global;

/// What a job works with beside its files: the runtime that starts its threads, its memory, and the gate that each lane passes
/// before its lines are formed.
#[derive_where(Clone, Copy)]
pub struct Resources<'a, R, G> {
    pub rt: &'a R,
    pub alloc: Global,
    pub gate: &'a G,
}
