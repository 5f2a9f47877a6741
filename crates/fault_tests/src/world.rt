// The objects of a run, and a run over them.

use sample_runs::{folder_of, run_line};
use std::alloc::{Alloc, AllocError, Global};
use std::thread::Threads;
use trace_outside::{MemFolder, MemSink};
use trace_run::Status;

#[derive(Drop)]
pub(super) struct World {
    pub(super) folder: MemFolder,
    pub(super) out: MemSink,
    pub(super) err: MemSink,
}

/// A folder with this file under the name trace.dat, and two empty outputs.
pub(super) fn world_of(alloc: Global, file: &[u8]) -> Result<World, AllocError> {
    let folder = folder_of(alloc, file)?;
    Ok(World {
        folder,
        out: MemSink::new(alloc),
        err: MemSink::new(alloc),
    })
}

/// Runs the words of a line.
pub(super) fn run_in<R: Alloc<A = Global> + Threads + Sync>(
    rt: &R,
    line: &str,
    world: &mut World,
) -> Result<Status, AllocError> {
    run_line(rt, line, &mut world.folder, &mut world.out, &mut world.err)
}
