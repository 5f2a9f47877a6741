// Reports of two files, of which a byte cannot be read or a file cannot be opened, or whose output fails.

use super::world::{World, run_in, world_of};
use sample_runs::is_first_lines;
use std::alloc::{Alloc, AllocError, Global};
use std::process::Abort;
use std::test::Fail;
use std::thread::Threads;
use trace_outside::{MemFault, MemFolder};
use trace_run::Status;
use trace_samples::TraceFile;

const LINE: &str = "report -i a.dat -i b.dat";

/// What stands in the sub-buffers of both files: an event of pid 1 at time 5; one of pid 2 at that time, and one at time 6.
const FIRST: &[&[u8]] = &[b"\x05\0\0\0\0\0\0\0\x0c\0\0\0\0\0\0\0\x02\0\0\0:\0\0\0\x01\0\0\0"];

const SECOND: &[&[u8]] = &[
    b"\x05\0\0\0\0\0\0\0\x0c\0\0\0\0\0\0\0\x02\0\0\0:\0\0\0\x02\0\0\0",
    b"\x06\0\0\0\0\0\0\0\x0c\0\0\0\0\0\0\0\x02\0\0\0:\0\0\0\x02\0\0\0",
];

const REPORT: &[u8] =
    b"a.dat: cpus=1\nb.dat: cpus=1\na.dat:            <...>-1     [000]     0.000000: [UNKNOWN EVENT 58]\nb.dat:            <...>-2     [000]     0.000000: [UNKNOWN EVENT 58]\nb.dat:            <...>-2     [000]     0.000000: [UNKNOWN EVENT 58]\n";

fn put_pages(bytes: &mut Vec<u8>, pages: &[&[u8]]) -> Result<(), AllocError> {
    for page in pages {
        let end = bytes.len().saturating_add(4096);
        bytes.extend_from_slice(page)?;
        bytes.resize(end, 0)?;
    }
    Ok(())
}

fn add_pages(alloc: Global, trace: &mut TraceFile, pages: &[&[u8]]) -> Result<(), AllocError> {
    let mut bytes = Vec::new(alloc);
    put_pages(&mut bytes, pages)?;
    trace.add_processor(&bytes)
}

fn file_of(alloc: Global, pages: &[&[u8]]) -> Result<Vec<u8>, AllocError> {
    let mut trace = TraceFile::new(alloc);
    add_pages(alloc, &mut trace, pages)?;
    trace.bytes(alloc)
}

// The second file alone has bytes past 8,192.
fn put_both(alloc: Global, folder: &mut MemFolder) -> Result<(), AllocError> {
    folder.put("a.dat", &file_of(alloc, FIRST)?)?;
    folder.put("b.dat", &file_of(alloc, SECOND)?)
}

fn world(alloc: Global) -> Result<World, AllocError> {
    let mut world = world_of(alloc, b"")?;
    put_both(alloc, &mut world.folder)?;
    Ok(world)
}

/// What fails, how many files are opened, whether anything is written, and what is said.
type Failing = (MemFault, u64, bool, &'static str);

const READS: &[Failing] = &[
    (
        MemFault::ReadAt(8192),
        2,
        true,
        "trace-cmd: b.dat: read failed\n",
    ),
    (
        MemFault::ReadAt(4096),
        2,
        true,
        "trace-cmd: a.dat: read failed\n",
    ),
    (
        MemFault::ReadAt(40),
        1,
        false,
        "trace-cmd: a.dat: read failed\n",
    ),
    (
        MemFault::Open(1),
        0,
        false,
        "trace-cmd: a.dat: read failed\n",
    ),
    (
        MemFault::Open(2),
        1,
        false,
        "trace-cmd: b.dat: read failed\n",
    ),
];

fn prints_before(world: &World, writes: bool, said: &str) -> bool {
    world.err.bytes() == said.as_bytes()
        && is_first_lines(world.out.bytes(), REPORT)
        && world.out.bytes().is_empty() != writes
}

fn calls_before(world: &World, opened: u64) -> bool {
    let counts = world.folder.counts();
    counts.opened == opened && counts.closed == opened && counts.reading > 0 && counts.misses == 0
}

fn cannot_read<R: Alloc<A = Global> + Abort + Threads + Sync>(
    rt: &R,
    (fault, opened, writes, said): Failing,
) -> Result<(), AllocError> {
    let mut world = world(rt.alloc())?;
    world.folder.fail(fault);
    let status = run_in(rt, LINE, &mut world)?;
    let is_so = prints_before(&world, writes, said) && calls_before(&world, opened);
    assert!(rt; status == Status::ReadFault && is_so, "{fault:?}");
    Ok(())
}

#[test]
fn a_read_of_one_of_two_files(rt: HostRuntime) -> Result<(), Fail> {
    for failing in READS {
        cannot_read(&rt, *failing)?;
    }
    Ok(())
}

/// How many bytes the first write takes, and whether all sub-buffers can be read. The second write fails.
const WRITES: &[(u32, bool)] = &[(1, true), (13, true), (14, true), (27, false), (100, true)];

fn is_cut(world: &World, most: u32) -> bool {
    let out = world.out.bytes();
    let counts = world.folder.counts();
    world.err.bytes() == b"trace-cmd: write failed\n".as_slice()
        && REPORT.starts_with(out)
        && out.len() == most as usize
        && counts.opened == 2
        && counts.closed == 2
}

fn cannot_write<R: Alloc<A = Global> + Abort + Threads + Sync>(
    rt: &R,
    most: u32,
    is_read: bool,
) -> Result<(), AllocError> {
    let mut world = world(rt.alloc())?;
    if !is_read {
        world.folder.fail(MemFault::ReadAt(8192));
    }
    world.out.short(most);
    world.out.fail_from(2);
    let status = run_in(rt, LINE, &mut world)?;
    assert!(rt;
        status == Status::WriteFault && is_cut(&world, most),
        "{most}"
    );
    Ok(())
}

#[test]
fn a_write_of_two_files_lines(rt: HostRuntime) -> Result<(), Fail> {
    for (most, is_read) in WRITES {
        cannot_write(&rt, *most, *is_read)?;
    }
    Ok(())
}
