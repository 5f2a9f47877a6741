// Splits in which a creation, a write or a finish fails, in a folder that has older files of the new names.

use super::world::{World, run_in, world_of};
use sample_runs::run_line;
use std::alloc::{Alloc, AllocError, Global};
use std::process::Abort;
use std::test::Fail;
use std::thread::Threads;
use trace_outside::{MemFault, MemFolder, MemSink};
use trace_run::Status;
use trace_samples::TraceFile;

// Events of the pids 1 to 5 at the times 10 to 50.
const FIVE: &[u8] =
    b"\x0a\0\0\0\0\0\0\0<\0\0\0\0\0\0\0\x02\0\0\0:\0\0\0\x01\0\0\0B\x01\0\0:\0\0\0\x02\0\0\0B\x01\0\0:\0\0\0\x03\0\0\0B\x01\0\0:\0\0\0\x04\0\0\0B\x01\0\0:\0\0\0\x05\0\0\0";

/// The new files of a split by two events, each with its report.
const FILES: [(&str, &[u8]); 3] = [
    (
        "part.1",
        b"cpus=1\n           <...>-1     [000]     0.000000010: [UNKNOWN EVENT 58]\n           <...>-2     [000]     0.000000020: [UNKNOWN EVENT 58]\n",
    ),
    (
        "part.2",
        b"cpus=1\n           <...>-3     [000]     0.000000030: [UNKNOWN EVENT 58]\n           <...>-4     [000]     0.000000040: [UNKNOWN EVENT 58]\n",
    ),
    (
        "part.3",
        b"cpus=1\n           <...>-5     [000]     0.000000050: [UNKNOWN EVENT 58]\n",
    ),
];

const OLDER: &[u8] = b"an older file";

fn trace(alloc: Global) -> Result<Vec<u8>, AllocError> {
    let mut trace = TraceFile::new(alloc);
    trace.add_processor(FIVE)?;
    trace.bytes(alloc)
}

// A folder with the trace, and with older files of the first two new names.
fn world(alloc: Global) -> Result<World, AllocError> {
    let file = trace(alloc)?;
    let mut world = world_of(alloc, &file)?;
    world.folder.put("part.1", OLDER)?;
    world.folder.put("part.2", OLDER)?;
    Ok(world)
}

// The file of this name has a sub-buffer, and this report.
fn is_whole<R: Alloc<A = Global> + Abort + Threads + Sync>(
    rt: &R,
    folder: &mut MemFolder,
    name: &str,
    report: &[u8],
) -> Result<bool, AllocError> {
    let line = format!(in rt.alloc(); "report -t {name}")?;
    let mut out = MemSink::new(rt.alloc());
    let mut err = MemSink::new(rt.alloc());
    let status = run_line(rt, line.as_str(), folder, &mut out, &mut err)?;
    let len = folder.get(name).map_or(0, |bytes| bytes.len());
    Ok(status == Status::Done && out.bytes() == report && len == 8192)
}

fn are_whole<R: Alloc<A = Global> + Abort + Threads + Sync>(
    rt: &R,
    folder: &mut MemFolder,
    files: &[(&str, &[u8])],
) -> Result<bool, AllocError> {
    for (name, report) in files {
        if !is_whole(rt, folder, name, report)? {
            return Ok(false);
        }
    }
    Ok(true)
}

// Whether the name is as it was: the first two have older files.
fn is_as_before(folder: &MemFolder, name: &str, number: usize) -> bool {
    if number < 2 {
        folder.get(name) == Some(OLDER)
    } else {
        folder.get(name).is_none()
    }
}

fn are_as_before(folder: &MemFolder, whole: usize) -> bool {
    for number in whole..3 {
        if !is_as_before(folder, FILES[number].0, number) {
            return false;
        }
    }
    true
}

// No other name has a file.
fn are_absent(folder: &MemFolder) -> bool {
    for name in ["part", "part.0", "part.4", "part.1.part", "part.2.part"] {
        if folder.get(name).is_some() {
            return false;
        }
    }
    true
}

// The first so many new files are whole, and the names of the others as they were.
fn leaves<R: Alloc<A = Global> + Abort + Threads + Sync>(
    rt: &R,
    folder: &mut MemFolder,
    whole: usize,
    label: MemFault,
) -> Result<(), AllocError> {
    // No call has this number.
    folder.fail(MemFault::Open(0));
    let whole = whole.min(3);
    let is_left = are_as_before(folder, whole) && are_absent(folder);
    let is_made = are_whole(rt, folder, &FILES[..whole])?;
    assert!(rt; is_left && is_made, "{label:?}");
    Ok(())
}

/// A fault, how many new files are whole then, how many were created, and the status.
type Failing = (MemFault, usize, u64, Status);

fn ends_so(world: &World, found: Status, (_, _, created, status): Failing) -> bool {
    let counts = world.folder.counts();
    found == status
        && world.out.writes() == 0
        && counts.created == created
        && world.folder.wants() == 0
        && counts.opened == 1
        && counts.closed == 1
        && counts.writing == u64::from(status == Status::WriteFault)
}

// A split with this fault, whose writes take at most so many bytes.
fn splits<R: Alloc<A = Global> + Abort + Threads + Sync>(
    rt: &R,
    most: u32,
    failing: Failing,
) -> Result<(), AllocError> {
    let (fault, whole, ..) = failing;
    let mut world = world(rt.alloc())?;
    world.folder.short(most);
    world.folder.fail(fault);
    let found = run_in(rt, "split -e 2 -r -o part", &mut world)?;
    assert!(rt; ends_so(&world, found, failing), "{fault:?}: {found:?}");
    leaves(rt, &mut world.folder, whole, fault)
}

const FAULTS: &[Failing] = &[
    (MemFault::Create(1), 0, 0, Status::WriteFault),
    (MemFault::Create(2), 1, 1, Status::WriteFault),
    (MemFault::Create(3), 2, 2, Status::WriteFault),
    (MemFault::Create(4), 3, 3, Status::Done),
    (MemFault::Finish(1), 0, 1, Status::WriteFault),
    (MemFault::Finish(2), 1, 2, Status::WriteFault),
    (MemFault::Finish(3), 2, 3, Status::WriteFault),
    (MemFault::Finish(4), 3, 3, Status::Done),
    (MemFault::ReadAt(40), 0, 0, Status::ReadFault),
    (MemFault::ReadAt(8191), 0, 0, Status::ReadFault),
    (MemFault::ReadAt(8192), 3, 3, Status::Done),
];

#[test]
fn each_creation_and_finish(rt: HostRuntime) -> Result<(), Fail> {
    for failing in FAULTS {
        splits(&rt, u32::MAX, *failing)?;
        splits(&rt, 1, *failing)?;
    }
    Ok(())
}

// By a byte a write a file is 8,192 of them. The write of this number fails.
fn fails_at<R: Alloc<A = Global> + Abort + Threads + Sync>(
    rt: &R,
    call: u64,
) -> Result<(), AllocError> {
    let whole = (call.saturating_sub(1) / 8192).min(3);
    let (created, status) = if whole < 3 {
        (whole + 1, Status::WriteFault)
    } else {
        (3, Status::Done)
    };
    splits(
        rt,
        1,
        (MemFault::Write(call), whole as usize, created, status),
    )
}

#[test]
fn each_ninety_seventh_byte_of_the_new_files(rt: HostRuntime) -> Result<(), Fail> {
    for i in 0..254_u64 {
        fails_at(&rt, i * 97 + 1)?;
    }
    for call in [8_192, 16_384, 24_576, 24_577] {
        fails_at(&rt, call)?;
    }
    Ok(())
}

// Whole files before the write of this number, and whether it was the last.
fn splits_before<R: Alloc<A = Global> + Abort + Threads + Sync>(
    rt: &R,
    call: u64,
) -> Result<bool, AllocError> {
    let mut world = world(rt.alloc())?;
    world.folder.fail(MemFault::Write(call));
    let status = run_in(rt, "split -e 2 -r -o part", &mut world)?;
    let is_done = status == Status::Done;
    let created = world.folder.counts().created;
    assert!(rt;
        is_done || status == Status::WriteFault && created > 0,
        "{call}"
    );
    let whole = if is_done {
        3
    } else {
        created.saturating_sub(1)
    };
    leaves(rt, &mut world.folder, whole as usize, MemFault::Write(call))?;
    Ok(is_done)
}

// The number of the first write at which the split is done.
fn calls_of_a_split<R: Alloc<A = Global> + Abort + Threads + Sync>(
    rt: &R,
) -> Result<Option<u64>, AllocError> {
    for call in 1..=600_u64 {
        if splits_before(rt, call)? {
            return Ok(Some(call));
        }
    }
    Ok(None)
}

#[test]
fn each_write_of_a_split(rt: HostRuntime) -> Result<(), Fail> {
    let calls = calls_of_a_split(&rt)?;
    assert!(rt; calls.is_some_and(|calls| calls > 6), "{calls:?}");
    Ok(())
}
