// Outputs that fail from one write on, and messages that cannot be written.

use super::world::{World, run_in, world_of};
use dat_header::OpenFault;
use std::alloc::{Alloc, AllocError, Global};
use std::process::Abort;
use std::test::Fail;
use std::thread::Threads;
use trace_run::Status;
use trace_samples::{SWITCH_REPORT, TraceFile, switch_file};

const WRITE_FAILED: &[u8] = b"trace-cmd: write failed\n";

// All is written before the write that would fail.
fn is_done(world: &World, call: u64, told: &[u8]) -> bool {
    world.out.bytes() == told
        && world.err.bytes().is_empty()
        && world.out.faults() == 0
        && world.out.writes() < call
}

// What stands is the first part, and the write that failed was the last. By a byte a write that part is told.
fn is_cut(world: &World, status: Status, call: u64, most: u32, told: &[u8]) -> bool {
    status == Status::WriteFault
        && world.err.bytes() == WRITE_FAILED
        && told.starts_with(world.out.bytes())
        && world.out.faults() == 1
        && world.out.writes() == call
        && (most != 1 || world.out.bytes().len() as u64 == call.saturating_sub(1))
}

// Runs a line with an output that fails from this write on, each of which takes at most so many bytes. Whether it was done.
fn writes_before<R: Alloc<A = Global> + Abort + Threads + Sync>(
    rt: &R,
    (line, told): (&str, &[u8]),
    file: &[u8],
    most: u32,
    call: u64,
) -> Result<bool, AllocError> {
    let mut world = world_of(rt.alloc(), file)?;
    world.out.short(most);
    world.out.fail_from(call);
    let status = run_in(rt, line, &mut world)?;
    let done = status == Status::Done;
    assert!(rt;
        if done {
            is_done(&world, call, told)
        } else {
            is_cut(&world, status, call, most, told)
        },
        "{line}: {call}"
    );
    Ok(done)
}

/// Lines, and what they print of the trace.
const LINES: &[(&str, &[u8])] = &[
    ("report", SWITCH_REPORT),
    ("report --workers 3", SWITCH_REPORT),
    ("report -E", b"ftrace/function\nsched/sched_switch\n"),
    (
        "report -f",
        b"ffffffff81000000 schedule\nffffffff81000100 do_idle\n",
    ),
    ("dump --validate", b"valid\n"),
    (
        "selftest 7 10",
        b"selftest seed=7 events=10 lines=11 bytes=899 sum=22563546\n",
    ),
];

// Whether the line is done before some write fails.
fn ends_at_some_write<R: Alloc<A = Global> + Abort + Threads + Sync>(
    rt: &R,
    row: (&str, &[u8]),
    file: &[u8],
    most: u32,
) -> Result<bool, AllocError> {
    for call in 1..=600_u64 {
        if writes_before(rt, row, file, most, call)? {
            return Ok(true);
        }
    }
    Ok(false)
}

fn each_write_fails<R: Alloc<A = Global> + Abort + Threads + Sync>(
    rt: &R,
    row: (&str, &[u8]),
    file: &[u8],
) -> Result<(), AllocError> {
    for most in [u32::MAX, 7, 1] {
        let is_done = ends_at_some_write(rt, row, file, most)?;
        assert!(rt; is_done, "{}: {most}", row.0);
    }
    Ok(())
}

fn each_line_fails<R: Alloc<A = Global> + Abort + Threads + Sync>(
    rt: &R,
    file: &[u8],
) -> Result<(), AllocError> {
    for row in LINES {
        each_write_fails(rt, *row, file)?;
    }
    Ok(())
}

#[test]
fn each_write_of_an_output(rt: HostRuntime) -> Result<(), Fail> {
    let file = switch_file(rt.alloc())?;
    each_line_fails(&rt, &file)?;
    Ok(())
}

/// Lines that have a message, and their status. The second file ends inside its symbols.
const MESSAGES: &[(&str, Status)] = &[
    ("report", Status::Refused(OpenFault::Truncated(75))),
    ("dump", Status::Refused(OpenFault::Truncated(75))),
    ("split -o p", Status::Refused(OpenFault::Truncated(75))),
    ("report missing.dat", Status::ReadFault),
    ("report a b", Status::Usage),
    ("report -F a:", Status::Usage),
];

fn cut_file(alloc: Global) -> Result<Vec<u8>, AllocError> {
    let mut trace = TraceFile::new(alloc);
    trace.kallsyms.extend_from_slice(b"1 T a\n2 T ")?;
    let mut file = trace.bytes(alloc)?;
    file.truncate(75);
    Ok(file)
}

fn says_nothing<R: Alloc<A = Global> + Abort + Threads + Sync>(
    rt: &R,
    file: &[u8],
    line: &str,
    status: Status,
) -> Result<(), AllocError> {
    let mut world = world_of(rt.alloc(), file)?;
    world.err.fail_from(1);
    let found = run_in(rt, line, &mut world)?;
    let is_silent = world.out.bytes().is_empty() && world.err.faults() == 1;
    assert!(rt;
        found == status && is_silent && world.folder.counts().created == 0,
        "{line}: {found:?}"
    );
    Ok(())
}

fn none_says<R: Alloc<A = Global> + Abort + Threads + Sync>(
    rt: &R,
    file: &[u8],
) -> Result<(), AllocError> {
    for (line, status) in MESSAGES {
        says_nothing(rt, file, line, *status)?;
    }
    Ok(())
}

#[test]
fn a_message_that_cannot_be_written(rt: HostRuntime) -> Result<(), Fail> {
    let file = cut_file(rt.alloc())?;
    none_says(&rt, &file)?;
    Ok(())
}

fn runs_by_bytes<R: Alloc<A = Global> + Abort + Threads + Sync>(
    rt: &R,
    file: &[u8],
    (line, told): (&str, &[u8]),
) -> Result<(), AllocError> {
    let mut world = world_of(rt.alloc(), file)?;
    world.folder.short(1);
    world.out.short(1);
    world.err.short(1);
    let status = run_in(rt, line, &mut world)?;
    assert!(rt;
        status == Status::Done
            && world.out.bytes() == told
            && world.out.writes() == told.len() as u64,
        "{line}"
    );
    Ok(())
}

fn all_run_by_bytes<R: Alloc<A = Global> + Abort + Threads + Sync>(
    rt: &R,
    file: &[u8],
) -> Result<(), AllocError> {
    for row in LINES {
        runs_by_bytes(rt, file, *row)?;
    }
    Ok(())
}

// Every object reads, takes and gives a byte a call.
#[test]
fn a_byte_a_call(rt: HostRuntime) -> Result<(), Fail> {
    let file = switch_file(rt.alloc())?;
    all_run_by_bytes(&rt, &file)?;
    Ok(())
}
