// A byte of the file that cannot be read, and a file that cannot be opened.

use super::world::{World, run_in, world_of};
use sample_runs::is_first_lines;
use std::alloc::{Alloc, AllocError, Global};
use std::process::Abort;
use std::test::Fail;
use std::thread::Threads;
use trace_outside::MemFault;
use trace_run::Status;
use trace_samples::{SWITCH_HEADER, SWITCH_REPORT, switch_file};

const READ_FAILED: &[u8] = b"trace-cmd: trace.dat: read failed\n";

// Whether a report reads this byte.
fn is_read(byte: u64) -> bool {
    byte < SWITCH_HEADER || byte >= 16_384 && byte < 24_576
}

// What a report prints and says that cannot read this byte.
fn prints_before(world: &World, status: Status, byte: u64) -> bool {
    if is_read(byte) {
        status == Status::ReadFault
            && world.err.bytes() == READ_FAILED
            && is_first_lines(world.out.bytes(), SWITCH_REPORT)
            && world.out.bytes().is_empty() == (byte < SWITCH_HEADER)
    } else {
        status == Status::Done && world.err.bytes().is_empty() && world.out.bytes() == SWITCH_REPORT
    }
}

// The calls that it makes of the folder.
fn calls_before(world: &World, byte: u64) -> bool {
    let counts = world.folder.counts();
    counts.opened == 1
        && counts.closed == 1
        && counts.misses == 0
        && counts.reading == u64::from(is_read(byte))
        && counts.writing == 0
        && world.folder.wants() == 0
}

// A report while this byte cannot be read, by reads of at most so many bytes.
fn reports_before<R: Alloc<A = Global> + Abort + Threads + Sync>(
    rt: &R,
    file: &[u8],
    byte: u64,
    most: u32,
) -> Result<(), AllocError> {
    let mut world = world_of(rt.alloc(), file)?;
    world.folder.fail(MemFault::ReadAt(byte));
    world.folder.short(most);
    let status = run_in(rt, "report", &mut world)?;
    assert!(rt;
        prints_before(&world, status, byte) && calls_before(&world, byte),
        "{byte}"
    );
    Ok(())
}

fn reports_before_ends<R: Alloc<A = Global> + Abort + Threads + Sync>(
    rt: &R,
    file: &[u8],
) -> Result<(), AllocError> {
    for byte in [0, 30, 16_384, 20_480, 24_575, 24_576, u64::MAX] {
        reports_before(rt, file, byte, u32::MAX)?;
    }
    Ok(())
}

fn reports_before_each_byte<R: Alloc<A = Global> + Abort + Threads + Sync>(
    rt: &R,
    file: &[u8],
) -> Result<(), AllocError> {
    for byte in 0..SWITCH_HEADER {
        reports_before(rt, file, byte, u32::MAX)?;
    }
    Ok(())
}

fn reports_before_each_ninety_seventh<R: Alloc<A = Global> + Abort + Threads + Sync>(
    rt: &R,
    file: &[u8],
    most: u32,
) -> Result<(), AllocError> {
    for i in 0..254_u64 {
        reports_before(rt, file, i * 97, most)?;
    }
    Ok(())
}

#[test]
fn each_byte_of_the_header_and_each_ninety_seventh(rt: HostRuntime) -> Result<(), Fail> {
    let file = switch_file(rt.alloc())?;
    reports_before_ends(&rt, &file)?;
    reports_before_each_byte(&rt, &file)?;
    reports_before_each_ninety_seventh(&rt, &file, u32::MAX)?;
    reports_before_each_ninety_seventh(&rt, &file, 1)?;
    Ok(())
}

fn is_unopened(world: &World, status: Status) -> bool {
    let counts = world.folder.counts();
    status == Status::ReadFault
        && world.err.bytes() == READ_FAILED
        && world.out.bytes().is_empty()
        && world.out.writes() == 0
        && counts.reading == 1
        && counts.opened == 0
        && counts.misses == 0
        && counts.created == 0
}

fn cannot_open<R: Alloc<A = Global> + Abort + Threads + Sync>(
    rt: &R,
    file: &[u8],
    line: &str,
) -> Result<(), AllocError> {
    let mut world = world_of(rt.alloc(), file)?;
    world.folder.fail(MemFault::Open(1));
    let status = run_in(rt, line, &mut world)?;
    assert!(rt; is_unopened(&world, status), "{line}");
    Ok(())
}

fn none_can_open<R: Alloc<A = Global> + Abort + Threads + Sync>(
    rt: &R,
    file: &[u8],
) -> Result<(), AllocError> {
    for line in ["report", "report -E", "dump", "split -o p"] {
        cannot_open(rt, file, line)?;
    }
    Ok(())
}

#[test]
fn a_file_that_cannot_be_opened(rt: HostRuntime) -> Result<(), Fail> {
    let file = switch_file(rt.alloc())?;
    none_can_open(&rt, &file)?;
    Ok(())
}

/// What needs no sub-buffer is told whole though none can be read.
const HEADERS_ALONE: &[(&str, &str)] = &[
    ("report -E", "ftrace/function\nsched/sched_switch\n"),
    (
        "report -f",
        "ffffffff81000000 schedule\nffffffff81000100 do_idle\n",
    ),
    ("report -P", ""),
    ("report --cpu 2", "cpus=2\n"),
    ("dump --validate", "valid\n"),
];

fn is_told_whole<R: Alloc<A = Global> + Abort + Threads + Sync>(
    rt: &R,
    file: &[u8],
    line: &str,
    told: &str,
    byte: u64,
) -> Result<(), AllocError> {
    let mut world = world_of(rt.alloc(), file)?;
    world.folder.fail(MemFault::ReadAt(byte));
    let status = run_in(rt, line, &mut world)?;
    assert!(rt;
        status == Status::Done && world.out.bytes() == told.as_bytes(),
        "{line}"
    );
    Ok(())
}

fn all_are_told_whole<R: Alloc<A = Global> + Abort + Threads + Sync>(
    rt: &R,
    file: &[u8],
    byte: u64,
) -> Result<(), AllocError> {
    for (line, told) in HEADERS_ALONE {
        is_told_whole(rt, file, line, told, byte)?;
    }
    Ok(())
}

#[test]
fn headers_alone(rt: HostRuntime) -> Result<(), Fail> {
    let file = switch_file(rt.alloc())?;
    all_are_told_whole(&rt, &file, 16_384)?;
    all_are_told_whole(&rt, &file, 20_480)?;
    Ok(())
}
