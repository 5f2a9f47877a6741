// Reports of many events and of long lines, on any number of threads.

use super::inputs::{Carried, PAGE, common, head, put_longs, put_words};
use super::known::carry;
use super::words_of;
use sample_runs::{folder_of, run_words};
use std::alloc::{AllocError, Global};
use std::process::Abort;
use std::test::Fail;
use std::thread::Threads;
use trace_outside::NoGate;
use trace_run::Status;
use trace_samples::{TraceFile, many_events, many_events_report};

/// A sub-buffer of events, each a step after the one before.
#[derive(Clone, Copy)]
struct Events {
    time: u64,
    count: u32,
    step: u32,
    id: u16,
}

/// The ids of events whose lines have more than 30,000 and more than 65,536 bytes, and of one without a format.
const WIDE: u16 = 7;

const WIDEST: u16 = 8;

const UNKNOWN: u16 = 58;

// Each event of a processor has the task of the number after its own.
fn put_records(file: &mut Vec<u8>, cpu: u32, events: &Events) -> Result<(), AllocError> {
    for i in 0..events.count {
        let delta = if i == 0 { 0 } else { events.step };
        put_words(
            file,
            &[head(delta, 2), common(events.id, 0, 0), cpu.wrapping_add(1)],
        )?;
    }
    Ok(())
}

fn put_events(file: &mut Vec<u8>, cpu: u32, events: &Events) -> Result<(), AllocError> {
    let end = file.len().saturating_add(PAGE);
    put_longs(
        file,
        &[events.time, u64::from(events.count).wrapping_mul(12)],
    )?;
    put_records(file, cpu, events)?;
    file.resize(end, 0)
}

fn add_events(
    alloc: Global,
    trace: &mut TraceFile,
    cpu: u32,
    events: &Events,
) -> Result<(), AllocError> {
    let mut bytes = Vec::new(alloc);
    put_events(&mut bytes, cpu, events)?;
    trace.add_processor(&bytes)
}

fn add_all(alloc: Global, trace: &mut TraceFile, processors: &[Events]) -> Result<(), AllocError> {
    let mut cpu = 0_u32;
    for events in processors {
        add_events(alloc, trace, cpu, events)?;
        cpu = cpu.wrapping_add(1);
    }
    Ok(())
}

// A file with such a sub-buffer of each processor.
fn file_of(alloc: Global, processors: &[Events]) -> Result<Vec<u8>, AllocError> {
    let mut trace = TraceFile::new(alloc);
    carry(alloc, &mut trace, &Carried::Wide)?;
    add_all(alloc, &mut trace, processors)?;
    trace.bytes(alloc)
}

// The line of an event of a processor, with all digits of its time.
fn put_line(
    alloc: Global,
    text: &mut Vec<u8>,
    cpu: u32,
    time: u64,
    rest: &str,
) -> Result<(), AllocError> {
    let pid = cpu.wrapping_add(1);
    let line = format!(in alloc; "           <...>-{pid:<5} [{cpu:03}]     0.{time:09}: {rest}\n")?;
    text.extend_from_slice(line.as_bytes())
}

// The report of this file is this text on so many threads.
fn reports_on<R: Alloc<A = Global> + Abort + Threads + Sync>(
    rt: &R,
    workers: &str,
    file: &[u8],
    text: &[u8],
) -> Result<(), AllocError> {
    let mut folder = folder_of(rt.alloc(), file)?;
    let words = words_of(rt.alloc(), &["report", "-t", "--workers", workers])?;
    let ran = run_words(rt, &words, &mut folder, &NoGate);
    assert!(rt;
        ran.status == Status::Done && ran.out.bytes() == text && ran.err.bytes().is_empty(),
        "{workers}"
    );
    Ok(())
}

// It is the same on one thread, on three and on sixty-four.
fn reports<R: Alloc<A = Global> + Abort + Threads + Sync>(
    rt: &R,
    file: &[u8],
    text: &[u8],
) -> Result<(), AllocError> {
    for workers in ["1", "3", "64"] {
        reports_on(rt, workers, file, text)?;
    }
    Ok(())
}

#[test]
fn many_events_of_one_processor_against_two_of_another(rt: HostRuntime) -> Result<(), Fail> {
    let text = many_events_report(rt.alloc())?;
    let file = many_events(rt.alloc())?;
    reports(&rt, &file, text.as_bytes())?;
    Ok(())
}

const WIDE_EVENTS: [Events; 2] = [
    Events {
        time: 10,
        count: 6,
        step: 10,
        id: WIDE,
    },
    Events {
        time: 15,
        count: 4,
        step: 15,
        id: UNKNOWN,
    },
];

/// The processors of the lines, and their times.
const WIDE_LINES: [(u32, u64); 10] = [
    (0, 10),
    (1, 15),
    (0, 20),
    (0, 30),
    (1, 30),
    (0, 40),
    (1, 45),
    (0, 50),
    (0, 60),
    (1, 60),
];

fn put_wide_lines(alloc: Global, text: &mut Vec<u8>, wide: &str) -> Result<(), AllocError> {
    text.extend_from_slice(b"cpus=2\n")?;
    for (cpu, time) in WIDE_LINES {
        let rest = if cpu == 0 { wide } else { "[UNKNOWN EVENT 58]" };
        put_line(alloc, text, cpu, time, rest)?;
    }
    Ok(())
}

#[test]
fn a_region_is_full_before_its_sub_buffer_ends(rt: HostRuntime) -> Result<(), Fail> {
    let wide = format!(in rt.alloc(); "wide:                 {:>30000}", 1)?;
    let mut text = Vec::new(rt.alloc());
    put_wide_lines(rt.alloc(), &mut text, wide.as_str())?;
    let file = file_of(rt.alloc(), &WIDE_EVENTS)?;
    reports(&rt, &file, &text)?;
    Ok(())
}

// The longest line: 65,533 bytes of its text, an ellipsis, and the newline.
fn put_longest(alloc: Global, text: &mut Vec<u8>, cpu: u32, time: u64) -> Result<(), AllocError> {
    let end = text.len().saturating_add(65_533);
    put_line(alloc, text, cpu, time, "widest:               ")?;
    text.pop();
    text.resize(end, b' ')?;
    text.extend_from_slice(b"...\n")
}

const WIDEST_EVENTS: [Events; 2] = [
    Events {
        time: 10,
        count: 3,
        step: 10,
        id: WIDEST,
    },
    Events {
        time: 15,
        count: 3,
        step: 10,
        id: WIDEST,
    },
];

const WIDEST_LINES: [(u32, u64); 6] = [(0, 10), (1, 15), (0, 20), (1, 25), (0, 30), (1, 35)];

fn put_widest_lines(alloc: Global, text: &mut Vec<u8>) -> Result<(), AllocError> {
    text.extend_from_slice(b"cpus=2\n")?;
    for (cpu, time) in WIDEST_LINES {
        put_longest(alloc, text, cpu, time)?;
    }
    Ok(())
}

#[test]
fn lines_that_fill_their_regions(rt: HostRuntime) -> Result<(), Fail> {
    let mut text = Vec::new(rt.alloc());
    put_widest_lines(rt.alloc(), &mut text)?;
    let file = file_of(rt.alloc(), &WIDEST_EVENTS)?;
    reports(&rt, &file, &text)?;
    Ok(())
}

// An event on each of 1,024 processors, the last one's first.
fn push_processors(processors: &mut Vec<Events>) -> Result<(), AllocError> {
    for i in 0..1024_u32 {
        processors.push(Events {
            time: u64::from(5000 - i),
            count: 1,
            step: 0,
            id: UNKNOWN,
        })?;
    }
    Ok(())
}

fn put_all_lines(alloc: Global, text: &mut Vec<u8>) -> Result<(), AllocError> {
    text.extend_from_slice(b"cpus=1024\n")?;
    for i in 0..1024_u32 {
        put_line(
            alloc,
            text,
            1023 - i,
            u64::from(3977 + i),
            "[UNKNOWN EVENT 58]",
        )?;
    }
    Ok(())
}

fn file_of_all(alloc: Global) -> Result<Vec<u8>, AllocError> {
    let mut processors = Vec::new(alloc);
    push_processors(&mut processors)?;
    file_of(alloc, &processors)
}

// The report of an event on each of 1,024 processors is in the order of their times.
fn all_processors<R: Alloc<A = Global> + Abort + Threads + Sync>(
    rt: &R,
    workers: &str,
) -> Result<(), AllocError> {
    let file = file_of_all(rt.alloc())?;
    let mut text = Vec::new(rt.alloc());
    put_all_lines(rt.alloc(), &mut text)?;
    reports_on(rt, workers, &file, &text)
}

#[test]
fn all_processors_on_one_thread(rt: HostRuntime) -> Result<(), Fail> {
    all_processors(&rt, "1")?;
    Ok(())
}

#[test]
fn all_processors_on_three_threads(rt: HostRuntime) -> Result<(), Fail> {
    all_processors(&rt, "3")?;
    Ok(())
}

#[test]
fn all_processors_on_sixty_four_threads(rt: HostRuntime) -> Result<(), Fail> {
    all_processors(&rt, "64")?;
    Ok(())
}
