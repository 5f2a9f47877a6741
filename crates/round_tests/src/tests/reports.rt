//! Reports of processors in memory: their order, their ends, and what is written before a fault.

mod entries;
mod marks;
mod pages;
mod visits;

use End::{Done, Malformed};
use IoFault::{Read, Write};
use cpu_workers::{SHARED_FROM, Workers};
use marks::{Marks, len_of, mark};
use pages::{Page, bytes_of, parts_of};
use report_rounds::{RoundLanes, report_rounds};
use std::alloc::{AllocError, Global};
use std::test::Fail;
use std::thread::Threads;
use subpage::CutPlace;
use time_merge::{End, IoFault};
use trace_base::ByteText;
use trace_outside::{File, Gate, MemFile, MemSink, NoGate, Pending, Sink};
use trace_samples::layout;

/// What a report is made with.
#[derive(Clone, Copy)]
struct Setup<'a> {
    /// How many of the file's sub-buffers each processor has, from number 3 on.
    counts: &'a [u32],
    /// How many bytes a region has.
    room: u32,
    /// How many workers there are, and from how many bytes on lanes are shared out to them.
    workers: (u32, u64),
}

// Reports the processors of a file. `None`: there is no such call.
fn report<R: Threads + Sync, F: File, O: Sink>(
    rt: &R,
    alloc: Global,
    setup: Setup<'_>,
    file: &mut F,
    out: &mut O,
) -> Result<Option<Result<End, IoFault>>, AllocError> {
    report_behind(rt, alloc, &NoGate, setup, file, out)
}

// The same with lanes that pass this gate.
fn report_behind<R: Threads + Sync, G: Gate, F: File, O: Sink>(
    rt: &R,
    alloc: Global,
    gate: &G,
    setup: Setup<'_>,
    file: &mut F,
    out: &mut O,
) -> Result<Option<Result<End, IoFault>>, AllocError> {
    let Setup {
        counts,
        room,
        workers: (workers, shared_from),
    } = setup;
    if counts.len() > 1024 || room < 2 || workers < 1 || workers > 64 {
        return Ok(None);
    }
    let layout = layout();
    let parts = parts_of(alloc, counts)?;
    let lanes = RoundLanes::new(alloc, &layout, room, parts.as_slice())?;
    let pending = Pending::new(alloc)?;
    let workers = Workers {
        rt,
        count: workers,
        shared_from,
        gate,
    };
    Ok(Some(report_rounds(&workers, &Marks, file, lanes, pending, out)))
}

// Whether a report has this text and this end.
fn reports<R: Threads + Sync>(
    rt: &R,
    alloc: Global,
    setup: Setup<'_>,
    pages: &[Page],
    text: &[u8],
    end: Result<End, IoFault>,
) -> Result<bool, AllocError> {
    let bytes = bytes_of(alloc, pages)?;
    let mut file = MemFile::new(ByteText::copy(alloc, bytes.as_slice())?);
    let mut out = MemSink::new(alloc);
    let found = report(rt, alloc, setup, &mut file, &mut out)?;
    Ok(found == Some(end) && out.bytes() == text)
}

fn events(time: u64, count: u32, step: u32) -> Page {
    Page::Events { time, count, step }
}

// The number that a word spells, or else 0.
fn number(word: &str) -> u32 {
    word.parse::<u32>().unwrap_or(0)
}

// A sub-buffer by the time of its first event, how many there are, and how much later each is than the one before it.
fn page_of(word: &str) -> Page {
    let mut parts = word.split(',');
    let time = number(parts.next().unwrap_or(""));
    let count = number(parts.next().unwrap_or(""));
    let step = number(parts.next().unwrap_or(""));
    if word == "bad" {
        Page::Malformed
    } else {
        events(u64::from(time), count, step)
    }
}

// The end of a report, or the processor and the number of its malformed sub-buffer.
fn end_of(word: &str) -> End {
    let mut parts = word.split(',');
    let cpu = number(parts.next().unwrap_or(""));
    let page = number(parts.next().unwrap_or(""));
    if word == "done" {
        Done
    } else {
        Malformed(CutPlace {
            cpu,
            page: u64::from(page),
        })
    }
}

// How many sub-buffers processor 3 has, the four of it and of processor 4, the text, and the end: ties, first by processor
// and then by position; items at 17 have no line; the key of the item at 15 is 20; a processor without sub-buffers; a cut at
// the very start, of the first processor and of the second; two cuts: (30, processor 3), which an item at 30 of processor 4
// comes after; then (20, processor 4); a malformed sub-buffer after one without items.
const REPORTS: &str = "\
2 10,4,1 30,2,15 11,3,0 44,1,0 d0d1e1e1e1d2d3d0e4d5 done
1 15,4,1 17,1,0 17,0,0 27,2,1 d5d6d8e8 done
2 20,1,0 15,1,0 18,1,0 19,0,0 e8d0d5 done
0 10,1,0 12,1,0 13,1,0 14,1,0 e0e2e3e4 done
1 bad 10,1,0 10,1,0 10,1,0  3,0
3 10,1,0 10,1,0 10,1,0 bad  4,0
2 10,3,10 bad 20,2,10 bad d0d0e0d0 3,1
2 10,3,10 bad 20,1,0 bad d0d0e0 4,1
3 10,1,0 15,0,0 bad 12,1,0 d0 3,2";

// A row's report in regions of so many bytes, on so many workers.
fn row_reports<R: Threads + Sync>(
    rt: &R,
    alloc: Global,
    row: &str,
    room: u32,
    workers: (u32, u64),
) -> Result<bool, AllocError> {
    let mut words = row.split(' ');
    let first = number(words.next().unwrap_or("")).min(4);
    let mut pages = Vec::new(alloc);
    for _ in 0..4 {
        pages.push(page_of(words.next().unwrap_or("")))?;
    }
    let text = words.next().unwrap_or("");
    let end = end_of(words.next().unwrap_or(""));
    let setup = Setup {
        counts: &[first, 4 - first],
        room,
        workers,
    };
    reports(rt, alloc, setup, pages.as_slice(), text.as_bytes(), Ok(end))
}

// How many workers there are, and from how many bytes on lanes are shared out to them: one; several in each round, in those
// in which both lanes hold items, and in the first one alone.
const WORKERS: [(u32, u64); 4] = [(1, 0), (3, 0), (3, 8192), (64, SHARED_FROM)];

// The same for each size of a region and all these workers.
fn always_reports<R: Threads + Sync>(rt: &R, alloc: Global, row: &str) -> Result<bool, AllocError> {
    for room in [2, 5, 65_537] {
        for workers in WORKERS {
            if !row_reports(rt, alloc, row, room, workers)? {
                return Ok(false);
            }
        }
    }
    Ok(true)
}

#[test]
fn items_come_by_key_up_to_the_least_cut(rt: HostRuntime) -> Result<(), Fail> {
    for row in REPORTS.lines() {
        assert!(rt; always_reports(&rt, rt.alloc(), row)?, "{row}");
    }
    Ok(())
}

// The sub-buffers of 16 processors, 20 each of 145 events. They follow at like rates.
fn put_like_rates(pages: &mut Vec<Page>) -> Result<(), AllocError> {
    for lane in 0..16_u64 {
        for i in 0..20_u64 {
            pages.push(events(1 + 2320 * i + lane, 145, 16))?;
        }
    }
    Ok(())
}

// A round writes once: what it prints is less than what waits at most.
#[test]
fn lanes_of_like_rates_form_a_sub_buffer_each_in_a_round(rt: HostRuntime) -> Result<(), Fail> {
    let mut pages = Vec::new(rt.alloc());
    put_like_rates(&mut pages)?;
    let bytes = bytes_of(rt.alloc(), pages.as_slice())?;
    let mut file = MemFile::new(ByteText::from_vec(bytes));
    let mut out = MemSink::new(rt.alloc());
    let setup = Setup {
        counts: &[20; 16],
        room: 65_537,
        workers: (1, 0),
    };
    let end = report(&rt, rt.alloc(), setup, &mut file, &mut out)?;
    assert!(rt; end == Some(Ok(Done)));
    assert!(rt; out.writes() <= 22, "{}", out.writes());
    Ok(())
}

fn put_mark(text: &mut Vec<u8>, cpu: u32, time: u64) -> Result<(), AllocError> {
    let bytes = mark(cpu, time);
    text.extend_from_slice(&bytes[..len_of(time) as usize])
}

// Sub-buffers with the 3,000 events of a processor, a nanosecond apart.
fn put_many(pages: &mut Vec<Page>, first: u64) -> Result<(), AllocError> {
    for i in 0..9_u64 {
        let count = if i == 8 { 280 } else { 340 };
        pages.push(events(first.saturating_add(340 * i), count, 1))?;
    }
    Ok(())
}

// The sub-buffers of two processors: 306 lines in each but the last of the first processor's nine, and after them 21 with
// at most a line each, whose events come first but for the last one.
fn put_two_processors(pages: &mut Vec<Page>) -> Result<(), AllocError> {
    put_many(pages, 10_000)?;
    for time in 1..=20_u64 {
        pages.push(events(time, 1, 0))?;
    }
    pages.push(events(20_000, 1, 0))?;
    Ok(())
}

// Marks of a processor at these times.
fn put_marks(text: &mut Vec<u8>, cpu: u32, from: u64, to: u64) -> Result<(), AllocError> {
    for time in from..to {
        put_mark(text, cpu, time)?;
    }
    Ok(())
}

// Whether the reports of so many sub-buffers have this text, in regions of several sizes, on several workers.
fn often_reports<R: Threads + Sync>(
    rt: &R,
    alloc: Global,
    counts: &[u32],
    pages: &[Page],
    rooms: &[(u32, (u32, u64))],
    text: &[u8],
) -> Result<bool, AllocError> {
    for (room, workers) in rooms {
        let setup = Setup {
            counts,
            room: *room,
            workers: *workers,
        };
        if !reports(rt, alloc, setup, pages, text, Ok(Done))? {
            return Ok(false);
        }
    }
    Ok(true)
}

fn many_pages(alloc: Global) -> Result<Vec<Page>, AllocError> {
    let mut pages = Vec::new(alloc);
    put_many(&mut pages, 1)?;
    pages.push(events(2, 2, 4999))?;
    Ok(pages)
}

fn many_marks(alloc: Global) -> Result<Vec<u8>, AllocError> {
    let mut text = Vec::new(alloc);
    put_marks(&mut text, 3, 1, 3)?;
    put_mark(&mut text, 4, 2)?;
    put_marks(&mut text, 3, 3, 3001)?;
    put_mark(&mut text, 4, 5001)?;
    Ok(text)
}

#[test]
fn many_events_of_one_processor_against_two_of_another(rt: HostRuntime) -> Result<(), Fail> {
    let pages = many_pages(rt.alloc())?;
    let text = many_marks(rt.alloc())?;
    let rooms = [(2, (1, 0)), (9, (3, 8192)), (65_537, (64, SHARED_FROM))];
    assert!(rt; often_reports(&rt, rt.alloc(), &[9, 1], &pages, &rooms, &text)?);
    Ok(())
}

fn waiting_marks(alloc: Global) -> Result<Vec<u8>, AllocError> {
    let mut text = Vec::new(alloc);
    put_marks(&mut text, 4, 1, 21)?;
    put_marks(&mut text, 3, 10_000, 13_000)?;
    put_mark(&mut text, 4, 20_000)?;
    Ok(text)
}

fn two_processors(alloc: Global) -> Result<Vec<Page>, AllocError> {
    let mut pages = Vec::new(alloc);
    put_two_processors(&mut pages)?;
    Ok(pages)
}

#[test]
fn more_lines_wait_than_a_region_keeps(rt: HostRuntime) -> Result<(), Fail> {
    let pages = two_processors(rt.alloc())?;
    let text = waiting_marks(rt.alloc())?;
    let rooms = [
        (65_537, (1, 0)),
        (65_537, (3, 8192)),
        (65_537, (64, SHARED_FROM)),
    ];
    assert!(rt; often_reports(&rt, rt.alloc(), &[9, 21], &pages, &rooms, &text)?);
    Ok(())
}

// Two sub-buffers of each, the later ones after the earlier ones of all.
fn pages_of_each(alloc: Global) -> Result<Vec<Page>, AllocError> {
    let mut pages = Vec::new(alloc);
    for i in 0..1024_u32 {
        pages.push(events(u64::from(5000 - i), 1, 0))?;
        pages.push(events(u64::from(10_000 - i), 1, 0))?;
    }
    Ok(pages)
}

fn marks_of_each(alloc: Global) -> Result<Vec<u8>, AllocError> {
    let mut text = Vec::new(alloc);
    for first in [3977_u32, 8977] {
        put_marks_of_each(&mut text, first)?;
    }
    Ok(text)
}

fn put_marks_of_each(text: &mut Vec<u8>, first: u32) -> Result<(), AllocError> {
    for i in 0..1024_u32 {
        put_mark(text, 1026 - i, u64::from(first) + u64::from(i))?;
    }
    Ok(())
}

// In the second round all hold an item of a sub-buffer again: 4 MiB, more than what lanes are shared out from. Where a region
// has room for one line, most of them cannot form it yet.
#[test]
fn many_processors_with_an_event_in_each_of_two_sub_buffers(rt: HostRuntime) -> Result<(), Fail> {
    let pages = pages_of_each(rt.alloc())?;
    let text = marks_of_each(rt.alloc())?;
    let rooms = [(2, (64, SHARED_FROM)), (9, (4, SHARED_FROM))];
    assert!(rt; often_reports(&rt, rt.alloc(), &[2; 1024], &pages, &rooms, &text)?);
    Ok(())
}

// The report of which reads or writes fail: "d0d1e1e1e1d2d3d0e4d5".
const FAILING: [Page; 4] = [
    Page::Events {
        time: 10,
        count: 4,
        step: 1,
    },
    Page::Events {
        time: 30,
        count: 2,
        step: 15,
    },
    Page::Events {
        time: 11,
        count: 3,
        step: 0,
    },
    Page::Events {
        time: 44,
        count: 1,
        step: 0,
    },
];

// The file of these sub-buffers. A read that asks for the byte at this place fails.
fn failing_file(alloc: Global, pages: &[Page], byte: u64) -> Result<MemFile, AllocError> {
    let bytes = bytes_of(alloc, pages)?;
    let mut file = MemFile::new(ByteText::copy(alloc, bytes.as_slice())?);
    file.fail_at(byte);
    Ok(file)
}

// A sink that takes so many bytes, one a write, and no more.
fn sink_of(alloc: Global, room: u64) -> MemSink {
    let mut out = MemSink::new(alloc);
    out.short(1);
    out.fail_from(room.saturating_add(1));
    out
}

/// How a report ends whose file or sink fails.
#[derive(Clone, Copy)]
struct Ending {
    /// The byte that cannot be read.
    unread: u64,
    /// How many bytes can be written.
    space: u64,
    /// How many bytes a region has.
    room: u32,
    end: Result<End, IoFault>,
    /// How many bytes are read, where that is told.
    reads: Option<u64>,
    /// The text, where it is told.
    text: Option<&'static str>,
}

const ENDINGS: &[Ending] = &[
    Ending {
        unread: 0,
        space: u64::MAX,
        room: 2,
        end: Err(Read),
        reads: Some(0),
        text: Some(""),
    },
    // The first sub-buffer of the second processor.
    Ending {
        unread: 8192,
        space: u64::MAX,
        room: 2,
        end: Err(Read),
        reads: Some(4096),
        text: Some(""),
    },
    // The last sub-buffer is read before the second one where that is far from being needed.
    Ending {
        unread: 12_288,
        space: u64::MAX,
        room: 2,
        end: Err(Read),
        reads: Some(8192),
        text: Some("d0d1e1e1e1"),
    },
    Ending {
        unread: 12_288,
        space: u64::MAX,
        room: 65_537,
        end: Err(Read),
        reads: Some(12_288),
        text: Some("d0d1e1e1e1"),
    },
    Ending {
        unread: 16_384,
        space: u64::MAX,
        room: 2,
        end: Ok(Done),
        reads: Some(16_384),
        text: Some("d0d1e1e1e1d2d3d0e4d5"),
    },
    Ending {
        unread: 16_384,
        space: u64::MAX,
        room: 65_537,
        end: Ok(Done),
        reads: Some(16_384),
        text: Some("d0d1e1e1e1d2d3d0e4d5"),
    },
    Ending {
        unread: u64::MAX,
        space: 0,
        room: 65_537,
        end: Err(Write),
        reads: None,
        text: Some(""),
    },
    Ending {
        unread: u64::MAX,
        space: 3,
        room: 65_537,
        end: Err(Write),
        reads: None,
        text: Some("d0d"),
    },
    Ending {
        unread: u64::MAX,
        space: 19,
        room: 65_537,
        end: Err(Write),
        reads: None,
        text: Some("d0d1e1e1e1d2d3d0e4d"),
    },
    Ending {
        unread: u64::MAX,
        space: 20,
        room: 65_537,
        end: Ok(Done),
        reads: None,
        text: Some("d0d1e1e1e1d2d3d0e4d5"),
    },
];

// Whether a report of processors with so many of these sub-buffers ends so, with its one fault.
fn ends_so<R: Threads + Sync>(
    rt: &R,
    alloc: Global,
    pages: &[Page],
    counts: &[u32],
    ending: &Ending,
) -> Result<bool, AllocError> {
    let mut file = failing_file(alloc, pages, ending.unread)?;
    let mut out = sink_of(alloc, ending.space);
    let setup = Setup {
        counts,
        room: ending.room,
        workers: (2, 0),
    };
    let found = report(rt, alloc, setup, &mut file, &mut out)?;
    let is_text = match ending.text {
        Some(text) => out.bytes() == text.as_bytes(),
        None => true,
    };
    let is_faulty = file.faults() == u64::from(ending.end == Err(Read))
        && out.faults() == u64::from(ending.end == Err(Write));
    let is_read = ending.reads.is_none() || ending.reads == Some(file.reads());
    Ok(found == Some(ending.end) && is_text && is_faulty && is_read)
}

#[test]
fn lines_are_whole_before_a_failed_read_and_a_prefix_before_a_failed_write(
    rt: HostRuntime,
) -> Result<(), Fail> {
    for ending in ENDINGS {
        assert!(rt; ends_so(&rt, rt.alloc(), &FAILING, &[2, 2], ending)?);
    }
    Ok(())
}

// The bytes that can be written, the sub-buffers that are read, and those that are due. All 21 of the second processor are due.
// The second of the first one has 306 lines before it: it is due from the 160th on, after the second one's 18 lines of two
// bytes.
const DUE: &[(u64, u64, u64, Result<End, IoFault>)] = &[
    (0, 2, 1 + 21, Err(Write)),
    (1, 2, 1 + 21, Err(Write)),
    (2, 3, 1 + 21, Err(Write)),
    (36, 22, 1 + 21, Err(Write)),
    (355, 22, 1 + 21, Err(Write)),
    (356, 22, 2 + 21, Err(Write)),
    (647, 22, 2 + 21, Err(Write)),
    (648, 23, 2 + 21, Err(Write)),
    (5437, 30, 9 + 21, Err(Write)),
    (5438, 30, 9 + 21, Ok(Done)),
];

fn reads_what_is_due<R: Threads + Sync>(
    rt: &R,
    alloc: Global,
    pages: &[Page],
) -> Result<bool, AllocError> {
    for (space, read, due, end) in DUE {
        let ending = Ending {
            unread: u64::MAX,
            space: *space,
            room: 65_537,
            end: *end,
            reads: Some(read.saturating_mul(4096)),
            text: None,
        };
        if read > due || !ends_so(rt, alloc, pages, &[9, 21], &ending)? {
            return Ok(false);
        }
    }
    Ok(true)
}

#[test]
fn no_more_is_read_than_is_due_by_what_was_written(rt: HostRuntime) -> Result<(), Fail> {
    let pages = two_processors(rt.alloc())?;
    assert!(rt; reads_what_is_due(&rt, rt.alloc(), &pages)?);
    Ok(())
}
