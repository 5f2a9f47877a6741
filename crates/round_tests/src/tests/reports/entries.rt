//! How often lanes pass the gate in a report.

use super::marks::{len_of, mark};
use super::pages::{Page, bytes_of};
use super::{Setup, put_marks, report_behind};
use std::alloc::{AllocError, Global};
use std::sync::atomic::AtomicU64;
use std::sync::atomic::Ordering::SeqCst;
use std::test::Fail;
use std::thread::Threads;
use time_merge::End::Done;
use trace_base::ByteText;
use trace_outside::{Gate, MemFile, MemSink};

/// A gate that counts its entries.
#[derive(Drop)]
struct Counter {
    entries: AtomicU64,
}

impl Gate for Counter {
    fn enter(&self, _lane: u32) {
        self.entries.fetch_add(1, SeqCst);
    }
}

// The sub-buffers of 16 processors: 200 of an event each of the first one, and of each other one of two events after all of
// these.
fn sub_buffers(alloc: Global) -> Result<Vec<Page>, AllocError> {
    let mut pages = Vec::new(alloc);
    for time in 1..=200_u64 {
        pages.push(Page::Events {
            time,
            count: 1,
            step: 0,
        })?;
    }
    for _ in 1..16 {
        pages.push(Page::Events {
            time: 1000,
            count: 2,
            step: 1000,
        })?;
    }
    Ok(pages)
}

// Their lines.
fn lines(alloc: Global) -> Result<Vec<u8>, AllocError> {
    let mut text = Vec::new(alloc);
    put_marks(&mut text, 3, 1, 201)?;
    for time in [1000, 2000] {
        for cpu in 4..19 {
            text.extend_from_slice(&mark(cpu, time)[..len_of(time) as usize])?;
        }
    }
    Ok(text)
}

// How many entries there are in the report of these, whose regions have room for one line, or `None` where it is not right.
fn entries<R: Threads + Sync>(
    rt: &R,
    alloc: Global,
    workers: (u32, u64),
) -> Result<Option<u64>, AllocError> {
    let bytes = bytes_of(alloc, sub_buffers(alloc)?.as_slice())?;
    let mut file = MemFile::new(ByteText::from_vec(bytes));
    let mut out = MemSink::new(alloc);
    let gate = Counter {
        entries: AtomicU64::new(0),
    };
    let mut counts = [1; 16];
    counts[0] = 200;
    let setup = Setup {
        counts: &counts,
        room: 2,
        workers,
    };
    let end = report_behind(rt, alloc, &gate, setup, &mut file, &mut out)?;
    let text = lines(alloc)?;
    if end == Some(Ok(Done)) && out.bytes() == text.as_slice() {
        Ok(Some(gate.entries.load(SeqCst)))
    } else {
        Ok(None)
    }
}

// A lane whose next line has no room passes again once a line of it was printed, and not in each round of the others.
#[test]
fn a_lane_that_waits_does_not_pass_the_gate_in_each_round(rt: HostRuntime) -> Result<(), Fail> {
    for (workers, shared_from) in [(1, 0), (3, 0), (3, 8192)] {
        let entries = entries(&rt, rt.alloc(), (workers, shared_from))?;
        assert!(rt;
            entries == Some(200 + 2 * 15),
            "{workers} workers from {shared_from} bytes"
        );
    }
    Ok(())
}
