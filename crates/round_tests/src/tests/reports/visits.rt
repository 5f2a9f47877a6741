//! In which rounds of a report lanes are shared out to several threads.

use super::pages::{Page, bytes_of};
use super::{Setup, report_behind};
use cpu_workers::SHARED_FROM;
use std::alloc::{AllocError, Global};
use std::sync::atomic::AtomicU64;
use std::sync::atomic::Ordering::SeqCst;
use std::test::Fail;
use std::thread::Threads;
use time_merge::End::Done;
use trace_base::ByteText;
use trace_outside::{Gate, MemFile, MemSink};

/// A gate that notes in which of their visits two lanes were inside at once.
#[derive(Drop)]
struct Visits {
    // How many turns a lane waits for another one in its first visit, and in each later one.
    first: u32,
    later: u32,
    // The number of visits of processor n, below 16, is the hexadecimal digit n.
    visits: AtomicU64,
    inside: AtomicU64,
    // Bit n is 1 once two lanes were inside at once in their visits n, counted from 0.
    met: AtomicU64,
}

impl Visits {
    // Counts a visit. How many there were of this processor before it, as far as 15.
    fn count(&self, cpu: u32) -> u64 {
        let place = 4 * (cpu % 16);
        let visits = self.visits.fetch_add(1_u64 << place, SeqCst);
        (visits >> place) & 15
    }

    fn wait(&self, bit: u64, turns: u32) {
        for _ in 0..turns {
            if self.met.load(SeqCst) & bit != 0 {
                break;
            }
        }
    }
}

impl Gate for Visits {
    fn enter(&self, lane: u32) {
        let visit = self.count(lane);
        let bit = 1_u64 << (visit % 16);
        if self.inside.fetch_add(1, SeqCst) > 0 {
            self.met.fetch_or(bit, SeqCst);
        }
        self.wait(bit, if visit == 0 { self.first } else { self.later });
        self.inside.fetch_sub(1, SeqCst);
    }
}

// The times of the events in the sub-buffers of two processors, three of each, with one event each. In each of three rounds
// both lanes hold one.
const TIMES: [u64; 6] = [10, 20, 30, 11, 21, 31];

fn sub_buffers(alloc: Global) -> Result<Vec<Page>, AllocError> {
    let mut pages = Vec::new(alloc);
    for time in TIMES {
        pages.push(Page::Events {
            time,
            count: 1,
            step: 0,
        })?;
    }
    Ok(pages)
}

// In which visits lanes met in the report of these, or `None` where it is not right.
fn met<R: Threads + Sync>(
    rt: &R,
    alloc: Global,
    workers: (u32, u64),
    later: u32,
) -> Result<Option<u64>, AllocError> {
    let bytes = bytes_of(alloc, sub_buffers(alloc)?.as_slice())?;
    let mut file = MemFile::new(ByteText::from_vec(bytes));
    let mut out = MemSink::new(alloc);
    let gate = Visits {
        first: 1_000_000_000,
        later,
        visits: AtomicU64::new(0),
        inside: AtomicU64::new(0),
        met: AtomicU64::new(0),
    };
    let setup = Setup {
        counts: &[3, 3],
        room: 65_537,
        workers,
    };
    let end = report_behind(rt, alloc, &gate, setup, &mut file, &mut out)?;
    if end == Some(Ok(Done)) && out.bytes() == b"d0e1d0e1d0e1".as_slice() {
        Ok(Some(gate.met.load(SeqCst)))
    } else {
        Ok(None)
    }
}

// The first round shares them out whatever they hold.
#[test]
fn later_rounds_share_out_lanes_that_hold_enough(rt: HostRuntime) -> Result<(), Fail> {
    let (short, long) = (10_000_000, 1_000_000_000);
    for (workers, shared_from, later, wanted) in [
        (2, 0, long, 0b111),
        (2, 8192, long, 0b111),
        (2, 8193, short, 0b001),
        (64, SHARED_FROM, short, 0b001),
    ] {
        let met = met(&rt, rt.alloc(), (workers, shared_from), later)?;
        assert!(rt;
            met == Some(wanted),
            "{workers} workers from {shared_from} bytes"
        );
    }
    Ok(())
}
