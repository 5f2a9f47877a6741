//! Who passes the gate, how often, and how many at once.

use super::{Letters, file_of, open_lanes};
use cpu_workers::{Workers, format_lanes};
use page_pool::Pool;
use std::alloc::{AllocError, Global};
use std::sync::atomic::AtomicU64;
use std::sync::atomic::Ordering::SeqCst;
use std::test::Fail;
use std::thread::Threads;
use trace_outside::Gate;
use trace_samples::Page::Of;
use trace_samples::{Page, layout};

/// A gate that counts who enters, and keeps each until so many are inside at once or its turns run out.
#[derive(Drop)]
struct Meeting {
    wanted: u64,
    turns: u32,
    // The number of entries of processor n, below 16, is the hexadecimal digit n.
    entries: AtomicU64,
    inside: AtomicU64,
    // 1 once so many were inside.
    met: AtomicU64,
}

impl Gate for Meeting {
    fn enter(&self, lane: u32) {
        if lane < 16 {
            self.entries.fetch_add(1_u64 << (4 * lane), SeqCst);
        }
        let others = self.inside.fetch_add(1, SeqCst);
        if others.saturating_add(1) >= self.wanted {
            self.met.store(1, SeqCst);
        }
        for _ in 0..self.turns {
            if self.met.load(SeqCst) == 1 {
                break;
            }
        }
        self.inside.fetch_sub(1, SeqCst);
    }
}

/// No lane is formatted again.
const NONE: [bool; 6] = [false; 6];

/// Six lanes with these sub-buffers are formatted, and the dirty ones are so once more. The entries, and whether so many
/// were inside at once.
fn entries<R: Threads + Sync>(
    rt: &R,
    alloc: Global,
    pages: &[Page<'_>],
    again: &[bool; 6],
    (workers, shared_from): (u32, u64),
    wanted: u64,
    turns: u32,
) -> Result<(u64, bool), AllocError> {
    if workers < 1 || workers > 64 {
        return Ok((0, false));
    }
    let layout = layout();
    let mut file = file_of(alloc, pages)?;
    let mut pool = Pool::new(alloc, &layout, 6, 16)?;
    let lanes = pool.lanes();
    open_lanes(&mut file, lanes);
    let gate = Meeting {
        wanted,
        turns,
        entries: AtomicU64::new(0),
        inside: AtomicU64::new(0),
        met: AtomicU64::new(0),
    };
    let workers = Workers {
        rt,
        count: workers,
        shared_from,
        gate: &gate,
    };
    format_lanes(&workers, &Letters, layout.page, lanes, &[true; 6]);
    format_lanes(&workers, &Letters, layout.page, lanes, again);
    Ok((gate.entries.load(SeqCst), gate.met.load(SeqCst) == 1))
}

// As many lanes are inside at once as there are workers, where there are so many, and never more; and one where those that
// hold items, five, hold fewer bytes than they are shared out from.
#[test]
fn each_lane_enters_once_and_no_more_at_once_than_workers(rt: HostRuntime) -> Result<(), Fail> {
    let (one, none) = (Of(&[4]), Of(&[]));
    let pages = [one, one, none, one, one, one];
    let (short, long) = (10_000_000, 1_000_000_000);
    for (workers, wanted, turns, met) in [
        ((1, 0), 2, short, false),
        ((2, 0), 2, long, true),
        ((2, 0), 3, short, false),
        ((3, 0), 3, long, true),
        ((3, 0), 4, short, false),
        ((64, 0), 5, long, true),
        ((64, 20_480), 5, long, true),
        ((2, 20_481), 2, short, false),
        ((64, 20_481), 2, short, false),
    ] {
        let (entries, found) = entries(&rt, rt.alloc(), &pages, &NONE, workers, wanted, turns)?;
        let (count, shared_from) = workers;
        assert!(rt;
            entries == 0x11_1011 && found == met,
            "{count} workers from {shared_from} bytes, {wanted} inside"
        );
    }
    Ok(())
}

// Two lanes that hold items are inside at once with two workers, wherever they stand among those that hold none.
#[test]
fn two_lanes_with_items_enter_at_once(rt: HostRuntime) -> Result<(), Fail> {
    let (one, none) = (Of(&[4]), Of(&[]));
    for (pages, wanted) in [
        ([one, one, none, none, none, none], 0x11),
        ([none, none, none, one, one, none], 0x1_1000),
        ([one, none, none, none, none, one], 0x10_0001),
    ] {
        let (entries, met) = entries(&rt, rt.alloc(), &pages, &NONE, (2, 0), 2, 1_000_000_000)?;
        assert!(rt; entries == wanted && met, "{entries} entries");
    }
    Ok(())
}

// The second time only dirty lanes enter.
#[test]
fn lanes_without_a_mark_do_not_enter(rt: HostRuntime) -> Result<(), Fail> {
    let pages = [Of(&[4]); 6];
    for (again, wanted) in [
        (NONE, 0x11_1111),
        ([true, false, false, true, false, false], 0x11_2112),
        ([false, true, true, false, false, true], 0x21_1221),
        ([true; 6], 0x22_2222),
    ] {
        for workers in [(1, 0), (2, 0), (64, 0), (64, u64::MAX)] {
            let (entries, _) = entries(&rt, rt.alloc(), &pages, &again, workers, 1, 0)?;
            assert!(rt; entries == wanted, "{entries} entries");
        }
    }
    Ok(())
}
