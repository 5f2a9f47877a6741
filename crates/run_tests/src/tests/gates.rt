// Gates that see which lanes are formatted, and when.

use super::inputs::{TWO_AT_ONCE, folder_of};
use super::words_of;
use sample_runs::run_words;
use std::alloc::{AllocError, Global};
use std::sync::atomic::AtomicU64;
use std::sync::atomic::Ordering::SeqCst;
use std::test::Fail;
use std::thread::Threads;
use trace_outside::{Gate, MemFolder};
use trace_run::Status;

/// A gate that counts the lanes that pass.
#[derive(Drop)]
struct Counter {
    passed: AtomicU64,
}

impl Gate for Counter {
    fn enter(&self, _lane: u32) {
        self.passed.fetch_add(1, SeqCst);
    }
}

fn passes<R: Alloc<A = Global> + Threads + Sync>(
    rt: &R,
    workers: &str,
) -> Result<bool, AllocError> {
    let words = words_of(rt.alloc(), &["selftest", "7", "2000", "--workers", workers])?;
    let gate = Counter {
        passed: AtomicU64::new(0),
    };
    let mut folder = MemFolder::new(rt.alloc());
    let ran = run_words(rt, &words, &mut folder, &gate);
    Ok(ran.status == Status::Done && gate.passed.load(SeqCst) >= 4)
}

// Each of the four processors has sub-buffers, so that its lane passes at least once.
#[test]
fn each_lane_passes_the_gate(rt: HostRuntime) -> Result<(), Fail> {
    for workers in ["1", "3", "64"] {
        assert!(rt; passes(&rt, workers)?, "{workers}");
    }
    Ok(())
}

/// How often lane 0 looks for lane 1 before it goes on alone.
const TURNS: u32 = 1_000_000_000;

/// A gate that keeps lane 0 until lane 1 has entered.
#[derive(Drop)]
struct Pair {
    entered: AtomicU64,
    alone: AtomicU64,
}

impl Gate for Pair {
    fn enter(&self, lane: u32) {
        if lane != 0 {
            self.entered.store(1, SeqCst);
            return;
        }
        for _ in 0..TURNS {
            if self.entered.load(SeqCst) > 0 {
                return;
            }
        }
        self.alone.store(1, SeqCst);
    }
}

// One thread would wait in lane 0 to the end.
#[test]
fn two_lanes_are_formatted_at_once(rt: HostRuntime) -> Result<(), Fail> {
    let words = words_of(rt.alloc(), &["report", "--workers", "2"])?;
    let gate = Pair {
        entered: AtomicU64::new(0),
        alone: AtomicU64::new(0),
    };
    let mut folder = folder_of(rt.alloc(), &TWO_AT_ONCE)?;
    let ran = run_words(&rt, &words, &mut folder, &gate);
    assert!(rt; ran.status == Status::Done && gate.alone.load(SeqCst) == 0);
    Ok(())
}
