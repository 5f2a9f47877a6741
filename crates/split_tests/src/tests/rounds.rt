// How many items a round takes.

use super::passes::set_parts;
use super::watched::WatchedFile;
use page_pool::Pool;
use split_passes::{Tally, take_round};
use split_pieces::Gauge;
use std::alloc::Global;
use std::test::Fail;
use time_merge::make_all_ready;
use trace_samples::Page::{Lossy, Of};
use trace_samples::{Page, layout, put_pages};
use word_values::PieceUnit;
use word_values::PieceUnit::{All, Events};

// How many items the first round takes of two processors, if a horizon is found.
fn round_of(alloc: Global, cpus: [&[Page<'_>]; 2], unit: PieceUnit) -> Result<Option<u64>, Fail> {
    let layout = layout();
    let mut bytes = Vec::new(alloc);
    put_pages(&mut bytes, cpus[0])?;
    put_pages(&mut bytes, cpus[1])?;
    let mut file = WatchedFile::good(bytes);
    let mut pool = Pool::new(alloc, &layout, 2, 0)?;
    let lanes = pool.lanes();
    set_parts(&layout, lanes, [cpus[0].len(), cpus[1].len()]);
    let mut tallies = [Tally::new(), Tally::new()];
    let mut gauge = Gauge::new(unit);
    if make_all_ready(&mut file, lanes).is_err() {
        return Ok(None);
    }
    Ok(take_round(lanes, None, &mut gauge, &mut tallies))
}

const EVEN: &[Page] = &[Of(&[10, 12, 14, 16, 18, 20])];

const ODD: &[Page] = &[Of(&[11, 13, 15, 17, 19, 21])];

const LOST: &[Page] = &[Lossy(16, Some(2), &[18, 20])];

const NONE: &[Page] = &[];

/// The sub-buffers of two processors, what the piece takes, and how many items the first round takes. No clause says that there are
/// any: a pass without rounds writes the same bytes.
const ROUNDS: &[([&[Page]; 2], PieceUnit, Option<u64>)] = &[
    // All but the last of the first processor, and what comes before that of the other.
    ([EVEN, ODD], All, Some(10)),
    // Half of the events each.
    ([EVEN, ODD], Events(8), Some(6)),
    ([EVEN, ODD], Events(1), Some(0)),
    // Up to the loss.
    ([LOST, ODD], All, Some(3)),
    ([EVEN, NONE], All, Some(5)),
    // No data at all.
    ([NONE, NONE], All, Some(0)),
];

#[test]
fn rounds_are_taken(rt: HostRuntime) -> Result<(), Fail> {
    for (cpus, unit, count) in ROUNDS {
        assert!(rt; round_of(rt.alloc(), *cpus, *unit)? == *count, "{count:?}");
    }
    Ok(())
}
