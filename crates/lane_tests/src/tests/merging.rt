//! Lanes gone through whole: two processors, and where a malformed sub-buffer ends them (`ENDS`).

ghost use Rattle.std.specs.Prelude.{◌≡◌, ◌+◌, ◌<◌, ◌≤◌, length, Some, All, IfOk, IfSome, OnErr, option_map};
ghost use Rattle.trace_outside.specs.Causes.{Rose};
ghost use Rattle.subpage.specs.Arrangement.{CpusRise, key_of};
ghost use Rattle.page_pool.specs.Fresh.{IsFresh};
ghost use Rattle.event_cursor.specs.Keys.{first_of};
ghost use Rattle.event_cursor.specs.Standing.{held_left, keyed_held, most_left};
ghost use Rattle.event_cursor.specs.Stepping.{IsStepped};
ghost use Rattle.time_merge.specs.LaneRows.{HasLayout, parts_of};
ghost use Rattle.lane_tests.specs.Through.{IsThrough};

use event_cursor::{head, step};
use page_pool::{Lane, LaneState};
use std::alloc::{AllocError, Global};
use std::test::Fail;
use subpage::CutPlace;
use time_merge::{Next, next_lane, pool_over};
use trace_base::{ByteText, Layout, Part};
use trace_outside::{Failed, File, MemFile};
use trace_samples::Page::{Malformed, Of};
use trace_samples::{Page, layout, put_pages};

// Uses a lane's head up, and answers its key.
fn use_head(lane: &mut Lane) -> u64
    requires held { lane.old.cursor.state ≡ LaneState.Held }
    requires some { 0 < length (held_left lane.old) }
    ensures used { IsStepped lane.old lane.new }
    ensures most { most_left lane.new + 1 ≡ most_left lane.old }
    ensures key { option_map key_of (first_of (keyed_held lane.old)) ≡ Some result }
{
    let key = match head(lane) {
        Some((key, _)) => key,
        None => 0,
    };
    step(lane);
    key
}

// The keys of all reached items in their order, and how they end, or that a read failed.
fn all_keys<F: File>(
    alloc: Global,
    layout: &Layout,
    file: &mut F,
    lanes: &mut [Lane],
) -> Result<(Vec<u64>, Result<Next, Failed>), AllocError>
    requires layouts { All (HasLayout layout.now) lanes.old }
    requires rise { CpusRise (parts_of lanes.old) }
    requires fresh { All (λ lane. IsFresh lane.cursor) lanes.old }
    ensures through { IfOk result (λ r. IfOk r.1 (λ end. IfSome (F.bytes file.old) (λ bytes.
        IsThrough layout.now bytes (parts_of lanes.old) r.0.items end))) }
    ensures read { IfOk result (λ r. OnErr r.1 (Rose (F.faults file.old) (F.faults file.new))) }
{
    let mut keys = Vec::new(alloc);
    loop {
        match next_lane(file, lanes) {
            Ok(Next::Lane(i)) => {
                let key = use_head(&mut lanes[i]);
                keys.push(key)?;
            }
            Ok(Next::Done) => return Ok((keys, Ok(Next::Done))),
            Ok(Next::Malformed(cut)) => return Ok((keys, Ok(Next::Malformed(cut)))),
            Err(Failed) => return Ok((keys, Err(Failed))),
        }
    }
}

// A file of five sub-buffers, of which the third and the last are given.
fn file_of(
    alloc: Global,
    third: Page<'static>,
    last: Page<'static>,
) -> Result<MemFile, AllocError> {
    let mut bytes = Vec::new(alloc);
    put_pages(
        &mut bytes,
        &[Of(&[10, 30]), Of(&[]), third, Of(&[20, 30]), last],
    )?;
    Ok(MemFile::new(ByteText::from_vec(bytes)))
}

// The keys of all items, and what the third sub-buffer and the last one are, how many items are reached, and the end. Worked out from
// the definition of the cut: none; (30, processor 3), which the other 30 comes after; (30, processor 7).
const KEYS: [u64; 8] = [10, 20, 30, 30, 40, 44, 45, 54];

const ENDS: &[(Page<'static>, Page<'static>, usize, Next)] = &[
    (Of(&[40, 45]), Of(&[44, 54]), 8, Next::Done),
    (
        Malformed,
        Of(&[44, 54]),
        3,
        Next::Malformed(CutPlace { cpu: 3, page: 2 }),
    ),
    (
        Of(&[40, 45]),
        Malformed,
        4,
        Next::Malformed(CutPlace { cpu: 7, page: 1 }),
    ),
];

fn ends_so(
    alloc: Global,
    third: Page<'static>,
    last: Page<'static>,
    reached: usize,
    end: Next,
) -> Result<bool, AllocError> {
    let mut file = file_of(alloc, third, last)?;
    let layout = layout();
    // Processor 3 has the first three sub-buffers of the file, processor 7 the other two.
    let first = Part {
        offset: 0,
        size: 12288,
    };
    let second = Part {
        offset: 12288,
        size: 8192,
    };
    let mut pool = pool_over(alloc, &layout, 16, &[(3, first), (7, second)])?;
    let (keys, ended) = all_keys(alloc, &layout, &mut file, pool.lanes())?;
    Ok(ended == Ok(end) && keys.as_slice() == &KEYS[..reached.min(8)])
}

#[test]
fn items_come_by_key_up_to_the_least_cut(rt: HostRuntime) -> Result<(), Fail> {
    for (third, last, reached, end) in ENDS {
        assert!(rt; ends_so(rt.alloc(), *third, *last, *reached, *end)?);
    }
    Ok(())
}
