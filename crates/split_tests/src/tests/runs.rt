// Sub-buffers written out byte by byte, and what they are packed into. Runs of events are copied there as they stand.

ghost use Rattle.std.specs.Prelude.{◌≡◌, ◌<◌, ◌≤◌, length, IsTrue};
ghost use Rattle.page_pool.specs.declared.cursor.LaneState.{LaneState};
ghost use Rattle.event_cursor.specs.Standing.{held_left};

use super::passes::{parts_in_row, pass_piece, set_parts};
use super::watched::WatchedFile;
use Order::{Big, Little};
use PieceUnit::All;
use event_cursor::{Loaded, load, step};
use page_pool::{Lane, LaneState, Pool};
use page_write::Packer;
use split_passes::{LaneList, pack_run, packable_head};
use std::alloc::{AllocError, Global};
use std::test::Fail;
use time_merge::End;
use trace_base::{Layout, Order, put_u32, put_u64};
use trace_outside::{Failed, File, MemSink};
use trace_samples::Page::Of;
use trace_samples::{layout, put_pages};
use word_values::PieceUnit;

fn layout_of(order: Order, is_64_bit: bool) -> Layout {
    let commit_size = if is_64_bit { 8 } else { 4 };
    Layout::plain(order, commit_size, 4096)
}

// Appends a sub-buffer that begins with these bytes; zero bytes fill it.
fn put_filled(
    file: &mut Vec<u8>,
    alloc: Global,
    size: u32,
    front: &[u8],
) -> Result<(), AllocError> {
    let mut page = vec![in alloc; 0; size as usize]?;
    let len = front.len().min(page.len());
    page.as_mut_slice()[..len].copy_from_slice(&front[..len]);
    file.extend_from_slice(page.as_slice())
}

// Whether all items of one processor's sub-buffers, which are these bytes, are packed into just those, as many as were counted before.
fn packs(
    alloc: Global,
    layout: &Layout,
    bytes: Vec<u8>,
    count: usize,
    want: &[u8],
) -> Result<bool, Fail> {
    let mut file = WatchedFile::good(bytes);
    let mut list = LaneList::new(alloc, layout, &parts_in_row(layout, [count, 0]))?;
    let mut page = vec![in alloc; 0xff; layout.page as usize]?;
    let mut out = MemSink::new(alloc);
    let page = page.as_mut_slice();
    match pass_piece(&mut file, &mut list, All, None, page, &mut out) {
        Ok(passed) => {
            let counted = passed.pages[0].saturating_mul(u64::from(layout.page));
            Ok(
                passed.packed == Ok(End::Done)
                    && out.bytes() == want
                    && counted == want.len() as u64,
            )
        }
        Err(Failed) => Ok(false),
    }
}

/// What a row shows, the byte order, whether the kernel's long has 8 bytes or 4, the front of a sub-buffer, and that of the one
/// that its items are packed into. A front is a timestamp, a commit word, and data.
const PACKED: &[(&str, Order, bool, &[u8], &[u8])] = &[
    (
        "a first delta that is not 0",
        Little,
        true,
        b"\xe8\x03\0\0\0\0\0\0\x18\0\0\0\0\0\0\0\xa1\0\0\0one_a\0\0\0two_\x01\0\0\0thr_",
        b"\xed\x03\0\0\0\0\0\0\x18\0\0\0\0\0\0\0\x01\0\0\0one_a\0\0\0two_\x01\0\0\0thr_",
    ),
    (
        "a discarded record before, inside and after a run",
        Little,
        true,
        b"\xe8\x03\0\0\0\0\0\0D\0\0\0\0\0\0\0\x9d\0\0\0\x08\0\0\0junk!\0\0\0one_!\0\0\0two_\x9d\0\0\0\x08\0\0\0junk!\0\0\0thr_A\0\0\0four\x9d\0\0\0\x08\0\0\0junk",
        b"\xed\x03\0\0\0\0\0\0 \0\0\0\0\0\0\0\x01\0\0\0one_!\0\0\0two_\xa1\0\0\0thr_A\0\0\0four",
    ),
    (
        "an extend before, inside and after a run",
        Little,
        true,
        b"\xe8\x03\0\0\0\0\0\08\0\0\0\0\0\0\0\xde\0\0\0\0\0\0\0\x01\0\0\0one_!\0\0\0two_\xde\0\0\0\0\0\0\0!\0\0\0thr_!\0\0\0four\xde\0\0\0\0\0\0\0",
        b"\xee\x03\0\0\0\0\0\0 \0\0\0\0\0\0\0\x01\0\0\0one_!\0\0\0two_\xe1\0\0\0thr_!\0\0\0four",
    ),
    (
        "a stamp before, inside and after a run",
        Little,
        true,
        b"\xe8\x03\0\0\0\0\0\08\0\0\0\0\0\0\0\xdf}\0\0\0\0\0\0\x01\0\0\0one_!\0\0\0two_\xbf~\0\0\0\0\0\0!\0\0\0thr_!\0\0\0four\x9f\x7f\0\0\0\0\0\0",
        b"\xee\x03\0\0\0\0\0\0 \0\0\0\0\0\0\0\x01\0\0\0one_!\0\0\0two_\xe1\0\0\0thr_!\0\0\0four",
    ),
    (
        "a loss before a run",
        Little,
        true,
        b"\xe8\x03\0\0\0\0\0\0\x10\0\0\xc0\0\0\0\0\x01\0\0\0one_!\0\0\0two_\x03\0\0\0\0\0\0\0",
        b"\xe8\x03\0\0\0\0\0\0\x10\0\0\xc0\0\0\0\0\x01\0\0\0one_!\0\0\0two_\x03\0\0\0\0\0\0\0",
    ),
    (
        "a loss before a run that begins later",
        Little,
        true,
        b"\xe8\x03\0\0\0\0\0\0\x10\0\0\xc0\0\0\0\0A\0\0\0one_!\0\0\0two_\x03\0\0\0\0\0\0\0",
        b"\xe8\x03\0\0\0\0\0\0\x10\0\0\xc0\0\0\0\0A\0\0\0one_!\0\0\0two_\x03\0\0\0\0\0\0\0",
    ),
    (
        "a delta of 2^27 - 1",
        Little,
        true,
        b"\xe8\x03\0\0\0\0\0\0\x18\0\0\0\0\0\0\0\x01\0\0\0one_\xe1\xff\xff\xfftwo_!\0\0\0thr_",
        b"\xe8\x03\0\0\0\0\0\0\x18\0\0\0\0\0\0\0\x01\0\0\0one_\xe1\xff\xff\xfftwo_!\0\0\0thr_",
    ),
    (
        "a step of 2^27 in a run",
        Little,
        true,
        b"\xe8\x03\0\0\0\0\0\0(\0\0\0\0\0\0\0\x01\0\0\0one_!\0\0\0two_\x1e\0\0\0\x01\0\0\0\x01\0\0\0thr_!\0\0\0four",
        b"\xe8\x03\0\0\0\0\0\0(\0\0\0\0\0\0\0\x01\0\0\0one_!\0\0\0two_\x1e\0\0\0\x01\0\0\0\x01\0\0\0thr_!\0\0\0four",
    ),
    (
        "a first delta that is not 0",
        Big,
        false,
        b"\0\0\0\0\0\0\x03\xe8\0\0\0\x18\x08\0\0\x05one_\x08\0\0\x03two_\x08\0\0\0thr_",
        b"\0\0\0\0\0\0\x03\xed\0\0\0\x18\x08\0\0\0one_\x08\0\0\x03two_\x08\0\0\0thr_",
    ),
    (
        "a discarded record before, inside and after a run",
        Big,
        false,
        b"\0\0\0\0\0\0\x03\xe8\0\0\0D\xe8\0\0\x04\0\0\0\x08junk\x08\0\0\x01one_\x08\0\0\x01two_\xe8\0\0\x04\0\0\0\x08junk\x08\0\0\x01thr_\x08\0\0\x02four\xe8\0\0\x04\0\0\0\x08junk",
        b"\0\0\0\0\0\0\x03\xed\0\0\0 \x08\0\0\0one_\x08\0\0\x01two_\x08\0\0\x05thr_\x08\0\0\x02four",
    ),
    (
        "an extend before, inside and after a run",
        Big,
        false,
        b"\0\0\0\0\0\0\x03\xe8\0\0\08\xf0\0\0\x06\0\0\0\0\x08\0\0\0one_\x08\0\0\x01two_\xf0\0\0\x06\0\0\0\0\x08\0\0\x01thr_\x08\0\0\x01four\xf0\0\0\x06\0\0\0\0",
        b"\0\0\0\0\0\0\x03\xee\0\0\0 \x08\0\0\0one_\x08\0\0\x01two_\x08\0\0\x07thr_\x08\0\0\x01four",
    ),
    (
        "a stamp before, inside and after a run",
        Big,
        false,
        b"\0\0\0\0\0\0\x03\xe8\0\0\08\xf8\0\x03\xee\0\0\0\0\x08\0\0\0one_\x08\0\0\x01two_\xf8\0\x03\xf5\0\0\0\0\x08\0\0\x01thr_\x08\0\0\x01four\xf8\0\x03\xfc\0\0\0\0",
        b"\0\0\0\0\0\0\x03\xee\0\0\0 \x08\0\0\0one_\x08\0\0\x01two_\x08\0\0\x07thr_\x08\0\0\x01four",
    ),
    (
        "a loss before a run",
        Big,
        false,
        b"\0\0\0\0\0\0\x03\xe8\xc0\0\0\x10\x08\0\0\0one_\x08\0\0\x01two_\0\0\0\x03",
        b"\0\0\0\0\0\0\x03\xe8\xc0\0\0\x10\x08\0\0\0one_\x08\0\0\x01two_\0\0\0\x03",
    ),
    (
        "a loss before a run that begins later",
        Big,
        false,
        b"\0\0\0\0\0\0\x03\xe8\xc0\0\0\x10\x08\0\0\x02one_\x08\0\0\x01two_\0\0\0\x03",
        b"\0\0\0\0\0\0\x03\xe8\xc0\0\0\x10\x08\0\0\x02one_\x08\0\0\x01two_\0\0\0\x03",
    ),
    (
        "a delta of 2^27 - 1",
        Big,
        false,
        b"\0\0\0\0\0\0\x03\xe8\0\0\0\x18\x08\0\0\0one_\x0f\xff\xff\xfftwo_\x08\0\0\x01thr_",
        b"\0\0\0\0\0\0\x03\xe8\0\0\0\x18\x08\0\0\0one_\x0f\xff\xff\xfftwo_\x08\0\0\x01thr_",
    ),
    (
        "a step of 2^27 in a run",
        Big,
        false,
        b"\0\0\0\0\0\0\x03\xe8\0\0\0(\x08\0\0\0one_\x08\0\0\x01two_\xf0\0\0\0\0\0\0\x01\x08\0\0\0thr_\x08\0\0\x01four",
        b"\0\0\0\0\0\0\x03\xe8\0\0\0(\x08\0\0\0one_\x08\0\0\x01two_\xf0\0\0\0\0\0\0\x01\x08\0\0\0thr_\x08\0\0\x01four",
    ),
];

#[test]
fn runs_are_packed(rt: HostRuntime) -> Result<(), Fail> {
    for (name, order, is_64_bit, from, to) in PACKED {
        let alloc = rt.alloc();
        let layout = layout_of(*order, *is_64_bit);
        let mut bytes = Vec::new(alloc);
        put_filled(&mut bytes, alloc, layout.page, from)?;
        let mut want = Vec::new(alloc);
        put_filled(&mut want, alloc, layout.page, to)?;
        assert!(rt; packs(alloc, &layout, bytes, 1, want.as_slice())?, "{name}");
    }
    Ok(())
}

// Events of 8 bytes each, at the time of the one before them.
const LITTLE_EVENTS: &[u8] = b"\x01\0\0\0one_\x01\0\0\0two_\x01\0\0\0thr_";

const BIG_EVENTS: &[u8] = b"\x08\0\0\0one_\x08\0\0\0two_\x08\0\0\0thr_";

fn events_of(order: Order) -> &'static [u8] {
    match order {
        Little => LITTLE_EVENTS,
        Big => BIG_EVENTS,
    }
}

// Appends a sub-buffer of time 1,000: an event of so many bytes in all, if any, and these records.
fn put_records(
    file: &mut Vec<u8>,
    alloc: Global,
    order: Order,
    size: u32,
    first: u32,
    records: &[u8],
) -> Result<(), AllocError> {
    let mut front = vec![in alloc; 7; 16 + first as usize]?;
    let bytes = front.as_mut_slice();
    let committed = u64::from(first).wrapping_add(records.len() as u64);
    put_u64(order, 1_000, &mut bytes[..8]);
    put_u64(order, committed, &mut bytes[8..16]);
    if first >= 12 {
        put_u32(order, 0, &mut bytes[16..20]);
        put_u32(order, first - 4, &mut bytes[20..24]);
    }
    front.extend_from_slice(records)?;
    put_filled(file, alloc, size, front.as_slice())
}

fn large_layout(order: Order, size: u32) -> Layout
    ensures least { 4096 ≤ result.page }
{
    let size = if size == 4_096 { 4_096 } else { 262_144 };
    Layout::plain(order, 8, size)
}

// Whether of three events, which follow one that leaves so many bytes of its sub-buffer, so many go there and the others into
// a further one.
fn parts_at(alloc: Global, order: Order, size: u32, left: u32, count: usize) -> Result<bool, Fail> {
    let layout = large_layout(order, size);
    let size = layout.page;
    let first = size - 16 - left.min(1_024);
    let events = events_of(order);
    let (here, further) = events.split_at(events.len().min(8 * count.min(3)));
    let mut bytes = Vec::new(alloc);
    put_records(&mut bytes, alloc, order, size, first, &[])?;
    put_records(&mut bytes, alloc, order, size, 0, events)?;
    let mut want = Vec::new(alloc);
    put_records(&mut want, alloc, order, size, first, here)?;
    if !further.is_empty() {
        put_records(&mut want, alloc, order, size, 0, further)?;
    }
    packs(alloc, &layout, bytes, 2, want.as_slice())
}

/// How many bytes are left, and how many of the three events go there: up to the last byte, and a word more or fewer.
const ROOM: &[(u32, usize)] = &[(28, 3), (24, 3), (20, 2), (16, 2), (12, 1), (8, 1), (4, 0)];

#[test]
fn runs_end_with_the_room(rt: HostRuntime) -> Result<(), Fail> {
    for size in [4_096, 262_144] {
        for (left, count) in ROOM {
            let little = parts_at(rt.alloc(), Little, size, *left, *count)?;
            let big = parts_at(rt.alloc(), Big, size, *left, *count)?;
            assert!(rt; little && big, "{left} of {size}");
        }
    }
    Ok(())
}

// Loads a sub-buffer into a lane that is fresh, and tells whether it has an item.
fn loads<F: File>(file: &mut F, lane: &mut Lane) -> bool
    ensures layout { lane.new.layout ≡ lane.old.layout }
    ensures held { IsTrue result → lane.new.cursor.state ≡ LaneState.Held }
    ensures some { IsTrue result → 0 < length (held_left lane.new) }
{
    if lane.cursor.state != LaneState::Fresh {
        return false;
    }
    matches!(load(file, lane), Ok(Loaded::Loaded))
}

// How many events a run has that follows a lane's first item.
fn run_after_first(lane: &mut Lane, packer: &mut Packer<'_>) -> u64
    requires held { lane.old.cursor.state ≡ LaneState.Held }
    requires some { 0 < length (held_left lane.old) }
    requires same { packer.old.layout ≡ lane.old.layout }
{
    let Some((_, item)) = packable_head(lane) else {
        return 0;
    };
    packer.add(&item);
    step(lane);
    pack_run(lane, packer, u64::MAX)
}

// The same of a sub-buffer with events at these times.
fn run_of(alloc: Global, times: &[u64]) -> Result<u64, Fail> {
    let layout = layout();
    let mut bytes = Vec::new(alloc);
    put_pages(&mut bytes, &[Of(times)])?;
    let mut file = WatchedFile::good(bytes);
    let mut page = [0xff; 4096];
    let mut packer = Packer::new(&layout, &mut page);
    let mut pool = Pool::new(alloc, &layout, 2, 0)?;
    let lanes = pool.lanes();
    set_parts(&layout, lanes, [1, 0]);
    let lane = &mut lanes[0];
    if loads(&mut file, lane) {
        Ok(run_after_first(lane, &mut packer))
    } else {
        Ok(u64::MAX)
    }
}

/// The times of a sub-buffer's events, and how many go as one run after the first. No clause says that there are any: a pass that
/// finds none packs the same bytes.
const RUNS: &[(&[u64], u64)] = &[
    (&[10], 0),
    (&[10, 20, 30], 2),
    (&[10, 10, 134_217_737, 134_217_738], 3),
    (&[10, 20, 134_217_748, 134_217_749], 1),
];

#[test]
fn runs_are_taken(rt: HostRuntime) -> Result<(), Fail> {
    for (times, count) in RUNS {
        assert!(rt; run_of(rt.alloc(), times)? == *count, "{count}");
    }
    Ok(())
}
