//! Lanes that are formatted by one thread and by several.

mod gates;

ghost use Rattle.std.specs.Prelude.{◌≡◌, ◌+◌, ◌<◌, ◌%◌, ◌==◌, if◌then◌else◌, [], ◌∷◌, All, None, length};
ghost use Rattle.trace_base.specs.declared.layout.Layout.{Layout};
ghost use Rattle.line_holes.specs.Holes.{line_text};
ghost use Rattle.subpage.specs.ItemData.{item_time};
ghost use Rattle.time_merge.specs.LaneRows.{HasLayout};

use super::times::time_of;
use cpu_workers::{Workers, format_lanes};
use event_cursor::load;
use line_holes::{Hole, LineFormat};
use page_pool::{Lane, LaneState, Pool, Region};
use std::alloc::{AllocError, Global};
use std::test::Fail;
use std::thread::Threads;
use subpage::Item;
use trace_base::{ByteText, Part, Tail};
use trace_outside::{MemFile, NoGate};
use trace_samples::Page::Of;
use trace_samples::{Page, layout, put_pages};

// A line of none, one or two letters, by the item's time.
struct Letters;

fn letters_of(time: u64) -> &'static [u8]
    ensures text { result.now
        ≡ (if time % 3 == 0 then [] else if time % 3 == 1 then 97 ∷ [] else 98 ∷ 99 ∷ []) }
    ensures small { length result.now < 3 }
{
    if time % 3 == 0 {
        b"".as_slice()
    } else if time % 3 == 1 {
        b"a".as_slice()
    } else {
        b"bc".as_slice()
    }
}

impl LineFormat for Letters {
    ghost text = { λ form cpu item. line_text
        (if item_time item % 3 == 0 then [] else if item_time item % 3 == 1 then 97 ∷ [] else 98 ∷ 99 ∷ []) None };

    fn line(&self, _cpu: u32, item: &Item<'_>, into: &mut Tail<'_>) -> (u32, Option<Hole>) {
        let text = letters_of(time_of(item));
        into.put(text);
        (text.len() as u32, None)
    }
}

// A file of processors, each with one sub-buffer.
fn file_of(alloc: Global, pages: &[Page<'_>]) -> Result<MemFile, AllocError> {
    let mut bytes = Vec::new(alloc);
    put_pages(&mut bytes, pages)?;
    Ok(MemFile::new(ByteText::from_vec(bytes)))
}

// Loads the sub-buffer of this number into a lane that is fresh.
fn open_lane(file: &mut MemFile, lane: &mut Lane, number: u32)
    ensures layout { lane.new.layout ≡ lane.old.layout }
{
    if lane.cursor.state == LaneState::Fresh {
        lane.cpu = number;
        lane.part = Part {
            offset: u64::from(number) * 4096,
            size: 4096,
        };
        let _ = load(file, lane);
    }
}

fn open_lanes(file: &mut MemFile, lanes: &mut [Lane])
    ensures layouts { (layout : Layout) → All (HasLayout layout) lanes.old → All (HasLayout layout) lanes.new }
{
    let mut number = 0_u32;
    for i in 0..lanes.len() {
        open_lane(file, &mut lanes[i], number);
        number = number.saturating_add(1);
    }
}

// Whether the lines that a region keeps are this text, one after another.
fn keeps(region: &Region, text: &[u8]) -> bool {
    let mut rest = text;
    for i in 0..region.lines() {
        let (line, _, _) = region.line(i);
        let Some(after) = rest.strip_prefix(line) else {
            return false;
        };
        rest = after;
    }
    rest.is_empty()
}

// The texts of the lines that a lane keeps, how many these are, and how many items are used up.
fn has(lane: &Lane, text: &str, lines: u32, used: u32) -> bool {
    let region = &lane.region;
    region.lines() == lines && keeps(region, text.as_bytes()) && lane.cursor.at == used
}

fn have(lanes: &[Lane], first: (&str, u32, u32), second: (&str, u32, u32)) -> bool
    requires { length lanes.now ≡ 3 }
{
    has(&lanes[0], first.0, first.1, first.2)
        && has(&lanes[1], second.0, second.1, second.2)
        && has(&lanes[2], "", 0, 0)
}

// What comes of the three lanes with so many bytes for lines, on so many threads, if they are shared out from so many bytes on.
fn formats<R: Threads + Sync>(
    rt: &R,
    alloc: Global,
    room: u32,
    (workers, shared_from): (u32, u64),
    first: (&str, u32, u32),
    second: (&str, u32, u32),
) -> Result<bool, AllocError> {
    if workers < 1 || workers > 64 {
        return Ok(false);
    }
    let layout = layout();
    let mut file = file_of(alloc, &[Of(&[4, 5, 6, 7]), Of(&[8, 9]), Of(&[])])?;
    let mut pool = Pool::new(alloc, &layout, 3, room)?;
    let lanes = pool.lanes();
    open_lanes(&mut file, lanes);
    let workers = Workers {
        rt,
        count: workers,
        shared_from,
        gate: &NoGate,
    };
    format_lanes(&workers, &Letters, layout.page, lanes, &[true; 3]);
    Ok(have(lanes, first, second))
}

#[test]
fn lines_do_not_depend_on_the_workers(rt: HostRuntime) -> Result<(), Fail> {
    for (room, first, second) in [
        (100, ("abca", 3, 4), ("bc", 1, 2)),
        (3, ("abc", 2, 3), ("bc", 1, 2)),
        (2, ("a", 1, 1), ("bc", 1, 2)),
        (1, ("a", 1, 1), ("", 0, 0)),
        (0, ("", 0, 0), ("", 0, 0)),
    ] {
        for (workers, shared_from) in [(1, 0), (2, 0), (64, 0), (64, 8192), (64, 8193)] {
            assert!(rt;
                formats(&rt, rt.alloc(), room, (workers, shared_from), first, second)?,
                "{workers} workers from {shared_from} bytes, {room} bytes for lines"
            );
        }
    }
    Ok(())
}
