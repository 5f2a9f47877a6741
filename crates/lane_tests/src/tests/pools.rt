ghost use Rattle.std.specs.Prelude.{◌≡◌, length};

use page_pool::{ByteBuffer, Lane, LaneState, Pool, Put, Region};
use std::alloc::{AllocError, Global};
use std::test::Fail;
use trace_base::Tail;
use trace_samples::layout;

fn write_byte(page: &mut ByteBuffer, value: u8)
    ensures { length page.new ≡ length page.old }
{
    if let Some(first) = page.bytes_mut().first_mut() {
        *first = value;
    }
}

// The lane holds no sub-buffer then, so that nothing is said of its bytes.
fn write_first(lane: &mut Lane, value: u8) {
    lane.cursor.state = LaneState::Fresh;
    write_byte(&mut lane.page, value);
}

// A lane of processor 0 before its first item, whose buffers have these lengths; the first byte of the sub-buffer's is given.
fn is_new(lane: &mut Lane, page: usize, text: usize, first: u8) -> bool {
    lane.cpu == 0
        && lane.part.size == 0
        && lane.cursor.state == LaneState::Fresh
        && lane.page.bytes().len() == page
        && lane.page.bytes().first() == Some(&first)
        && lane.region.lines() == 0
        && lane.region.free().len() == text
}

fn are_new(alloc: Global, count: u32) -> Result<bool, AllocError> {
    let mut pool = Pool::new(alloc, &layout(), count, 100)?;
    let lanes = pool.lanes();
    if let Some(last) = lanes.last_mut() {
        write_first(last, 9);
    }
    for i in 0..lanes.len() {
        let first = if i + 1 == lanes.len() { 9 } else { 0 };
        if !is_new(&mut lanes[i], 4096, 100, first) {
            return Ok(false);
        }
    }
    Ok(lanes.len() == count as usize)
}

// As many as a trace may have processors, and more than a byte counts.
#[test]
fn each_of_many_lanes_has_its_own_buffers(rt: HostRuntime) -> Result<(), Fail> {
    for count in [0, 3, 1024] {
        assert!(rt; are_new(rt.alloc(), count)?, "{count}");
    }
    Ok(())
}

// The length of a text that was put into the bytes.
fn form(into: &mut [u8], text: &[u8]) -> u32 {
    let mut tail = Tail::new(into);
    tail.put(text);
    tail.total().min(u64::from(u32::MAX)) as u32
}

fn keep(region: &mut Region, key: u64, text: &[u8]) -> Put {
    let len = form(region.free(), text);
    region.put_line(key, len, None)
}

// The region keeps just these lines.
fn keeps(region: &Region, lines: &[(u64, &[u8])]) -> bool {
    let count = region.lines();
    if count as usize != lines.len() {
        return false;
    }
    for i in 0..count {
        let (text, key, _) = region.line(i);
        let (wanted_key, wanted) = lines[i as usize];
        if key != wanted_key || text != wanted {
            return false;
        }
    }
    true
}

fn drop_lines(region: &mut Region, count: u32) {
    if count <= region.lines() {
        region.drop_front(count);
    }
}

const PUTS: &[(u64, &[u8], Put)] = &[
    (5, b"abc", Put::Kept),
    (5, b"longer than the rest", Put::Full),
    (7, b"", Put::Kept),
    (9, b"defghij", Put::Kept),
    (9, b"k", Put::Full),
];

fn keeps_what_was_put(region: &mut Region) -> bool {
    for (key, text, put) in PUTS {
        if keep(region, *key, text) != *put {
            return false;
        }
    }
    keeps(region, &[(5, b"abc"), (7, b""), (9, b"defghij")]) && region.lines() == 3
}

fn drops_a_front(region: &mut Region) -> bool {
    drop_lines(region, 2);
    keeps(region, &[(9, b"defghij")]) && keep(region, 9, b"k") == Put::Full
}

fn keeps_empty_lines(region: &mut Region, most: u32) -> bool {
    region.clear();
    for _ in 0..most {
        if keep(region, 1, b"") != Put::Kept {
            return false;
        }
    }
    keep(region, 1, b"") == Put::Full
}

fn is_kept_until_dropped(lane: &mut Lane) -> bool {
    keeps_what_was_put(&mut lane.region)
        && drops_a_front(&mut lane.region)
        && keeps_empty_lines(&mut lane.region, 146)
}

#[test]
fn lines_are_kept_until_they_are_dropped(rt: HostRuntime) -> Result<(), Fail> {
    let mut pool = Pool::new(rt.alloc(), &layout(), 1, 10)?;
    let is_kept = match pool.lanes().first_mut() {
        Some(lane) => is_kept_until_dropped(lane),
        None => false,
    };
    assert!(rt; is_kept);
    Ok(())
}

fn first_keeps(alloc: Global, lanes: u32, most: u32) -> Result<bool, AllocError> {
    let mut pool = Pool::new(alloc, &layout(), lanes, 10)?;
    match pool.lanes().first_mut() {
        Some(lane) => Ok(keeps_empty_lines(&mut lane.region, most)),
        None => Ok(false),
    }
}

#[test]
fn regions_of_many_lanes_keep_fewer_lines(rt: HostRuntime) -> Result<(), Fail> {
    assert!(rt; first_keeps(rt.alloc(), 64, 146)?);
    assert!(rt; first_keeps(rt.alloc(), 65, 64)?);
    Ok(())
}
