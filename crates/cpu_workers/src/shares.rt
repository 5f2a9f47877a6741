ghost use Rattle.std.specs.Prelude.{◌≡◌, ◌-◌, ◌<◌, ◌≤◌, length, take, drop};
ghost use Rattle.cpu_workers.specs.Shares.{are_worth, busy_lanes, may_form, share_of, threads_for};

use event_cursor::head_key;
use page_pool::{Lane, next_dirty};

/// A lane's sub-buffer counts so many bytes at most: of a longer one a region takes no more lines at once.
const MOST_COUNTED: u32 = 32 * 1024;

/// Whether a lane may form a line: it holds an item, and its region takes lines.
fn may_form(lane: &Lane) -> bool
    ensures { result ≡ may_form lane.now }
{
    !lane.region.is_used_up() && head_key(lane).is_some()
}

/// How many lanes are busy, by their dirty bits.
fn busy_lanes(lanes: &[Lane], moved: &[bool]) -> usize
    requires marks { length moved.now ≡ length lanes.now }
    ensures { result ≡ busy_lanes lanes.now moved.now }
{
    let mut busy = 0;
    let mut from = 0;
    while let Some(i) = next_dirty(moved, from) {
        if may_form(&lanes[i]) {
            busy += 1;
        }
        from = i + 1;
    }
    busy
}

/// Whether so many busy lanes, with sub-buffers of this length, hold as many bytes as are worth several threads.
fn are_worth(shared_from: u64, page: u32, busy: usize) -> bool
    ensures { result ≡ are_worth shared_from page busy }
{
    let each = page.min(MOST_COUNTED);
    shared_from <= (busy as u64).saturating_mul(u64::from(each))
}

/// On how many threads lanes are formatted, by their dirty bits.
pub(crate) fn threads_for(
    asked: u32,
    shared_from: u64,
    page: u32,
    lanes: &[Lane],
    moved: &[bool],
) -> usize
    requires marks { length moved.now ≡ length lanes.now }
    ensures value { result
        ≡ threads_for asked shared_from page (busy_lanes lanes.now moved.now) }
    ensures asked { 1 < result → result ≤ asked }
    ensures busy { 1 < result → result ≤ busy_lanes lanes.now moved.now }
{
    // Where no number of busy ones would be worth several threads, they are not counted.
    if asked == 1 || !are_worth(shared_from, page, lanes.len()) {
        return 1;
    }
    let busy = busy_lanes(lanes, moved);
    if are_worth(shared_from, page, busy) {
        busy.min(asked as usize).max(1)
    } else {
        1
    }
}

/// The place after the first `count` busy lanes.
fn place_behind(lanes: &[Lane], moved: &[bool], count: usize) -> usize
    requires marks { length moved.now ≡ length lanes.now }
    requires enough { count ≤ busy_lanes lanes.now moved.now }
    ensures inside { result ≤ length lanes.now }
    ensures count { busy_lanes (take result lanes.now) (take result moved.now) ≡ count }
{
    let mut left = count;
    let mut from = 0;
    while left > 0 {
        let Some(i) = next_dirty(moved, from) else {
            break;
        };
        if may_form(&lanes[i]) {
            left -= 1;
        }
        from = i + 1;
    }
    from
}

/// Where lanes are cut between the first few of several workers and the others, so that each has about as many busy ones.
pub(crate) fn cut_between(lanes: &[Lane], moved: &[bool], workers: usize, first: usize) -> usize
    requires marks { length moved.now ≡ length lanes.now }
    requires enough { workers ≤ busy_lanes lanes.now moved.now }
    requires first { first < workers }
    ensures inside { result ≤ length lanes.now }
    ensures share { busy_lanes (take result lanes.now) (take result moved.now)
        ≡ share_of (busy_lanes lanes.now moved.now) workers first }
    ensures front { first ≤ busy_lanes (take result lanes.now) (take result moved.now) }
    ensures back { workers - first ≤ busy_lanes (drop result lanes.now) (drop result moved.now) }
{
    let busy = busy_lanes(lanes, moved);
    let share = busy / workers * first + (busy % workers).min(first);
    place_behind(lanes, moved, share)
}
