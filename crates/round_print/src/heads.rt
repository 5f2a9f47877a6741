ghost use Rattle.std.specs.Prelude.{◌≡◌, ◌<◌, ◌≤◌, ℕ, length, map, option_map, slice_index_or, take, true, None, unwrap_or, IfSome};
ghost use Rattle.time_merge.specs.Nexts.{IsLeastAt};
ghost use Rattle.subpage.specs.Arrangement.{CpusRise};
ghost use Rattle.time_merge.specs.Horizons.{is_due};
ghost use Rattle.time_merge.specs.LaneRows.{parts_of};
ghost use Rattle.page_pool.specs.Keeping.{KeepsLane, printing};
ghost use Rattle.page_pool.specs.Lines.{Line};
ghost use Rattle.round_print.specs.Prints.{ArePlain, IsDropped, head_due, head_kept};
ghost use Rattle.round_print.specs.Rounds.{IsNextAt, IsRun};

use page_pool::{Lane, Region};
use time_merge::Horizon;
use tournament_tree::{SlotKey, TournamentTree};

/// Whether a line with this key, of this processor, stands at or before a horizon.
fn is_due(horizon: &Horizon, key: u64, cpu: u32) -> bool
    ensures { result ≡ is_due horizon.now key cpu }
{
    match horizon {
        Horizon::All => true,
        Horizon::Start(_) => false,
        Horizon::To(k, c) => key < *k || (key == *k && cpu <= *c),
    }
}

/// The key of a lane's first line, where that line is due.
#[inline(always)]
fn head_due(horizon: &Horizon, lane: &Lane) -> Option<u64>
    ensures { unwrap_or (option_map SlotKey.At result) SlotKey.Empty ≡ head_due horizon.now lane.now }
{
    if lane.region.lines() == 0 {
        return None;
    }
    let (_, key, _) = lane.region.line(0);
    if is_due(horizon, key, lane.cpu) {
        Some(key)
    } else {
        None
    }
}

/// The key of the first line that a lane keeps, if it keeps one: what stands in the lane's slot of a tree of first lines.
pub fn head_kept(lane: &Lane) -> SlotKey
    ensures { result ≡ head_kept lane.now }
{
    if lane.region.lines() == 0 {
        return SlotKey::Empty;
    }
    let (_, key, _) = lane.region.line(0);
    SlotKey::At(key)
}

/// The lane whose first line is due and has the least key, and the first of several such. `None` exactly where no line is
/// due.
pub(crate) fn least_due(horizon: &Horizon, lanes: &[Lane], heads: &TournamentTree) -> Option<usize>
    requires rise { CpusRise (parts_of lanes.now) }
    requires heads { heads.now ≡ map head_kept lanes.now }
    ensures least { IsLeastAt (map (head_due horizon.now) lanes.now) result }
    ensures inside { IfSome result (λ i. i < length lanes.now) }
{
    match heads.least() {
        None => None,
        Some(i) => match head_due(horizon, &lanes[i]) {
            None => None,
            Some(_) => Some(i),
        },
    }
}

/// The greatest key with which a line of this processor is due, if there is one.
fn due_up_to(horizon: &Horizon, cpu: u32) -> Option<u64>
    ensures { IfSome result (λ most. (key : ℕ) → key ≤ most → is_due horizon.now key cpu ≡ true) }
{
    match horizon {
        Horizon::All => Some(u64::MAX),
        Horizon::Start(_) => None,
        Horizon::To(k, c) => {
            if cpu <= *c {
                Some(*k)
            } else {
                k.checked_sub(1)
            }
        }
    }
}

/// The greatest key up to which a lane's lines are due and come before those of all other lanes, if there is one.
fn run_up_to(horizon: &Horizon, cpu: u32, heads: &TournamentTree, i: usize) -> Option<u64>
    requires { i < length heads.now }
    ensures { IfSome result (λ most. (key : ℕ) → key ≤ most → IsNextAt horizon.now heads.now i cpu key) }
{
    match (due_up_to(horizon, cpu), heads.up_to(i)) {
        (Some(due), Some(before)) => Some(due.min(before)),
        _ => None,
    }
}

/// How many of the first lines that a region keeps have keys up to this one.
fn front_up_to(region: &Region, most: u64) -> u32
    ensures kept { result ≤ length region.now.kept }
    ensures early { (i : ℕ) (d : Line) → i < result → (slice_index_or region.now.kept i d).key ≤ most }
{
    let mut count = 0;
    while count < region.lines() {
        let (_, key, _) = region.line(count);
        if most < key {
            break;
        }
        count += 1;
    }
    count
}

/// How many lines of the lane that is next go out at once: those up to the first that does not come next, or one. Before the
/// first line with a hole they are those without.
/// It is one where another lane's line went out alone just before, so that lanes that take turns line by line are not asked.
pub(crate) fn run_of(
    horizon: &Horizon,
    lane: &Lane,
    heads: &TournamentTree,
    i: usize,
    alone: Option<usize>,
    last: Option<u64>,
) -> u32
    requires slot { i < length heads.now }
    requires some { 0 < length lane.now.region.kept }
    ensures run { IsRun horizon.now heads.now i lane.now result }
    ensures plain { last ≡ None → 1 < result → ArePlain (take result lane.now.region.kept) }
{
    if alone.is_some_and(|other| other != i) {
        return 1;
    }
    let Some(most) = run_up_to(horizon, lane.cpu, heads, i) else {
        return 1;
    };
    if last.is_some() {
        return front_up_to(&lane.region, most).max(1);
    }
    lane.region.plain_front(most).max(1)
}

/// Keeps a lane's first lines no longer. Once none of those that are left is due, and where they are few, their room is made
/// free again.
pub(crate) fn drop_front(horizon: &Horizon, lane: &mut Lane, count: u32)
    requires { (0 < count) × (count ≤ length lane.old.region.kept) }
    ensures region { IsDropped count lane.old.region lane.new.region }
    ensures lane { KeepsLane printing lane.old lane.new }
{
    lane.region.drop_front(count);
    if head_due(horizon, lane).is_none() && lane.region.is_sparse() {
        lane.region.close_up();
    }
}
