// Lanes over processors, before their first items.

ghost use Rattle.std.specs.Prelude.{◌≡◌, ◌≤◌, ℕ, All, length, IfOk};
ghost use Rattle.trace_base.specs.declared.layout.Layout.{Layout};
ghost use Rattle.time_merge.specs.LaneRows.{parts_of};
ghost use Rattle.time_merge.specs.Unused.{IsUnused};

use page_pool::{Lane, Pool};
use std::alloc::{AllocError, Global};
use trace_base::{Layout, Part};

/// A pool of lanes of this layout over these parts, before their first items, with `room` bytes for lines.
pub fn pool_over(
    alloc: Global,
    layout: &Layout,
    room: u32,
    parts: &[(u32, Part)],
) -> Result<Pool, AllocError>
    requires { length parts.now ≤ 1024 }
    ensures count { IfOk result (λ pool. length pool ≡ length parts.now) }
    ensures parts { IfOk result (λ pool. parts_of pool ≡ parts.now) }
    ensures unused { IfOk result (λ pool. All (IsUnused layout.now room) pool) }
{
    let mut pool = Pool::new(alloc, layout, parts.len() as u32, room)?;
    set_lanes(pool.lanes(), parts);
    Ok(pool)
}

// Gives each lane its processor and its part.
fn set_lanes(lanes: &mut [Lane], parts: &[(u32, Part)])
    requires { length lanes.old ≡ length parts.now }
    ensures parts { parts_of lanes.new ≡ parts.now }
    ensures unused { (layout : Layout) (room : ℕ) → All (IsUnused layout room) lanes.old
        → All (IsUnused layout room) lanes.new }
{
    for i in 0..parts.len() {
        set_lane(&mut lanes[i], parts[i]);
    }
}

fn set_lane(lane: &mut Lane, part: (u32, Part))
    ensures part { (lane.new.cpu ≡ part.0) × (lane.new.part ≡ part.1) }
    ensures layout { lane.new.layout ≡ lane.old.layout }
    ensures cursor { lane.new.cursor ≡ lane.old.cursor }
    ensures page { lane.new.page ≡ lane.old.page }
    ensures region { lane.new.region ≡ lane.old.region }
{
    lane.cpu = part.0;
    lane.part = part.1;
}
