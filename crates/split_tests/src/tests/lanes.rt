// Lanes of processors that are numbered one after another.

ghost use Rattle.std.specs.Prelude.{◌≡◌, ◌+◌, ◌≤◌, All, length};
ghost use Rattle.trace_base.specs.declared.layout.Layout.{Layout};
ghost use Rattle.subpage.specs.Arrangement.{CpusRise};
ghost use Rattle.time_merge.specs.LaneRows.{HasLayout, parts_of};

use page_pool::Lane;
use trace_base::Part;

fn set_lane(lane: &mut Lane, cpu: u32, part: Part)
    ensures layout { lane.new.layout ≡ lane.old.layout }
    ensures cpu { lane.new.cpu ≡ cpu }
{
    lane.cpu = cpu;
    lane.part = part;
}

// Gives lanes the parts of processors that are numbered from a first one on. They keep their layout.
pub(super) fn set_lanes(lanes: &mut [Lane], first: u32, parts: &[Part])
    requires long { length lanes.old ≡ length parts.now }
    requires few { first + length parts.now ≤ 1024 }
    ensures layouts { (layout : Layout) → All (HasLayout layout) lanes.old → All (HasLayout layout) lanes.new }
    ensures rise { CpusRise (parts_of lanes.new) }
{
    for i in 0..parts.len() {
        set_lane(&mut lanes[i], first + i as u32, parts[i]);
    }
}
