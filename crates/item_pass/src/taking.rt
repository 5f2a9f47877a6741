ghost use Rattle.std.specs.Prelude.{◌≡◌, ◌<◌, List, Some, OnOk, length, slice_index_or};
ghost use Rattle.page_pool.specs.declared.lane.Lane.{Lane};
ghost use Rattle.subpage.specs.Arrangement.{Keyed};
ghost use Rattle.event_cursor.specs.Keys.{first_of};
ghost use Rattle.event_cursor.specs.Standing.{keyed_held};
ghost use Rattle.item_pass.specs.Gathering.{and_item};

use crate::gatherer::Gatherer;
use std::alloc::AllocError;
use time_merge::Lanes;

/// Takes in the first item of a lane that is not used up. It is one piece of code with what the gatherer does.
#[inline(always)]
pub(crate) fn take_head<G: Gatherer>(
    gatherer: &G,
    lanes: &Lanes,
    i: usize,
    gathered: &mut G::Gathered,
) -> Result<(), AllocError>
    requires sound { G.is_sound gatherer.now }
    requires inside { i < length lanes.now.all }
    requires known { (xs : List Keyed) × G.holds gatherer.now xs gathered.old }
    ensures known { OnOk result ((xs : List Keyed) × G.holds gatherer.now xs gathered.new) }
    ensures taken { (d : Lane) (xs : List Keyed) (x : Keyed)
        → first_of (keyed_held (slice_index_or lanes.now.all i d)) ≡ Some x → G.holds gatherer.now xs gathered.old
        → OnOk result (G.holds gatherer.now (and_item (G.matters gatherer.now) xs x) gathered.new) }
{
    match lanes.head(i) {
        Some((_, item)) => gatherer.take(lanes.all()[i].cpu, &item, gathered),
        None => Ok(()),
    }
}
