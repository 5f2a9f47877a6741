// Trees and dirty bits, once the lanes that moved are formatted.

ghost use Rattle.std.specs.Prelude.{◌≡◌, length, map};
ghost use Rattle.page_pool.specs.Moved.{AllUnmoved};
ghost use Rattle.time_merge.specs.Horizons.{high_of};
ghost use Rattle.time_merge.specs.LaneRows.{IsReady};
ghost use Rattle.round_print.specs.Prints.{head_kept};
ghost use Rattle.report_rounds.specs.Between.{AreMarkedUnready, HasSlots, SlotsTell};

use crate::work::RoundWork;
use page_pool::{Lane, next_dirty};
use round_print::head_kept;
use time_merge::{high_of, wants_load};

/// Brings both trees into step with the lanes, by a look at the dirty ones. Of these only the ones that are to be loaded stay
/// dirty.
pub(crate) fn settle(lanes: &[Lane], work: &mut RoundWork)
    requires slots { HasSlots lanes.now work.old }
    requires ready { AllUnmoved IsReady work.old.moved.items lanes.now }
    requires heads { SlotsTell head_kept work.old.moved.items work.old.heads lanes.now }
    requires highs { SlotsTell high_of work.old.moved.items work.old.highs lanes.now }
    ensures heads { work.new.heads ≡ map head_kept lanes.now }
    ensures highs { work.new.highs ≡ map high_of lanes.now }
    ensures marks { length work.new.moved.items ≡ length lanes.now }
    ensures marked { AreMarkedUnready work.new.moved.items lanes.now }
    ensures pending { work.new.pending ≡ work.old.pending }
{
    let mut from = 0;
    while let Some(i) = next_dirty(work.moved.as_slice(), from) {
        let lane = &lanes[i];
        work.heads.set(i, head_kept(lane));
        work.highs.set(i, high_of(lane));
        work.moved[i] = wants_load(lane);
        from = i + 1;
    }
}
