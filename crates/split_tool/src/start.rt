// The items before the start.

ghost use Rattle.std.specs.Prelude.{◌≡◌, ◌-◌, ◌≤◌, All, IfSome, OnOk};
ghost use Rattle.trace_outside.specs.Causes.{HasCause, raised};
ghost use Rattle.event_cursor.specs.Standing.{Stands};
ghost use Rattle.time_merge.specs.Reads.{all_unread};
ghost use Rattle.split_tool.specs.Going.{ListsGo};
ghost use Rattle.split_tool.specs.Lists.{lanes_of};
ghost use Rattle.split_tool.specs.Started.{Started};
ghost use Rattle.split_tool.specs.Work.{AreLists, HasOwnLayouts};

use crate::splitting::SplitPlan;
use split_passes::LaneList;
use trace_outside::{Failed, File};

/// Passes over the items of each list that stand before the start, where there is one.
///
/// # Errors
/// `Failed` where a read failed.
pub(crate) fn pass_start<F: File>(
    plan: &SplitPlan<'_>,
    file: &mut F,
    lists: &mut [LaneList],
) -> Result<(), Failed>
    requires { AreLists plan.now.rules plan.now.header.now lists.old }
    ensures go { ListsGo F.File file.old file.new lists.old lists.new }
    ensures layouts { OnOk result (All HasOwnLayouts lists.old) }
    ensures told { OnOk result (IfSome (F.bytes file.old) (λ bytes. All (Stands bytes) (lanes_of lists.old)
        → Started bytes plan.now.rules (lanes_of lists.old) (lanes_of lists.new))) }
    ensures reads_done { OnOk result (F.reads file.new ≤ raised (F.reads file.old)
        (all_unread (F.size file.old) (lanes_of lists.old)
        - all_unread (F.size file.old) (lanes_of lists.new))) }
    ensures cause { HasCause (F.faults file.old) (F.faults file.new) result }
{
    for i in 0..lists.len() {
        lists[i].pass_over(file, plan.rules.start)?;
    }
    Ok(())
}
