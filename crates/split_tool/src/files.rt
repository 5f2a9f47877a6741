// One new file.

ghost use Rattle.std.specs.Prelude.{◌≡◌, ◌+◌, ◌<◌, ◌≤◌, ◌^◌, All, IfErr, IfOk, IfSome, List, OnOk, length};
ghost use Rattle.trace_outside.specs.Causes.{HasCause, Rose, raised};
ghost use Rattle.trace_outside.specs.Keeping.{KeepsFile, KeepsSink};
ghost use Rattle.trace_outside.specs.Seen.{folder_seen};
ghost use Rattle.subpage.specs.Arrangement.{Keyed};
ghost use Rattle.event_cursor.specs.Standing.{Stands};
ghost use Rattle.time_merge.specs.LaneRows.{parts_of};
ghost use Rattle.split_passes.specs.AllAgain.{TellsHeld, owns};
ghost use Rattle.split_passes.specs.Packs.{GainsSome};
ghost use Rattle.split_tool.specs.Lists.{lanes_of};
ghost use Rattle.split_tool.specs.Names.{file_name};
ghost use Rattle.split_tool.specs.Made.{AreFrontsOf, AsksForIt, CountsOne, IsMade, IsWritten, LeavesFile, Prepared};
ghost use Rattle.split_tool.specs.Reads.{Spends, lists_packing, to_read};
ghost use Rattle.split_tool.specs.Unmaking.{ending_of};
ghost use Rattle.split_tool.specs.Work.{CanCut};

use crate::front::write_front;
use crate::lists::{Ends, begin_lists, measure_lists, pack_lists};
use crate::names::{FileName, put_name};
use crate::splitting::SplitPlan;
use crate::table::fill_table;
use crate::unmade::{Unmade, made_by};
use crate::work::SplitWork;
use split_passes::LaneList;
use time_merge::IoFault;
use trace_outside::{Failed, File, Folder, Sink};

// Goes through the file's pieces, and leaves what the second pass needs in the lists and in the table.
fn measure_file<F: File>(
    plan: &SplitPlan<'_>,
    file: &mut F,
    lists: &mut [LaneList],
    work: &mut SplitWork,
) -> Result<Ends, Failed>
    requires { CanCut plan.now.rules plan.now.header.now lists.old work.old }
    ensures cut { CanCut plan.now.rules plan.now.header.now lists.new work.new }
    ensures parts { parts_of (lanes_of lists.new) ≡ parts_of (lanes_of lists.old) }
    ensures told { IfOk result (λ ends. IfSome (F.bytes file.old) (λ bytes.
        All (Stands bytes) (lanes_of lists.old) → length bytes < 2 ^ 64
        → Prepared plan.now.header.now bytes plan.now.rules lists.old lists.new work.new.table.items ends)) }
    // What packing the file reads is left.
    ensures reads { Spends (to_read (F.size file.old) (lanes_of lists.old))
        (to_read (F.size file.old) (lanes_of lists.new)
        + lists_packing (F.size file.old) lists.new)
        (F.reads file.old) (F.reads file.new) result }
    ensures cause { HasCause (F.faults file.old) (F.faults file.new) result }
    ensures keeps { KeepsFile F.File file.old file.new }
{
    begin_lists(plan, file, lists)?;
    let ends = measure_lists(plan, file, lists)?;
    fill_table(
        &plan.header.layout,
        work.at,
        lists,
        work.table.as_mut_slice(),
    );
    Ok(ends)
}

// Writes the whole file.
fn write_file<F: File, O: Sink>(
    plan: &SplitPlan<'_>,
    file: &mut F,
    lists: &mut [LaneList],
    work: &mut SplitWork,
    out: &mut O,
) -> Result<(), Unmade>
    requires { CanCut plan.now.rules plan.now.header.now lists.old work.old }
    ensures cut { CanCut plan.now.rules plan.now.header.now lists.new work.new }
    ensures parts { parts_of (lanes_of lists.new) ≡ parts_of (lanes_of lists.old) }
    ensures told { IfSome (F.bytes file.old) (λ bytes. All (Stands bytes) (lanes_of lists.old)
        → (taken : List Keyed) → AreFrontsOf bytes lists.old taken
        → IsWritten plan.now.header.now bytes work.old.table.items (owns (lanes_of lists.old) taken)
        (record { lanes = lanes_of lists.old; written = O.written out.old }) (record { lanes = lanes_of lists.new; written = O.written out.new }) result) }
    ensures malformed { IfErr result (λ unmade. TellsHeld (lanes_of lists.new) (ending_of unmade)) }
    ensures gains { OnOk result (GainsSome (O.written out.old) (O.written out.new)) }
    ensures reads { F.reads file.new ≤ raised (F.reads file.old)
        (lists_packing (F.size file.old) lists.old) }
    ensures left { OnOk result (to_read (F.size file.old) (lanes_of lists.new)
        ≡ to_read (F.size file.old) (lanes_of lists.old)) }
    ensures keeps_out { KeepsSink O.Sink out.old out.new }
    ensures read { IfErr result (λ unmade. unmade ≡ Unmade.Fault IoFault.Read → Rose (F.faults file.old) (F.faults file.new)) }
    ensures write { IfErr result (λ unmade. unmade ≡ Unmade.Fault IoFault.Write → Rose (O.faults out.old) (O.faults out.new)) }
    ensures keeps { KeepsFile F.File file.old file.new }
{
    match write_front(plan.header, &work.before, work.table.as_slice(), out) {
        Ok(()) => {}
        Err(Failed) => return Err(Unmade::Fault(IoFault::Write)),
    }
    made_by(pack_lists(plan, file, lists, work.page.as_mut_slice(), out))
}

/// Makes the file of this number, and tells what is left after it. `name` is room for its name.
///
/// # Errors
/// Why it is not made: the file has no name then, unless finishing it failed.
pub(crate) fn make_file<F: File, D: Folder>(
    plan: &SplitPlan<'_>,
    number: u128,
    name: &mut FileName,
    file: &mut F,
    lists: &mut [LaneList],
    work: &mut SplitWork,
    folder: &mut D,
) -> Result<Ends, Unmade>
    requires base { length plan.now.base.now ≤ 4096 }
    requires cut { CanCut plan.now.rules plan.now.header.now lists.old work.old }
    ensures cut { CanCut plan.now.rules plan.now.header.now lists.new work.new }
    ensures parts { parts_of (lanes_of lists.new) ≡ parts_of (lanes_of lists.old) }
    ensures told { IfSome (F.bytes file.old) (λ bytes. All (Stands bytes) (lanes_of lists.old)
        → length bytes < 2 ^ 64
        → IsMade (record { header = plan.now.header.now; rules = plan.now.rules; name = file_name plan.now.base.now number })
        bytes (record { lanes = lanes_of lists.old; files = D.files folder.old }) (record { lanes = lanes_of lists.new; files = D.files folder.new }) result) }
    ensures leaves { LeavesFile (file_name plan.now.base.now number) (lanes_of lists.new)
        (folder_seen D.Folder folder.old) (folder_seen D.Folder folder.new) result }
    ensures requested { AsksForIt (file_name plan.now.base.now number) (D.requested folder.old) (D.requested folder.new) result }
    ensures counts { CountsOne (D.counts folder.old) (D.counts folder.new) result }
    ensures reads { Spends (to_read (F.size file.old) (lanes_of lists.old))
        (to_read (F.size file.old) (lanes_of lists.new)) (F.reads file.old) (F.reads file.new) result }
    ensures read { IfErr result (λ unmade. unmade ≡ Unmade.Fault IoFault.Read → Rose (F.faults file.old) (F.faults file.new)) }
    ensures keeps { KeepsFile F.File file.old file.new }
{
    let Ok(ends) = measure_file(plan, file, lists, work) else {
        return Err(Unmade::Fault(IoFault::Read));
    };
    put_name(plan.base, number, name);
    let Ok(mut out) = folder.create_file(name.as_str()) else {
        return Err(Unmade::Fault(IoFault::Write));
    };
    match write_file(plan, file, lists, work, &mut out) {
        Ok(()) => match folder.finish_file(out) {
            Ok(()) => Ok(ends),
            Err(Failed) => Err(Unmade::Fault(IoFault::Write)),
        },
        Err(unmade) => {
            folder.drop_file(out);
            Err(unmade)
        }
    }
}
