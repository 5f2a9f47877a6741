ghost use Rattle.std.specs.Prelude.{◌≡◌, ◌*◌, ◌<◌, ◌≤◌, ◌&&◌, All, IfSome, IsErrOf, List, length, sum_by};
ghost use Rattle.trace_base.specs.declared.part.Part.{Part};
ghost use Rattle.trace_outside.specs.Causes.{Rose, raised};
ghost use Rattle.trace_outside.specs.Keeping.{KeepsFile};
ghost use Rattle.trace_outside.specs.Seen.{folder_seen};
ghost use Rattle.dat_header.specs.Allowed.{IsHeader};
ghost use Rattle.page_pool.specs.Fresh.{IsFresh};
ghost use Rattle.time_merge.specs.LaneRows.{parts_of};
ghost use Rattle.split_pieces.specs.Pieces.{IsUnit};
ghost use Rattle.new_files.specs.Stored.{KeepsCounts};
ghost use Rattle.split_tool.specs.Lists.{lanes_of};
ghost use Rattle.split_tool.specs.NewFiles.{AsksFor, Creates, IsSplit, LeavesUnfinished, end_by, end_of, new_files};
ghost use Rattle.split_tool.specs.Numbered.{LeavesFiles};
ghost use Rattle.split_tool.specs.Work.{AreLists, IsWorkFor};

use crate::files::make_file;
use crate::lists::Ends;
use crate::names::FileName;
use crate::start::pass_start;
use crate::work::SplitWork;
use dat_header::Header;
use split_passes::LaneList;
use split_pieces::Rules;
use time_merge::{End, IoFault};
use trace_outside::{File, Folder};

/// What is to be split, and how.
#[derive(Clone, Copy)]
pub struct SplitPlan<'a> {
    /// The input's header, without the options of instances.
    pub header: &'a Header,
    pub rules: Rules,
    /// What the names of the new files begin with.
    pub base: &'a str,
}

// Whether a further file is made.
fn goes_on(rules: &Rules, ends: Ends) -> bool
    ensures { result ≡ (ends.more && rules.now.repeat) }
{
    ends.more && rules.repeat
}

// How a split ends after its last file.
fn end_by(ends: Ends) -> End
    ensures { result ≡ end_by ends.bad }
{
    match ends.bad {
        Some(cut) => End::Malformed(cut),
        None => End::Done,
    }
}

/// Cuts a trace into new files (trace-cmd-split(1)).
///
/// There is always a first file. `Malformed` exactly where a list that nothing closed ends before a malformed sub-buffer;
/// the last file is finished then. Nothing here takes memory.
///
/// A file that gives other bytes while a piece is packed than while it was measured is `Malformed` too, at the sub-buffer that
/// the lane holds; the new file being made has no name then.
///
/// # Errors
/// Whether a read or a write failed. The finished files are the first few then, and the file being made has no name, unless
/// finishing it failed.
pub fn split<F: File, D: Folder>(
    plan: &SplitPlan<'_>,
    file: &mut F,
    lists: &mut [LaneList],
    work: &mut SplitWork,
    folder: &mut D,
) -> Result<End, IoFault>
    requires allowed { IsHeader plan.now.header.now }
    requires unit { IsUnit plan.now.rules.unit }
    requires base { length plan.now.base.now ≤ 4096 }
    requires fresh { All (λ lane. IsFresh lane.cursor) (lanes_of lists.old) }
    requires lists { AreLists plan.now.rules plan.now.header.now lists.old }
    requires work { IsWorkFor plan.now.header.now work.old }
    ensures told { IfSome (F.bytes file.old) (λ bytes. IsSplit
        (new_files plan.now.rules plan.now.base.now plan.now.header.now bytes (parts_of (lanes_of lists.old)))
        (end_of plan.now.rules plan.now.header.now bytes (parts_of (lanes_of lists.old)))
        (folder_seen D.Folder folder.old) (folder_seen D.Folder folder.new) result) }
    ensures created { IfSome (F.bytes file.old) (λ bytes. Creates
        (length (new_files plan.now.rules plan.now.base.now plan.now.header.now bytes (parts_of (lanes_of lists.old))))
        (D.counts folder.old).created (D.counts folder.new).created result) }
    ensures requested { IfSome (F.bytes file.old) (λ bytes. AsksFor
        (new_files plan.now.rules plan.now.base.now plan.now.header.now bytes (parts_of (lanes_of lists.old)))
        (D.requested folder.old) (D.requested folder.new) result) }
    // Of any file, also of one whose bytes change between the passes.
    ensures leaves { LeavesFiles plan.now.base.now (lanes_of lists.new)
        (folder_seen D.Folder folder.old) (folder_seen D.Folder folder.new) result }
    ensures counts { KeepsCounts (D.counts folder.old) (D.counts folder.new) }
    ensures unfinished { LeavesUnfinished (D.counts folder.old).unfinished (D.counts folder.new).unfinished result }
    // Each sub-buffer is read at most three times: to measure the pieces, to pack the one that ends in it, and to pack the
    // next one.
    ensures reads { F.reads file.new
        ≤ raised (F.reads file.old) (3 * sum_by (λ part. part.1.size) (parts_of (lanes_of lists.old))) }
    ensures keeps { KeepsFile F.File file.old file.new }
    ensures read { IsErrOf result IoFault.Read → Rose (F.faults file.old) (F.faults file.new) }
    ensures write { IsErrOf result IoFault.Write → Rose (D.counts folder.old).writing (D.counts folder.new).writing }
{
    let Ok(()) = pass_start(plan, file, lists) else {
        return Err(IoFault::Read);
    };
    let mut name = FileName::new();
    for number in 1..u128::MAX {
        match make_file(plan, number, &mut name, file, lists, work, folder) {
            Ok(ends) => {
                if !goes_on(&plan.rules, ends) {
                    return Ok(end_by(ends));
                }
            }
            Err(unmade) => return unmade.ending(),
        }
    }
    Ok(End::Done)
}
