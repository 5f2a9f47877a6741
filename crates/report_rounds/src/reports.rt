ghost use Rattle.std.specs.Prelude.{◌≡◌, ◌≤◌, [], All, IfSome, IsErrOf, length, replicate, sum_by, true};
ghost use Rattle.trace_outside.specs.Causes.{Rose, raised};
ghost use Rattle.trace_outside.specs.Keeping.{KeepsFile, KeepsSink};
ghost use Rattle.subpage.specs.Arrangement.{CpusRise};
ghost use Rattle.time_merge.specs.LaneRows.{parts_of};
ghost use Rattle.report_rounds.specs.Between.{HasRoom, HidesNoHole, IsAtStart};
ghost use Rattle.report_rounds.specs.Due.{ReadsDue};
ghost use Rattle.report_rounds.specs.Reports.{IsReport};

use crate::ends::Outcome;
use crate::lanes::RoundLanes;
use crate::turns::turn;
use crate::work::RoundWork;
use cpu_workers::Workers;
use line_holes::LineFormat;
use page_pool::Lane;
use std::thread::Threads;
use time_merge::{End, IoFault};
use trace_base::Layout;
use trace_outside::{File, Gate, Pending, Sink};

/// Writes the lines of the reached items of the lanes' processors, by key, then processor, then position: all items up to
/// the first malformed sub-buffer in that order. `Malformed` tells that sub-buffer, `Done` that there is none.
///
/// Each region has room for any line. The first round forms its lines on as many threads as `workers.count` allows, whatever
/// its lanes hold. A later one does so where they hold as much as `workers.shared_from` says, and on one thread elsewhere
/// ([`cpu_workers::format_lanes`]). The bytes are the same for any number of threads. After `Read` the lines of the first few
/// reached items are written, after `Write` a prefix of the text. It takes no memory, and gives that of the lanes back.
///
/// No more bytes are read than the parts of the processors have, and none ahead of what is written: of the lines before
/// a sub-buffer that is read no more than a region keeps were not written yet.
pub fn report_rounds<R: Threads + Sync, F: File, L: LineFormat, G: Gate, O: Sink>(
    workers: &Workers<'_, R, G>,
    form: &L,
    file: &mut F,
    lanes: RoundLanes,
    pending: Pending,
    out: &mut O,
) -> Result<End, IoFault>
    requires room { All (HasRoom (L.text form.now)) lanes.all }
    requires shown { HidesNoHole (L.text form.now) }
    requires empty { pending ≡ [] }
    ensures report { IfSome (F.bytes file.old) (λ bytes. IsReport (L.text form.now) lanes.layout bytes (parts_of lanes.all)
        (O.written out.old) (O.written out.new) result) }
    ensures read { IsErrOf result IoFault.Read → Rose (F.faults file.old) (F.faults file.new) }
    ensures write { IsErrOf result IoFault.Write → Rose (O.faults out.old) (O.faults out.new) }
    ensures keeps_out { KeepsSink O.Sink out.old out.new }
    ensures reads { F.reads file.new
        ≤ raised (F.reads file.old) (sum_by (λ part. part.1.size) (parts_of lanes.all)) }
    ensures due { IfSome (F.bytes file.old) (λ bytes. ReadsDue (L.text form.now) lanes.layout bytes (parts_of lanes.all)
        (O.written out.old) (O.written out.new) (F.reads file.old) (F.reads file.new)) }
    ensures keeps { KeepsFile F.File file.old file.new }
{
    let RoundLanes {
        layout,
        mut pool,
        heads,
        highs,
        moved,
    } = lanes;
    let mut work = RoundWork {
        heads,
        highs,
        moved,
        pending,
    };
    let all = pool.lanes();
    go_round(workers, form, &layout, file, all, &mut work, out)
}

// The same over lanes that it is lent, all of them dirty.
fn go_round<R: Threads + Sync, F: File, L: LineFormat, G: Gate, O: Sink>(
    workers: &Workers<'_, R, G>,
    form: &L,
    layout: &Layout,
    file: &mut F,
    lanes: &mut [Lane],
    work: &mut RoundWork,
    out: &mut O,
) -> Result<End, IoFault>
    requires start { All (IsAtStart layout.now) lanes.old }
    requires room { All (HasRoom (L.text form.now)) lanes.old }
    requires shown { HidesNoHole (L.text form.now) }
    requires rise { CpusRise (parts_of lanes.old) }
    requires heads { length work.old.heads ≡ length lanes.old }
    requires highs { length work.old.highs ≡ length lanes.old }
    requires moved { work.old.moved.items ≡ replicate (length lanes.old) true }
    requires empty { work.old.pending ≡ [] }
    ensures report { IfSome (F.bytes file.old) (λ bytes. IsReport (L.text form.now) layout.now bytes (parts_of lanes.old)
        (O.written out.old) (O.written out.new) result) }
    ensures read { IsErrOf result IoFault.Read → Rose (F.faults file.old) (F.faults file.new) }
    ensures write { IsErrOf result IoFault.Write → Rose (O.faults out.old) (O.faults out.new) }
    ensures keeps_out { KeepsSink O.Sink out.old out.new }
    ensures reads { F.reads file.new
        ≤ raised (F.reads file.old) (sum_by (λ part. part.1.size) (parts_of lanes.old)) }
    ensures due { IfSome (F.bytes file.old) (λ bytes. ReadsDue (L.text form.now) layout.now bytes (parts_of lanes.old)
        (O.written out.old) (O.written out.new) (F.reads file.old) (F.reads file.new)) }
    ensures keeps { KeepsFile F.File file.old file.new }
{
    let mut last = None;
    let mut shared_from = 0;
    loop {
        let round = Workers {
            shared_from,
            ..*workers
        };
        if let Outcome::Ends(end) = turn(&round, form, layout, file, lanes, work, &mut last, out)? {
            return Ok(end);
        }
        shared_from = workers.shared_from;
    }
}
