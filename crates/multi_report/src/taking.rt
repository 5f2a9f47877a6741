ghost use Rattle.std.specs.Prelude.{◌≡◌, ◌≤◌, ◌<◌, All, length, map};
ghost use Rattle.trace_outside.specs.Keeping.{KeepsSink};
ghost use Rattle.trace_outside.specs.Pending.{on_way};
ghost use Rattle.multi_report.specs.Sources.{HasRoom, IsPrepared, seen};
ghost use Rattle.multi_report.specs.Taking.{TakenFrom, TakenOf, WriteCaused};

use crate::printing::put_item;
use crate::source::{Source, make_source_ready, use_item};
use line_holes::LineFormat;
use subpage::CutPlace;
use time_merge::{IoFault, LaneNext};
use tournament_tree::SlotKey;
use trace_outside::{Failed, File, Pending, Sink};

/// What was taken of a file.
#[derive(Clone, Copy, Debug, PartialEq, Eq)]
pub(crate) enum Taken {
    /// Its first item, whose line was put. The key is that of what comes next.
    Item(SlotKey),
    /// Nothing: its items end before this malformed sub-buffer.
    Cut(CutPlace),
    /// Nothing: all were used up.
    Done,
}

/// Puts the line of a file's first item and uses the item up. The file's lanes are ready. Where a read fails the line was
/// put, and the item used up.
fn take_next<F: File, L: LineFormat, O: Sink>(
    source: &mut Source<'_, F, L>,
    buffer: &mut [u8],
    pending: &mut Pending,
    out: &mut O,
) -> Result<Taken, IoFault>
    requires prepared { IsPrepared (seen F.File L.text source.old) }
    requires room { HasRoom (length buffer.old) (seen F.File L.text source.old) }
    ensures long { length buffer.new ≡ length buffer.old }
    ensures taken { TakenOf (seen F.File L.text source.old) (on_way O.written O.name O.faults out.old pending.old)
        result (seen F.File L.text source.new) (on_way O.written O.name O.faults out.new pending.new) }
    ensures write { WriteCaused result (O.faults out.old) (O.faults out.new) }
    ensures keeps_out { KeepsSink O.Sink out.old out.new }
{
    match source.lanes.next() {
        LaneNext::Item(i) => match put_item(source, i, buffer, pending, out) {
            Ok(()) => {
                use_item(source, i);
                match make_source_ready(source) {
                    Ok(key) => Ok(Taken::Item(key)),
                    Err(Failed) => Err(IoFault::Read),
                }
            }
            Err(Failed) => Err(IoFault::Write),
        },
        LaneNext::Cut(i) => {
            let lanes = source.lanes.all();
            Ok(Taken::Cut(CutPlace {
                cpu: lanes[i].cpu,
                page: lanes[i].cursor.next,
            }))
        }
        LaneNext::Done => Ok(Taken::Done),
    }
}

/// The same of one of several files.
pub(crate) fn take_from<F: File, L: LineFormat, O: Sink>(
    sources: &mut [Source<'_, F, L>],
    j: usize,
    buffer: &mut [u8],
    pending: &mut Pending,
    out: &mut O,
) -> Result<Taken, IoFault>
    requires inside { j < length sources.old }
    requires prepared { All IsPrepared (map (seen F.File L.text) sources.old) }
    requires room { All (HasRoom (length buffer.old)) (map (seen F.File L.text) sources.old) }
    ensures long { length buffer.new ≡ length buffer.old }
    ensures taken { TakenFrom (map (seen F.File L.text) sources.old) j
        (on_way O.written O.name O.faults out.old pending.old) result (map (seen F.File L.text) sources.new)
        (on_way O.written O.name O.faults out.new pending.new) }
    ensures write { WriteCaused result (O.faults out.old) (O.faults out.new) }
    ensures keeps_out { KeepsSink O.Sink out.old out.new }
{
    take_next(&mut sources[j], buffer, pending, out)
}
