ghost use Rattle.std.specs.Prelude.{◌≡◌, ◌≤◌, ◌<◌, [], List, ℕ, Option, All, length, map, IfErr, IfNone, IfOk, IsSome, OnOk, sum_by};
ghost use Rattle.trace_outside.specs.Keeping.{KeepsSink};
ghost use Rattle.multi_report.specs.declared.report.FilesFault.TheVariants.{Write};
ghost use Rattle.multi_report.specs.Reports.{AllReadTheirParts, AreSame, IsFilesReport, ReadRose, WriteRose, pieces};
ghost use Rattle.multi_report.specs.Sources.{HasRoom, IsFreshSource, IsPrepared, shown_of, seen, work};
ghost use Rattle.multi_report.specs.Turns.{AreReadied, HasBegun, IsTurned, IsUnderway, state_of};

use crate::printing::put_heads;
use crate::source::Source;
use crate::sources::make_sources_ready;
use crate::taking::{Taken, take_from};
use line_holes::LineFormat;
use subpage::CutPlace;
use thiserror::Error;
use time_merge::IoFault;
use tournament_tree::TournamentTree;
use trace_outside::{Failed, File, Pending, Sink};

/// How a report of several files ends that no fault stops.
#[derive(Clone, Copy, Debug, PartialEq, Eq)]
pub enum FilesEnd {
    /// All items were used up.
    Done,
    /// The items end before this malformed sub-buffer of this file.
    Malformed { source: u32, cut: CutPlace },
}

/// What stops a report of several files.
#[derive(Clone, Copy, Debug, PartialEq, Eq, Error)]
pub enum FilesFault {
    /// A read of this file failed.
    #[error("read of file {file} failed")]
    Read { file: u32 },
    /// A write failed.
    #[error("write failed")]
    Write,
}

/// What fails by itself is a write: a read tells its file.
impl From<Failed> for FilesFault {
    ghost from_gives = { λ failed fault. fault ≡ Write };

    fn from(_failed: Failed) -> FilesFault {
        FilesFault::Write
    }
}

/// Puts the files' first lines and makes all lanes ready.
fn begin<F: File, L: LineFormat, O: Sink>(
    sources: &mut [Source<'_, F, L>],
    nexts: &mut TournamentTree,
    pending: &mut Pending,
    out: &mut O,
) -> Result<(), FilesFault>
    requires few { length sources.old ≤ 8 }
    requires fresh { All IsFreshSource (map (seen F.File L.text) sources.old) }
    requires slots { length nexts.old ≡ length sources.old }
    requires empty { pending.old ≡ [] }
    ensures slots { length nexts.new ≡ length nexts.old }
    ensures same { AreSame (map (seen F.File L.text) sources.old) (map (seen F.File L.text) sources.new) }
    ensures readied { OnOk result
        (AreReadied (map (seen F.File L.text) sources.old) (map (seen F.File L.text) sources.new)) }
    ensures turned { All (λ source. IsSome source.told) (map (seen F.File L.text) sources.old)
        → HasBegun (O.written out.old) (pieces (map shown_of (map (seen F.File L.text) sources.old)))
        (state_of (map (seen F.File L.text) sources.new) nexts.new (O.written out.new) pending.new) result }
    ensures read { IfErr result (λ fault. ReadRose fault (map (seen F.File L.text) sources.old)
        (map (seen F.File L.text) sources.new)) }
    ensures write { IfErr result (λ fault. WriteRose fault (O.faults out.old) (O.faults out.new)) }
    ensures keeps_out { KeepsSink O.Sink out.old out.new }
{
    put_heads(sources, pending, out)?;
    match make_sources_ready(sources, nexts) {
        None => Ok(()),
        Some(j) => {
            pending.flush(out)?;
            Err(FilesFault::Read { file: j as u32 })
        }
    }
}

/// One turn: puts the line of the item that comes next of all files, with which it is used up. `None`: there may be more to
/// come.
fn turn<F: File, L: LineFormat, O: Sink>(
    sources: &mut [Source<'_, F, L>],
    nexts: &mut TournamentTree,
    buffer: &mut [u8],
    pending: &mut Pending,
    out: &mut O,
) -> Result<Option<FilesEnd>, FilesFault>
    requires few { length sources.old ≤ 8 }
    requires prepared { All IsPrepared (map (seen F.File L.text) sources.old) }
    requires room { All (HasRoom (length buffer.old)) (map (seen F.File L.text) sources.old) }
    requires slots { length nexts.old ≡ length sources.old }
    ensures long { length buffer.new ≡ length buffer.old }
    ensures slots { length nexts.new ≡ length nexts.old }
    ensures same { AreSame (map (seen F.File L.text) sources.old) (map (seen F.File L.text) sources.new) }
    ensures readied { IfOk result (λ end. IfNone end
        (AreReadied (map (seen F.File L.text) sources.old) (map (seen F.File L.text) sources.new))) }
    ensures less { IfOk result (λ end. IfNone end (sum_by work (map (seen F.File L.text) sources.new)
        < sum_by work (map (seen F.File L.text) sources.old))) }
    ensures turned { (before : Option (List ℕ)) (whole : List (List ℕ))
        → IsUnderway before whole (state_of (map (seen F.File L.text) sources.old) nexts.old (O.written out.old) pending.old)
        → IsTurned before whole (state_of (map (seen F.File L.text) sources.new) nexts.new (O.written out.new) pending.new) result }
    ensures read { IfErr result (λ fault. ReadRose fault (map (seen F.File L.text) sources.old)
        (map (seen F.File L.text) sources.new)) }
    ensures write { IfErr result (λ fault. WriteRose fault (O.faults out.old) (O.faults out.new)) }
    ensures keeps_out { KeepsSink O.Sink out.old out.new }
{
    let Some(j) = nexts.least() else {
        pending.flush(out)?;
        return Ok(Some(FilesEnd::Done));
    };
    match take_from(sources, j, buffer, pending, out) {
        Ok(Taken::Item(key)) => {
            nexts.set(j, key);
            Ok(None)
        }
        Ok(Taken::Cut(cut)) => {
            let source = j as u32;
            pending.flush(out)?;
            Ok(Some(FilesEnd::Malformed { source, cut }))
        }
        Ok(Taken::Done) => {
            pending.flush(out)?;
            Ok(Some(FilesEnd::Done))
        }
        Err(IoFault::Read) => {
            pending.flush(out)?;
            Err(FilesFault::Read { file: j as u32 })
        }
        Err(IoFault::Write) => Err(FilesFault::Write),
    }
}

/// Writes the report of several files: for each file its name and its number of processors, and then the lines of their
/// items by key, then file, then processor, then position, each with its file's name before it: all items up to the first
/// malformed sub-buffer in that order. `Malformed` tells that sub-buffer, `Done` that there is none.
///
/// The lanes stand before their first items, nothing waits in `pending`, the buffer has room for any line without its
/// file's name, and `nexts` is a tree with a slot for each file, whatever is in it. Files are counted from 0. After `Read`
/// whole lines are written, the first few, after `Write` a prefix of the text. Of each file each sub-buffer is read at most
/// once. It takes no memory.
pub fn report_files<F: File, L: LineFormat, O: Sink>(
    sources: &mut [Source<'_, F, L>],
    nexts: &mut TournamentTree,
    buffer: &mut [u8],
    pending: &mut Pending,
    out: &mut O,
) -> Result<FilesEnd, FilesFault>
    requires few { length sources.old ≤ 8 }
    requires fresh { All IsFreshSource (map (seen F.File L.text) sources.old) }
    requires room { All (HasRoom (length buffer.old)) (map (seen F.File L.text) sources.old) }
    requires slots { length nexts.old ≡ length sources.old }
    requires empty { pending.old ≡ [] }
    ensures report { All (λ source. IsSome source.told) (map (seen F.File L.text) sources.old)
        → IsFilesReport (map shown_of (map (seen F.File L.text) sources.old))
        (O.written out.old) (O.written out.new) result }
    ensures read { IfErr result (λ fault. ReadRose fault (map (seen F.File L.text) sources.old)
        (map (seen F.File L.text) sources.new)) }
    ensures write { IfErr result (λ fault. WriteRose fault (O.faults out.old) (O.faults out.new)) }
    ensures reads { AllReadTheirParts (map (seen F.File L.text) sources.old) (map (seen F.File L.text) sources.new) }
    ensures same { AreSame (map (seen F.File L.text) sources.old) (map (seen F.File L.text) sources.new) }
    ensures keeps_out { KeepsSink O.Sink out.old out.new }
{
    begin(sources, nexts, pending, out)?;
    loop {
        if let Some(end) = turn(sources, nexts, buffer, pending, out)? {
            return Ok(end);
        }
    }
}
