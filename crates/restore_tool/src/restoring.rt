// The new file: created, written, and finished only where all of it was written.

ghost use Rattle.std.specs.Prelude.{◌≡◌, ◌≤◌, ◌<◌, ◌++◌, ◌∷◌, [], length, map};
ghost use Rattle.trace_outside.specs.Keeping.{KeepsSink};
ghost use Rattle.dat_header.specs.Allowed.{IsHeader};
ghost use Rattle.dat_header.specs.Written.{header_text};
ghost use Rattle.new_files.specs.Requested.{AskedAll};
ghost use Rattle.new_files.specs.Stored.{KeepsCounts};
ghost use Rattle.restore_tool.specs.Copying.{AllKeep, AllTold, CopiesAll, IsCaused, files_seen, text_of};
ghost use Rattle.restore_tool.specs.Restored.{data_behind};
ghost use Rattle.restore_tool.specs.Restoring.{CreatesOne, Leaves, LeavesUnfinished};

use crate::copying::{DataFault, copy_files};
use crate::placing::place_files;
use dat_header::{Header, header_len, write_header};
use trace_base::Part;
use trace_outside::{Folder, Sink};

// Writes the header with this table and the data files after it.
fn write_whole<D: Folder>(
    header: &Header,
    parts: &[Part],
    files: &mut [D::In],
    buffer: &mut [u8],
    out: &mut D::Out,
) -> Result<(), DataFault>
    requires allowed { IsHeader header.now }
    requires each { length parts.now ≡ header.now.cpus }
    requires few { length files.old ≤ 256 }
    requires room { 0 < length buffer.old }
    ensures copies { AllTold (files_seen D.In.File files.old)
        → CopiesAll (header_text header.now parts.now ++ data_behind header.now.page (length (header_text header.now parts.now)) (map text_of (files_seen D.In.File files.old)))
        (D.Out.written out.old) (D.Out.written out.new) result }
    ensures keep { AllKeep (files_seen D.In.File files.old) (files_seen D.In.File files.new) }
    ensures cause { IsCaused result (files_seen D.In.File files.old) (files_seen D.In.File files.new)
        (D.Out.faults out.old) (D.Out.faults out.new) }
    ensures keeps_out { KeepsSink D.Out.Sink out.old out.new }
{
    let len = write_header(header, parts, out)?;
    copy_files(header.page, len, files, buffer, out)
}

/// Makes a trace file of this name from a header and one data file a processor (trace-cmd-restore(1)).
///
/// `parts` is lent for the table; what it holds does not count. The name may be that of a data file, since the new file takes its
/// place at the end alone. Nothing here takes memory.
///
/// # Errors
/// After `Read` and `Write` every name is as it was, unless finishing the file failed.
pub fn restore<D: Folder>(
    header: &Header,
    files: &mut [D::In],
    parts: &mut [Part],
    buffer: &mut [u8],
    name: &str,
    folder: &mut D,
) -> Result<(), DataFault>
    requires allowed { IsHeader header.now }
    requires cpus { header.now.cpus ≡ length files.old }
    requires each { length parts.old ≡ length files.old }
    requires few { length files.old ≤ 256 }
    requires room { 0 < length buffer.old }
    ensures leaves { Leaves header.now (files_seen D.In.File files.old) name.now
        (D.counts folder.old) (D.counts folder.new) (D.files folder.old) (D.files folder.new) result }
    ensures cause { IsCaused result (files_seen D.In.File files.old) (files_seen D.In.File files.new)
        (D.counts folder.old).writing (D.counts folder.new).writing }
    ensures keep { AllKeep (files_seen D.In.File files.old) (files_seen D.In.File files.new) }
    ensures requested { AskedAll (name.now ∷ []) (D.requested folder.old) (D.requested folder.new) }
    ensures counts { KeepsCounts (D.counts folder.old) (D.counts folder.new) }
    ensures created { CreatesOne (D.counts folder.old).created (D.counts folder.new).created result }
    ensures unfinished { LeavesUnfinished (D.counts folder.old).unfinished (D.counts folder.new).unfinished result }
{
    place_files(header.page, header_len(header), files, parts);
    let mut out = folder.create_file(name)?;
    match write_whole::<D>(header, parts, files, buffer, &mut out) {
        Ok(()) => {
            folder.finish_file(out)?;
            Ok(())
        }
        Err(fault) => {
            folder.drop_file(out);
            Err(fault)
        }
    }
}
