// Data files copied to a sink, one after another, each from the next multiple of the page on.

ghost use Rattle.std.specs.Prelude.{◌≡◌, ◌≤◌, ◌<◌, ◌%◌, ◌^◌, ℕ, length, map, IsErrOf};
ghost use Rattle.trace_outside.specs.Causes.{Rose};
ghost use Rattle.trace_outside.specs.Keeping.{KeepsSink};
ghost use Rattle.trace_outside.specs.Seen.{file_seen};
ghost use Rattle.new_files.specs.Padding.{IsPage, zeros};
ghost use Rattle.restore_tool.specs.Copying.{AllKeep, AllTold, CopiesAll, IsCaused, IsOneCopied, Keeps, files_seen, text_of};
ghost use Rattle.restore_tool.specs.Restored.{data_behind};
ghost use Rattle.restore_tool.specs.declared.copying.DataFault.TheVariants.{Write};

use new_files::{gap, write_zeros};
use thiserror::Error;
use trace_outside::{CopyFault, Failed, File, Sink, copy_rest};

/// What fails of the work on files that are open.
#[derive(Clone, Copy, Debug, PartialEq, Eq, Error)]
pub enum DataFault {
    /// A read of this data file failed, counted from 0.
    #[error("read of data file {file} failed")]
    Read { file: u32 },
    /// The new file could not be created, written or finished.
    #[error("write failed")]
    Write,
}

/// What fails by itself is a call on the new file: a read tells its file.
impl From<Failed> for DataFault {
    ghost from_gives = { λ failed fault. fault ≡ Write };

    fn from(_failed: Failed) -> DataFault {
        DataFault::Write
    }
}

/// Writes zero bytes and the whole of a data file after them.
fn copy_file<F: File, O: Sink>(
    missing: u32,
    file: &mut F,
    buffer: &mut [u8],
    out: &mut O,
) -> Result<(), CopyFault>
    requires room { 0 < length buffer.old }
    ensures gained { IsOneCopied (zeros missing) (file_seen F.File file.old) (O.written out.old) (O.written out.new) result }
    ensures keeps { Keeps (file_seen F.File file.old) (file_seen F.File file.new) }
    ensures read { IsErrOf result CopyFault.Read → Rose (F.faults file.old) (F.faults file.new) }
    ensures write { IsErrOf result CopyFault.Write → Rose (O.faults out.old) (O.faults out.new) }
    ensures keeps_out { KeepsSink O.Sink out.old out.new }
{
    match write_zeros(missing, out) {
        Ok(()) => copy_rest(file, 0, buffer, out),
        Err(Failed) => Err(CopyFault::Write),
    }
}

/// Copies the data files to a sink that has so many bytes of the new file, told modulo 2^64: zero bytes up to the next multiple
/// of the page and then the file's bytes, one file after another.
pub(crate) fn copy_files<F: File, O: Sink>(
    page: u32,
    place: u64,
    files: &mut [F],
    buffer: &mut [u8],
    out: &mut O,
) -> Result<(), DataFault>
    requires page { IsPage page }
    requires few { length files.old ≤ 256 }
    requires room { 0 < length buffer.old }
    ensures copies { (whole : ℕ) → place ≡ whole % 2 ^ 64 → AllTold (files_seen F.File files.old)
        → CopiesAll (data_behind page whole (map text_of (files_seen F.File files.old))) (O.written out.old) (O.written out.new) result }
    ensures keep { AllKeep (files_seen F.File files.old) (files_seen F.File files.new) }
    ensures cause { IsCaused result (files_seen F.File files.old) (files_seen F.File files.new)
        (O.faults out.old) (O.faults out.new) }
    ensures keeps_out { KeepsSink O.Sink out.old out.new }
{
    let mut place = place;
    for i in 0..files.len() {
        let missing = gap(page, place);
        match copy_file(missing, &mut files[i], buffer, out) {
            Ok(()) => {}
            Err(CopyFault::Read) => return Err(DataFault::Read { file: i as u32 }),
            Err(CopyFault::Write) => return Err(DataFault::Write),
        }
        place = place
            .wrapping_add(u64::from(missing))
            .wrapping_add(files[i].len());
    }
    Ok(())
}
