// A restoring by names: files are opened in order before anything is created, stay open, and are closed on every way out.

ghost use Rattle.std.specs.Prelude.{◌≡◌, ◌≢◌, ◌+◌, ◌≤◌, ◌⊎◌, [], IfOk, IfSome, length, vec_capacity};
ghost use Rattle.trace_outside.specs.Causes.{Rose, raised};
ghost use Rattle.trace_outside.specs.Memory.{KeepsFaults};
ghost use Rattle.trace_outside.specs.Open.{AreThere, IsUnread};
ghost use Rattle.dat_header.specs.Allowed.{IsHeader};
ghost use Rattle.dat_header.specs.Partial.{partial_of};
ghost use Rattle.restore_tool.specs.Copying.{files_seen};
ghost use Rattle.restore_tool.specs.Answers.{Causes, ClosesAll, Created, IfMade, IfNoMemory, KeepsFiles, LeavesOpen, fault_of_data, fault_of_open};
ghost use Rattle.restore_tool.specs.Asked.{AsksFor, asked_behind, asked_of};
ghost use Rattle.restore_tool.specs.Failing.{IfRead, IsFaulty, IsUnreadBehind, inputs_of, place_of};
ghost use Rattle.restore_tool.specs.Meaning.{IsDone, missing, names_view, task_of, texts_of, with_header, with_texts};
ghost use Rattle.restore_tool.specs.Reads.{DataWithin, ReadsOnce, reads_of};

use crate::copying::DataFault;
use crate::frame::{close_files, open_files};
use crate::processors::{blank_parts, for_processors};
use crate::restoring::restore;
use dat_header::{Header, OpenFault, read_partial};
use std::alloc::Global;
use std::fmt;
use thiserror::Error;
use trace_outside::{Failed, Folder};

/// How many bytes of a data file are copied at once.
const BUFFER: usize = 65_536;

/// The names that a restoring is given.
#[derive(Clone, Copy)]
pub struct Names<'a> {
    /// The partial file, which has the descriptions.
    pub partial: &'a str,
    /// The data files, in order of processors.
    pub files: &'a [&'a str],
    /// The new file.
    pub output: &'a str,
}

/// One of the files that are read.
#[derive(Clone, Copy, Debug, PartialEq, Eq)]
pub enum Source {
    /// The partial file.
    Partial,
    /// The data file of this place, counted from 0.
    File(u32),
}

impl fmt::Display for Source {
    fn fmt<W: fmt::Write>(&self, f: &mut fmt::Formatter<W>) -> fmt::Result {
        match self {
            Source::Partial => f.write_str("the partial file"),
            Source::File(file) => write!(f, "data file {file}"),
        }
    }
}

/// Why no file was restored.
#[derive(Clone, Copy, Debug, PartialEq, Eq, Error)]
pub enum RestoreFault {
    /// The partial file has no header, and what is wrong with it; never `Read` or `Memory`.
    #[error("bad partial file: {0}")]
    Refused(OpenFault),
    /// This file could not be opened, or a read of it failed.
    #[error("read of {0} failed")]
    Read(Source),
    /// The new file could not be created, written or finished.
    #[error("write failed")]
    Write,
    /// There was no memory, and nothing was created.
    #[error("out of memory")]
    NoMemory,
}

impl From<DataFault> for RestoreFault {
    ghost from_gives = { λ failed fault. fault ≡ fault_of_data failed };

    fn from(fault: DataFault) -> RestoreFault {
        match fault {
            DataFault::Read { file } => RestoreFault::Read(Source::File(file)),
            DataFault::Write => RestoreFault::Write,
        }
    }
}

/// What comes of a partial file whose header could not be read.
impl From<OpenFault> for RestoreFault {
    ghost from_gives = { λ opened fault. fault ≡ fault_of_open opened };

    fn from(fault: OpenFault) -> RestoreFault {
        match fault {
            OpenFault::Read => RestoreFault::Read(Source::Partial),
            OpenFault::Memory => RestoreFault::NoMemory,
            fault => RestoreFault::Refused(fault),
        }
    }
}

// Opens the data files one after another and makes the new file of them. The files stay open.
fn restore_data<D: Folder>(
    alloc: Global,
    names: &Names<'_>,
    header: Header,
    files: &mut Vec<D::In>,
    folder: &mut D,
) -> Result<(), RestoreFault>
    requires few { length names.now.files.now ≤ 256 }
    requires allowed { IsHeader header }
    requires none { files.old.items ≡ [] }
    requires room { length names.now.files.now ≤ vec_capacity files.old }
    ensures done { IfSome (D.files folder.old) (λ named. IsDone (with_texts header names.now.output.now (texts_of named (names_view names.now).files)) names.now.output.now
        (D.counts folder.old) (D.counts folder.new) named (D.files folder.new) result) }
    ensures causes { Causes result (IfRead result (IsFaulty (Rose (D.counts folder.old).reading (D.counts folder.new).reading) (files_seen D.In.File files.new.items)))
        (Rose (D.counts folder.old).writing (D.counts folder.new).writing) }
    ensures unread { IfRead result (IsUnreadBehind (D.files folder.old) (names_view names.now).files (D.counts folder.old).misses (D.counts folder.new).misses) }
    ensures kept { KeepsFiles result (D.files folder.old) (D.files folder.new) }
    ensures created { Created result (D.counts folder.old).created (D.counts folder.new).created }
    ensures misses { IfSome (D.files folder.old) (λ named. AreThere named (names_view names.now).files → (D.counts folder.new).misses ≡ (D.counts folder.old).misses) }
    ensures requested { AsksFor (asked_behind (names_view names.now)) (D.requested folder.old) (D.requested folder.new) result }
    ensures memory { IfNoMemory result (KeepsFaults (D.counts folder.old) (D.counts folder.new) × (files.new.items ≡ [])) }
    ensures reads { IfSome (D.files folder.old) (λ named. DataWithin named (names_view names.now) (λ size. reads_of (files_seen D.In.File files.new.items) ≤ size)) }
    ensures inside { length files.new.items ≤ length names.now.files.now }
    ensures counts { LeavesOpen (length files.new.items) (D.counts folder.old) (D.counts folder.new) }
{
    let cpus = names.files.len() as u32;
    let (Ok(header), Ok(mut parts), Ok(mut buffer)) = (
        for_processors(alloc, header, cpus),
        blank_parts(alloc, cpus),
        vec![in alloc; 0u8; BUFFER],
    ) else {
        return Err(RestoreFault::NoMemory);
    };
    match open_files(names.files, files, folder) {
        Ok(()) => {}
        Err(Failed) => return Err(RestoreFault::Read(Source::File(files.len() as u32))),
    }
    restore(
        &header,
        files.as_mut_slice(),
        parts.as_mut_slice(),
        buffer.as_mut_slice(),
        names.output,
        folder,
    )?;
    Ok(())
}

// Makes the new file under this header, and closes the data files.
fn restore_under<D: Folder>(
    alloc: Global,
    names: &Names<'_>,
    header: Header,
    folder: &mut D,
) -> Result<(), RestoreFault>
    requires few { length names.now.files.now ≤ 256 }
    requires allowed { IsHeader header }
    ensures done { IfSome (D.files folder.old) (λ named. IsDone (with_texts header names.now.output.now (texts_of named (names_view names.now).files)) names.now.output.now
        (D.counts folder.old) (D.counts folder.new) named (D.files folder.new) result) }
    ensures causes { Causes result (Rose (D.counts folder.old).reading (D.counts folder.new).reading) (Rose (D.counts folder.old).writing (D.counts folder.new).writing) }
    ensures unread { IfRead result (IsUnreadBehind (D.files folder.old) (names_view names.now).files (D.counts folder.old).misses (D.counts folder.new).misses) }
    ensures kept { KeepsFiles result (D.files folder.old) (D.files folder.new) }
    ensures created { Created result (D.counts folder.old).created (D.counts folder.new).created }
    ensures misses { IfSome (D.files folder.old) (λ named. AreThere named (names_view names.now).files → (D.counts folder.new).misses ≡ (D.counts folder.old).misses) }
    ensures requested { AsksFor (asked_behind (names_view names.now)) (D.requested folder.old) (D.requested folder.new) result }
    ensures memory { IfNoMemory result (KeepsFaults (D.counts folder.old) (D.counts folder.new)) }
    ensures reads { IfSome (D.files folder.old) (λ named. DataWithin named (names_view names.now) (λ size. (D.counts folder.new).bytes ≤ raised (D.counts folder.old).bytes size)) }
    ensures counts { ClosesAll (length names.now.files.now) (D.counts folder.old) (D.counts folder.new) }
{
    let Ok(mut files) = Vec::with_capacity(alloc, names.files.len()) else {
        return Err(RestoreFault::NoMemory);
    };
    let restored = restore_data::<D>(alloc, names, header, &mut files, folder);
    close_files(files, folder);
    restored
}

// Reads the header of the partial file, which was just opened, and makes the new file under it.
fn restore_from<D: Folder>(
    alloc: Global,
    names: &Names<'_>,
    partial: &mut D::In,
    folder: &mut D,
) -> Result<(), RestoreFault>
    requires few { length names.now.files.now ≤ 256 }
    ensures done { IfSome (D.files folder.old) (λ named. IfSome (D.In.bytes partial.old) (λ bytes. IsDone (with_header named (names_view names.now) (partial_of bytes)) names.now.output.now
        (D.counts folder.old) (D.counts folder.new) named (D.files folder.new) result)) }
    ensures causes { Causes result (Rose (D.counts folder.old).reading (D.counts folder.new).reading ⊎ Rose (D.In.faults partial.old) (D.In.faults partial.new))
        (Rose (D.counts folder.old).writing (D.counts folder.new).writing) }
    ensures unread { IfRead result (IsUnreadBehind (D.files folder.old) (names_view names.now).files (D.counts folder.old).misses (D.counts folder.new).misses) }
    ensures later { D.In.faults partial.old ≤ D.In.faults partial.new }
    ensures kept { KeepsFiles result (D.files folder.old) (D.files folder.new) }
    ensures created { Created result (D.counts folder.old).created (D.counts folder.new).created }
    ensures misses { IfSome (D.files folder.old) (λ named. IfSome (D.In.bytes partial.old) (λ bytes. with_header named (names_view names.now) (partial_of bytes) ≢ missing
        → (D.counts folder.new).misses ≡ (D.counts folder.old).misses)) }
    ensures requested { AsksFor (asked_behind (names_view names.now)) (D.requested folder.old) (D.requested folder.new) result }
    ensures memory { IfNoMemory result (KeepsFaults (D.counts folder.old) (D.counts folder.new) × (D.In.faults partial.new ≡ D.In.faults partial.old)) }
    ensures reads { IfSome (D.files folder.old) (λ named. DataWithin named (names_view names.now) (λ size. (D.counts folder.new).bytes ≤ raised (D.counts folder.old).bytes size)) }
    ensures header_reads { IfMade result (IfSome (D.In.bytes partial.old) (λ bytes. IfOk (partial_of bytes) (λ header. D.In.reads partial.new ≤ raised (D.In.reads partial.old) header.end))) }
    ensures counts { ClosesAll (length names.now.files.now) (D.counts folder.old) (D.counts folder.new) }
{
    let header = read_partial(alloc, partial)?;
    restore_under(alloc, names, header, folder)
}

/// Makes a trace file of a partial file and of the data files of its processors, all told by their names in a folder
/// (trace-cmd-restore(1)).
///
/// The partial file is opened first and then the data files, in order, before anything is created; all stay open until the end,
/// so that the new file may have the name of one of them, and all are closed then. Of the partial file no more is read than its
/// header, and each data file once.
///
/// # Errors
/// The first file that is missing or has no header decides, and is the one that the fault names; where all are there, it names
/// the one that could not be opened or read. After a fault every name is as it was, unless finishing the new file failed.
pub fn restore_named<D: Folder>(
    alloc: Global,
    names: &Names<'_>,
    folder: &mut D,
) -> Result<(), RestoreFault>
    requires few { length names.now.files.now ≤ 256 }
    ensures done { IfSome (D.files folder.old) (λ named. IsDone (task_of named (names_view names.now)) names.now.output.now
        (D.counts folder.old) (D.counts folder.new) named (D.files folder.new) result) }
    ensures causes { Causes result (Rose (D.counts folder.old).reading (D.counts folder.new).reading) (Rose (D.counts folder.old).writing (D.counts folder.new).writing) }
    ensures unread { IfRead result (λ source. IsUnread (D.files folder.old) (inputs_of (names_view names.now)) (D.counts folder.old).misses (D.counts folder.new).misses (place_of source)) }
    ensures kept { KeepsFiles result (D.files folder.old) (D.files folder.new) }
    ensures created { Created result (D.counts folder.old).created (D.counts folder.new).created }
    ensures misses { IfSome (D.files folder.old) (λ named. task_of named (names_view names.now) ≢ missing → (D.counts folder.new).misses ≡ (D.counts folder.old).misses) }
    ensures requested { AsksFor (asked_of (names_view names.now)) (D.requested folder.old) (D.requested folder.new) result }
    ensures memory { IfNoMemory result (KeepsFaults (D.counts folder.old) (D.counts folder.new)) }
    ensures reads { IfMade result (IfSome (D.files folder.old) (λ named. ReadsOnce named (names_view names.now) (D.counts folder.old).bytes (D.counts folder.new).bytes)) }
    ensures counts { ClosesAll (length names.now.files.now + 1) (D.counts folder.old) (D.counts folder.new) }
{
    match folder.open_file(names.partial) {
        Err(Failed) => Err(RestoreFault::Read(Source::Partial)),
        Ok(mut partial) => {
            let restored = restore_from(alloc, names, &mut partial, folder);
            folder.close_file(partial);
            restored
        }
    }
}
