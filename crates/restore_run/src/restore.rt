// A restore: the files are opened, and the new one is made of them.

ghost use Rattle.std.specs.Prelude.{◌≡◌, ◌≤◌, length, suc};
ghost use Rattle.restore_tool.specs.Failing.{place_of};
ghost use Rattle.trace_args.specs.Command.{restore_view};
ghost use Rattle.restore_run.specs.Naming.{IsNameAt, IsNameOf, IsRestoreNamed};
ghost use Rattle.run_endings.specs.Outside.{SinkSeen, beside, folder_seen};
ghost use Rattle.restore_run.specs.Ran.{RestoreRan};
ghost use Rattle.restore_run.specs.Restore.{status_of_restore};

use restore_tool::{Names, RestoreFault, Source, restore_named};
use run_endings::{JobEnd, Status};
use std::alloc::Global;
use trace_args::RestoreWords;
use trace_outside::Folder;

/// Makes the new file, and tells which file the message names.
pub fn restore_files<'a, F: Folder>(
    alloc: Global,
    words: &RestoreWords<'a>,
    folder: &mut F,
) -> JobEnd<'a>
    requires few { length words.now.files.items ≤ 256 }
    ensures ran { (out : SinkSeen) → RestoreRan (restore_view words.now) result.status
        (beside (folder_seen F.Folder folder.old) out) (beside (folder_seen F.Folder folder.new) out) }
    ensures named { IsRestoreNamed (restore_view words.now) result.status
        (folder_seen F.Folder folder.old) (folder_seen F.Folder folder.new) result.file.now }
{
    let names = Names {
        partial: words.input,
        files: words.files.as_slice(),
        output: words.output,
    };
    let restored = restore_named(alloc, &names, folder);
    JobEnd {
        status: status_of_restore(restored),
        file: file_of(words, restored),
    }
}

fn status_of_restore(restored: Result<(), RestoreFault>) -> Status
    ensures { result ≡ status_of_restore restored }
{
    match restored {
        Ok(()) => Status::Done,
        Err(RestoreFault::Refused(fault)) => Status::Refused(fault),
        Err(RestoreFault::Read(_)) => Status::ReadFault,
        Err(RestoreFault::Write) => Status::WriteFault,
        Err(RestoreFault::NoMemory) => Status::NoMemory,
    }
}

// The file that the message names.
fn file_of<'a>(words: &RestoreWords<'a>, restored: Result<(), RestoreFault>) -> &'a str
    ensures { IsNameOf (restore_view words.now) restored result.now }
{
    match restored {
        Err(RestoreFault::Read(source)) => source_name(words, source),
        _ => words.input,
    }
}

// The name of one of the files that are read.
#[tactic(auto, using(crate::proofs::RestoreNames::input_at))]
fn source_name<'a>(words: &RestoreWords<'a>, source: Source) -> &'a str
    ensures { IsNameAt (restore_view words.now) (place_of source) result.now }
{
    match source {
        Source::Partial => words.input,
        Source::File(file) => name_at(words, file as usize),
    }
}

// The data file of this place.
fn name_at<'a>(words: &RestoreWords<'a>, place: usize) -> &'a str
    ensures { IsNameAt (restore_view words.now) (suc place) result.now }
{
    if place < words.files.len() {
        words.files[place]
    } else {
        words.input
    }
}
