// A report of several files: all are opened, gone through together, and closed.

ghost use Rattle.std.specs.Prelude.{◌≡◌, ◌≤◌, ◌<◌, Ok, [], All, Contains, length, map, vec_capacity};
ghost use Rattle.multi_report.specs.Sources.{IsFreshSource};
ghost use Rattle.trace_args.specs.Command.{report_view};
ghost use Rattle.several_report.specs.Inputs.{names_in};
ghost use Rattle.several_report.specs.Naming.{IsNameIn, IsUnreadNamed};
ghost use Rattle.run_endings.specs.Outside.{FolderSeen, beside, outside_seen, sink_seen, folder_seen};
ghost use Rattle.several_report.specs.Ran.{FilesRan};
ghost use Rattle.several_report.specs.Reported as spec;
ghost use Rattle.several_report.specs.OpenInput.{file_in, source_seen};
ghost use Rattle.several_report.specs.Opened.{AreOpened};
ghost use Rattle.several_report.specs.Reported.{IsNameOfEnd, FilesReported};

use crate::sources::{close_sources, input_at, open_sources};
use multi_report::{FilesEnd, FilesFault, Source, report_files};
use report_context::{ItemLines, line_buffer};
use run_endings::{JobEnd, Status};
use std::alloc::Global;
use tournament_tree::TournamentTree;
use trace_args::ReportWords;
use trace_outside::{File, Folder, Pending, Sink};

/// Prints the report of several files, each line with its file's name, and tells which file the message names. All files are
/// closed at its end.
pub fn print_files<'a, F: Folder, O: Sink>(
    alloc: Global,
    words: &ReportWords<'a>,
    folder: &mut F,
    out: &mut O,
) -> JobEnd<'a>
    requires few { length words.now.more.items ≤ 7 }
    ensures ran { FilesRan (report_view words.now) result.status
        (outside_seen F.Folder O.Sink folder.old out.old) (outside_seen F.Folder O.Sink folder.new out.new) }
    ensures named { IsNameIn (report_view words.now) (F.files folder.old) result.status result.file.now }
    ensures unread { IsUnreadNamed (report_view words.now) result.status (folder_seen F.Folder folder.old) (folder_seen F.Folder folder.new) result.file.now }
{
    let Ok(mut sources) = Vec::with_capacity(alloc, words.more.len() + 1) else {
        return JobEnd {
            status: Status::NoMemory,
            file: words.input,
        };
    };
    let end = print_opened(alloc, words, &mut sources, folder, out);
    close_sources(sources, folder);
    end
}

// Opens the files and prints their report. What is open at its end stays open.
fn print_opened<'a, F: Folder, O: Sink>(
    alloc: Global,
    words: &ReportWords<'a>,
    sources: &mut Vec<Source<'a, F::In, ItemLines>>,
    folder: &mut F,
    out: &mut O,
) -> JobEnd<'a>
    requires few { length words.now.more.items ≤ 7 }
    requires none { sources.old.items ≡ [] }
    requires room { length words.now.more.items < vec_capacity sources.old }
    ensures { FilesReported (report_view words.now) (map file_in (map (source_seen F.In.File) sources.new.items)) result.status result.file.now
        (outside_seen F.Folder O.Sink folder.old out.old) (outside_seen F.Folder O.Sink folder.new out.new) }
{
    match open_sources(alloc, words, sources, folder) {
        Ok(()) => print_sources(alloc, words, sources.as_mut_slice(), out),
        Err(end) => end,
    }
}

// Prints the report of files that are open. All memory is taken before its first byte.
fn print_sources<'a, I: File, O: Sink>(
    alloc: Global,
    words: &ReportWords<'a>,
    sources: &mut [Source<'a, I, ItemLines>],
    out: &mut O,
) -> JobEnd<'a>
    requires few { length sources.old ≤ 8 }
    requires fresh { All IsFreshSource (map (source_seen I.File) sources.old) }
    ensures { (before now : FolderSeen) → AreOpened (report_view words.now) (names_in (report_view words.now)) (map (source_seen I.File) sources.old) before now
        → FilesReported (report_view words.now) (map file_in (map (source_seen I.File) sources.new)) result.status result.file.now
        (beside before (sink_seen O.Sink out.old)) (beside now (sink_seen O.Sink out.new)) }
{
    let (Ok(mut nexts), Ok(mut buffer), Ok(mut pending)) = (
        TournamentTree::new(alloc, sources.len() as u32),
        line_buffer(alloc),
        Pending::new(alloc),
    ) else {
        return JobEnd {
            status: Status::NoMemory,
            file: words.input,
        };
    };
    let end = report_files(sources, &mut nexts, &mut buffer, &mut pending, out);
    job_end_of(words, end)
}

// The answer for an end of the report, and the file that it is of.
fn job_end_of<'a>(words: &ReportWords<'a>, end: Result<FilesEnd, FilesFault>) -> JobEnd<'a>
    ensures status { result.status ≡ spec.status_of_files end }
    ensures named { Contains (names_in (report_view words.now)) result.file.now }
    ensures source { IsNameOfEnd (report_view words.now) end result.file.now }
{
    match end {
        Ok(FilesEnd::Done) => JobEnd {
            status: Status::Done,
            file: words.input,
        },
        Ok(FilesEnd::Malformed { source, cut }) => JobEnd {
            status: Status::Malformed(cut),
            file: input_at(words, source as usize),
        },
        Err(FilesFault::Read { file }) => JobEnd {
            status: Status::ReadFault,
            file: input_at(words, file as usize),
        },
        Err(FilesFault::Write) => JobEnd {
            status: Status::WriteFault,
            file: words.input,
        },
    }
}
