// One job. Where it is a command on a file, that is opened, its header read, the work done, and the file closed. This
// stands here once for all such commands.

ghost use Rattle.std.specs.Option.{option_map};
ghost use Rattle.std.specs.Prelude.{Ok, ◌≡◌, ◌≤◌, map, IfOk, IfSome};
ghost use Rattle.trace_outside.specs.Causes.{Rose, raised};
ghost use Rattle.dat_header.specs.Allowed.{IsHeader};
ghost use Rattle.dat_header.specs.Header.{ReadsHeader};
ghost use Rattle.run_words.specs.Allowed.{IsAllowed, IsAllowedJob};
ghost use Rattle.file_report.specs.Due.{ReadsDue};
ghost use Rattle.several_report.specs.Inputs.{input_found};
ghost use Rattle.trace_run.specs.Input.{ReadsNoMore, events_of, share, shows_calls};
ghost use Rattle.run_endings.specs.Progress.{BehindHeader, progress_at};
ghost use Rattle.run_words.specs.Job.{OnFile, command_view, job_view};
ghost use Rattle.trace_run.specs.Meaning as spec;
ghost use Rattle.trace_run.specs.Meaning.{header_means};
ghost use Rattle.trace_run.specs.Naming.{IsNamed};
ghost use Rattle.run_endings.specs.Outside.{folder_seen, outside_seen, sink_seen};
ghost use Rattle.trace_run.specs.Ran.{Ran};
ghost use Rattle.run_words.specs.Usage.{command_filters, job_filters, uses_in};
ghost use Rattle.trace_run.specs.Work.{Worked, bytes_mean};
ghost use Rattle.filter_truth.specs.SelectionView.{use_of};
ghost use Rattle.run_endings.specs.Output.{GathersFirst};
ghost use Rattle.run_endings.specs.Ending.{IfNoMemory};

use crate::dump::print_dump;
use crate::selftest::print_self_test;
use crate::topic::print_topic;
use dat_header::{Header, OpenFault, read_header};
use file_report::{ReportPlan, print_report};
use filter_truth::FilterUse;
use restore_run::restore_files;
use run_endings::{JobEnd, Resources, Status};
use run_words::{FileCommand, Job};
use several_report::print_files;
use split_run::cut_file;
use std::thread::Threads;
use trace_outside::{Failed, Folder, Gate, Sink};

// The name of a command's input.
fn input_of<'a>(command: &FileCommand<'a>) -> &'a str
    ensures { result.now ≡ spec.input_of (command_view command.now) }
{
    match command {
        FileCommand::Report(words) => words.input,
        FileCommand::Dump(words) => words.input,
        FileCommand::Split(words) => words.input,
    }
}

/// Does one job on the files of the folder. The filters are those of its words.
pub(crate) fn run_job<'a, R: Threads + Sync, F: Folder, O: Sink, G: Gate>(
    resources: &Resources<'_, R, G>,
    job: &Job<'a>,
    filters: Vec<FilterUse>,
    folder: &mut F,
    out: &mut O,
) -> JobEnd<'a>
    requires allowed { IsAllowedJob (job_view job.now) }
    requires filters { uses_in (job_filters (job_view job.now)) ≡ map use_of filters.items }
    ensures ran { Ran (Ok (job_view job.now)) result.status
        (outside_seen F.Folder O.Sink folder.old out.old) (outside_seen F.Folder O.Sink folder.new out.new) }
    ensures named { IsNamed (job_view job.now) result.status (folder_seen F.Folder folder.old) (folder_seen F.Folder folder.new) result.file.now }
{
    match job {
        Job::OnFile(command) => {
            let status = run_command(resources, command, filters, folder, out);
            let file = input_of(command);
            JobEnd { status, file }
        }
        Job::OnFiles(words) => print_files(resources.alloc, words, folder, out),
        Job::SelfTest(words) => {
            let status = print_self_test(resources, words, out);
            JobEnd { status, file: "" }
        }
        Job::Restore(words) => restore_files(resources.alloc, words, folder),
        Job::About(topic) => {
            let status = print_topic(*topic, out);
            JobEnd { status, file: "" }
        }
    }
}

// Does one command on a file of the folder.
fn run_command<R: Threads + Sync, F: Folder, O: Sink, G: Gate>(
    resources: &Resources<'_, R, G>,
    command: &FileCommand<'_>,
    filters: Vec<FilterUse>,
    folder: &mut F,
    out: &mut O,
) -> Status
    requires allowed { IsAllowed (command_view command.now) }
    requires filters { uses_in (command_filters (command_view command.now)) ≡ map use_of filters.items }
    ensures { Ran (Ok (OnFile (command_view command.now))) result
        (outside_seen F.Folder O.Sink folder.old out.old) (outside_seen F.Folder O.Sink folder.new out.new) }
{
    match folder.open_file(input_of(command)) {
        Err(Failed) => Status::ReadFault,
        Ok(mut file) => {
            let status = run_on_file(resources, command, filters, &mut file, folder, out);
            folder.close_file(file);
            status
        }
    }
}

// Does a command on a file that was just opened. Its header is read once.
fn run_on_file<R: Threads + Sync, F: Folder, O: Sink, G: Gate>(
    resources: &Resources<'_, R, G>,
    command: &FileCommand<'_>,
    filters: Vec<FilterUse>,
    file: &mut F::In,
    folder: &mut F,
    out: &mut O,
) -> Status
    requires allowed { IsAllowed (command_view command.now) }
    requires filters { uses_in (command_filters (command_view command.now)) ≡ map use_of filters.items }
    ensures worked { Worked (command_view command.now) (Rose (F.In.faults file.old) (F.In.faults file.new))
        (option_map (bytes_mean (command_view command.now)) (F.In.bytes file.old)) result
        (outside_seen F.Folder O.Sink folder.old out.old) (outside_seen F.Folder O.Sink folder.new out.new) }
    ensures kept { IfNoMemory result (F.In.faults file.new ≡ F.In.faults file.old) }
    ensures gathers { IfOk (input_found (spec.input_of (command_view command.now)) (F.In.bytes file.old))
        (λ input. GathersFirst (shows_calls (command_view command.now) input.header) result (sink_seen O.Sink out.old) (sink_seen O.Sink out.new)) }
    ensures reads { BehindHeader result (IfOk (input_found (spec.input_of (command_view command.now)) (F.In.bytes file.old))
        (λ input. ReadsNoMore (command_view command.now) input
        (progress_at (O.written out.old) (F.In.reads file.old)) (progress_at (O.written out.new) (F.In.reads file.new)))) }
{
    match read_header(resources.alloc, file) {
        Ok(header) => run_on_header(resources, command, filters, header, file, folder, out),
        Err(OpenFault::Read) => Status::ReadFault,
        Err(OpenFault::Memory) => Status::NoMemory,
        Err(fault) => Status::Refused(fault),
    }
}

// Does a command on a file that has this header. A command that only prints is a function over the file and the output,
// and one that makes files a function over the file and the folder.
fn run_on_header<R: Threads + Sync, F: Folder, O: Sink, G: Gate>(
    resources: &Resources<'_, R, G>,
    command: &FileCommand<'_>,
    filters: Vec<FilterUse>,
    header: Header,
    file: &mut F::In,
    folder: &mut F,
    out: &mut O,
) -> Status
    requires words { IsAllowed (command_view command.now) }
    requires filters { uses_in (command_filters (command_view command.now)) ≡ map use_of filters.items }
    requires allowed { IsHeader header }
    requires read { ReadsHeader (F.In.bytes file.old) (Ok header) }
    requires inside { header.end ≤ F.In.size file.old }
    ensures worked { Worked (command_view command.now) (Rose (F.In.faults file.old) (F.In.faults file.new))
        (option_map (header_means (command_view command.now) header) (F.In.bytes file.old)) result
        (outside_seen F.Folder O.Sink folder.old out.old) (outside_seen F.Folder O.Sink folder.new out.new) }
    ensures kept { IfNoMemory result (F.In.faults file.new ≡ F.In.faults file.old) }
    ensures gathers { GathersFirst (shows_calls (command_view command.now) header) result (sink_seen O.Sink out.old) (sink_seen O.Sink out.new) }
    ensures reads { F.In.reads file.new ≤ raised (F.In.reads file.old) (share (command_view command.now) header (F.In.size file.old)) }
    ensures due { IfSome (F.In.bytes file.old) (λ bytes. IfSome (events_of (command_view command.now) header bytes)
        (λ events. ReadsDue events 0 (progress_at (O.written out.old) (F.In.reads file.old)) (progress_at (O.written out.new) (F.In.reads file.new)))) }
{
    match command {
        FileCommand::Report(words) => {
            let plan = ReportPlan { words, header };
            print_report(resources, plan, filters, file, out)
        }
        FileCommand::Dump(words) => print_dump(resources.alloc, words, &header, out),
        FileCommand::Split(words) => cut_file(resources.alloc, words, header, file, folder),
    }
}
