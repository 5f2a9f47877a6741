ghost use Rattle.std.specs.Option.{option_map};
ghost use Rattle.std.specs.Prelude.{◌≡◌, ◌≤◌, ◌-◌, length, map, IfOk};
ghost use Rattle.trace_outside.specs.Causes.{Rose, raised};
ghost use Rattle.dat_header.specs.Allowed.{IsBody};
ghost use Rattle.filter_truth.specs.SelectionView.{use_of};
ghost use Rattle.trace_args.specs.Command.{report_view};
ghost use Rattle.run_words.specs.Usage.{uses_in};
ghost use Rattle.run_endings.specs.Ending.{IfNoMemory, Prints};
ghost use Rattle.file_report.specs.Meaning.{latency_report};
ghost use Rattle.run_endings.specs.Outside.{sink_seen};
ghost use Rattle.file_report.specs.Reported.{IsShown, Reported, at_work, file_task, parts_task, shown_task};
ghost use Rattle.file_report.specs.Report.{recording_of};
ghost use Rattle.report_context.specs.Context as spec;
ghost use Rattle.run_endings.specs.Selection.{chosen, set_or_all};
ghost use Rattle.subpage.specs.Arrangement.{CpusRise};
ghost use Rattle.subpage.specs.WithBytes.{with_bytes};

use crate::calls::print_calls;
use crate::events::{print_cpus, print_lines, print_waits};
use crate::list::print_list;
use dat_header::{Body, Header};
use filter_truth::FilterUse;
use report_context::{ItemLines, context_of};
use run_endings::{Resources, Selection, Status, status_or_memory};
use std::alloc::{AllocError, Global};
use std::mem;
use std::thread::Threads;
use trace_args::ReportWords;
use trace_base::{Layout, Part};
use trace_outside::{CopyFault, Failed, File, Gate, Pending, Sink, copy_rest};

/// A report of one file: what it is asked for, and what the file's header says.
#[derive(Drop)]
pub struct ReportPlan<'a, 'w> {
    pub words: &'a ReportWords<'w>,
    pub header: Header,
}

/// How a file was recorded: on how many processors, and where the fields of its sub-buffers stand.
#[derive(Clone, Copy)]
pub struct Recording {
    pub cpus: u32,
    pub layout: Layout,
}

/// What is shown of a file: the form of its lines, how it was recorded, and the parts that have bytes of the chosen processors,
/// with their numbers.
#[derive(Clone, Copy)]
pub(crate) struct Shown<'a> {
    pub(crate) form: &'a ItemLines,
    pub(crate) recording: Recording,
    pub(crate) parts: &'a [(u32, Part)],
}

/// Prints the report of a file: the events, or the calls or the list that the words ask for; for a latency file the rest of it.
pub fn print_report<R: Threads + Sync, I: File, O: Sink, G: Gate>(
    resources: &Resources<'_, R, G>,
    plan: ReportPlan<'_, '_>,
    filters: Vec<FilterUse>,
    file: &mut I,
    out: &mut O,
) -> Status
    requires filters { uses_in (report_view plan.words.now).filters ≡ map use_of filters.items }
    requires inside { plan.header.end ≤ I.size file.old }
    requires parts { IsBody plan.header.cpus plan.header.body }
    requires few { plan.header.cpus ≤ 1024 }
    ensures { Reported (file_task (report_view plan.entry.words.now) plan.entry.header (I.size file.old)) (I.bytes file.old) result
        (at_work I.File O.Sink file.old out.old) (at_work I.File O.Sink file.new out.new) }
{
    let ReportPlan { words, header } = plan;
    let alloc = resources.alloc;
    match words.list {
        Some(list) => print_list(alloc, list, header, out),
        None => match &header.body {
            Body::Latency => print_latency(alloc, header.cpus, header.end, file, out),
            Body::Fly(parts) => match chosen_parts(alloc, words, parts.as_slice()) {
                Ok(chosen) => print_parts(
                    resources,
                    words,
                    filters,
                    header,
                    chosen.as_slice(),
                    file,
                    out,
                ),
                Err(AllocError) => Status::NoMemory,
            },
        },
    }
}

// The parts of the chosen processors that have bytes.
fn chosen_parts(
    alloc: Global,
    words: &ReportWords<'_>,
    parts: &[Part],
) -> Result<Vec<(u32, Part)>, AllocError>
    requires few { length parts.now ≤ 1024 }
    ensures shown { IfOk result (λ shown. shown.items ≡ with_bytes (chosen (set_or_all (report_view words.now).cpus) parts.now)) }
    ensures few { IfOk result (λ shown. length shown.items ≤ 1024) }
{
    Selection::set_or_all(&words.cpus).chosen_with_bytes(alloc, parts)
}

// Prints the events of these parts, or in their place the calls among them.
fn print_parts<R: Threads + Sync, I: File, O: Sink, G: Gate>(
    resources: &Resources<'_, R, G>,
    words: &ReportWords<'_>,
    filters: Vec<FilterUse>,
    header: Header,
    parts: &[(u32, Part)],
    file: &mut I,
    out: &mut O,
) -> Status
    requires filters { uses_in (report_view words.now).filters ≡ map use_of filters.items }
    requires few { length parts.now ≤ 1024 }
    requires rise { CpusRise parts.now }
    ensures { Reported (parts_task words.now.calls words.now.wakeups (spec.context_of (report_view words.now) header) parts.now (recording_of header))
        (I.bytes file.old) result (at_work I.File O.Sink file.old out.old) (at_work I.File O.Sink file.new out.new) }
{
    let recording = Recording {
        cpus: header.cpus,
        layout: header.layout,
    };
    let Ok(context) = context_of(resources.alloc, words, filters, header) else {
        return Status::NoMemory;
    };
    let form = ItemLines { context };
    let shown = Shown {
        form: &form,
        recording,
        parts,
    };
    let status = print_shown(resources, words, &shown, file, out);
    // It lives until the program ends, which gives all memory back at once.
    mem::forget(form);
    status
}

// Prints what is shown: the calls, or the lines of the items, and after these the latencies, as the words ask.
fn print_shown<R: Threads + Sync, I: File, O: Sink, G: Gate>(
    resources: &Resources<'_, R, G>,
    words: &ReportWords<'_>,
    shown: &Shown<'_>,
    file: &mut I,
    out: &mut O,
) -> Status
    requires shown { IsShown shown.now }
    ensures { Reported (shown_task (report_view words.now) shown.now) (I.bytes file.old) result
        (at_work I.File O.Sink file.old out.old) (at_work I.File O.Sink file.new out.new) }
{
    let calls = words.calls;
    let wakeups = words.wakeups;
    if calls {
        return print_calls(resources.alloc, shown, file, out);
    }
    if wakeups {
        return print_waits(resources, words.workers, shown, file, out);
    }
    status_or_memory(print_lines(resources, words.workers, shown, file, out))
}

// Prints the rest of a latency file.
fn print_latency<I: File, O: Sink>(
    alloc: Global,
    cpus: u32,
    end: u64,
    file: &mut I,
    out: &mut O,
) -> Status
    requires { end ≤ I.size file.old }
    ensures prints { Prints (Rose (I.faults file.old) (I.faults file.new))
        (option_map (latency_report cpus end) (I.bytes file.old)) result
        (sink_seen O.Sink out.old) (sink_seen O.Sink out.new) }
    ensures kept { IfNoMemory result (I.faults file.new ≡ I.faults file.old) }
    ensures reads { I.reads file.new ≤ raised (I.reads file.old) (I.size file.old - end) }
{
    let (Ok(mut buffer), Ok(mut pending)) = (copy_buffer(alloc), Pending::new(alloc)) else {
        return Status::NoMemory;
    };
    match print_cpus(cpus, &mut pending, out) {
        Ok(()) => {}
        Err(Failed) => return Status::WriteFault,
    }
    match copy_rest(file, end, &mut buffer, out) {
        Ok(()) => Status::Done,
        Err(CopyFault::Read) => Status::ReadFault,
        Err(CopyFault::Write) => Status::WriteFault,
    }
}

fn copy_buffer(alloc: Global) -> Result<Vec<u8>, AllocError>
    ensures { IfOk result (λ buffer. length buffer.items ≡ 65536) }
{
    vec![in alloc; 0; Pending::ROOM]
}
