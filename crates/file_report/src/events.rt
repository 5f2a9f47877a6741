// A report of events: the lines of the items, and after them how long woken tasks waited.

ghost use Rattle.std.specs.Option.{option_map};
ghost use Rattle.std.specs.Prelude.{◌≡◌, ◌≤◌, ◌*◌, [], length, true, IfNone, IfSome, OnOk};
ghost use Rattle.trace_outside.specs.Causes.{Rose, raised};
ghost use Rattle.wakeup_lat.specs.Section.{section};
ghost use Rattle.run_endings.specs.Ending.{IfNoMemory, Prints};
ghost use Rattle.run_endings.specs.Ends.{status_of_end};
ghost use Rattle.file_report.specs.Due.{ReadsDue};
ghost use Rattle.run_endings.specs.Progress.{parts_size, progress_at};
ghost use Rattle.file_report.specs.Meaning.{events_report, shown_report};
ghost use Rattle.run_endings.specs.Outside.{sink_seen};
ghost use Rattle.run_endings.specs.Output.{Shows, WritesFor, WritesText};
ghost use Rattle.report_context.specs.Lines.{cpus_line};
ghost use Rattle.file_report.specs.Reported.{IsShown, events_shown};

use crate::report::{Recording, Shown};
use cpu_workers::{SHARED_FROM, Workers};
use report_context::{LINES_ROOM, line_buffer, put_cpus};
use report_print::Context;
use report_rounds::{RoundLanes, report_rounds};
use run_endings::{Resources, Status, is_whole, status_of_end, status_of_pass};
use std::thread::Threads;
use time_merge::{End, IoFault};
use trace_outside::{Failed, File, Gate, Pending, Sink};
use wakeup_lat::{gather, put_wakeups};
use wakeup_pairs::Wakeups;

/// Prints the first line, and after it the lines of the processors' items in the order in which they happened. All memory
/// is taken before; `None`: there was none, and nothing was done.
pub(crate) fn print_lines<R: Threads + Sync, I: File, O: Sink, G: Gate>(
    resources: &Resources<'_, R, G>,
    workers: u32,
    shown: &Shown<'_>,
    file: &mut I,
    out: &mut O,
) -> Option<Result<End, IoFault>>
    requires { IsShown shown.now }
    ensures writes { IfSome result (λ end. WritesFor (λ bytes. events_report (events_shown shown.now bytes))
        (I.bytes file.old) (status_of_end end) (O.written out.old) (O.written out.new)) }
    ensures shows { IfSome result (λ end. Shows (Rose (I.faults file.old) (I.faults file.new)) (status_of_end end)
        (sink_seen O.Sink out.old) (sink_seen O.Sink out.new)) }
    ensures untouched { IfNone result (sink_seen O.Sink out.new ≡ sink_seen O.Sink out.old) }
    ensures kept { IfNone result (I.faults file.new ≡ I.faults file.old) }
    ensures out_later { O.faults out.old ≤ O.faults out.new }
    ensures reads { I.reads file.new ≤ raised (I.reads file.old) (parts_size shown.now.parts.now) }
    ensures due { IfSome (I.bytes file.old) (λ bytes. ReadsDue (events_shown shown.now bytes) 0
        (progress_at (O.written out.old) (I.reads file.old)) (progress_at (O.written out.new) (I.reads file.new))) }
{
    let alloc = resources.alloc;
    let Recording { cpus, layout } = shown.recording;
    let (Ok(lanes), Ok(mut pending)) = (
        RoundLanes::new(alloc, &layout, LINES_ROOM, shown.parts),
        Pending::new(alloc),
    ) else {
        return None;
    };
    match print_cpus(cpus, &mut pending, out) {
        Ok(()) => {}
        Err(Failed) => return Some(Err(IoFault::Write)),
    }
    let workers = Workers {
        rt: resources.rt,
        count: workers,
        shared_from: SHARED_FROM,
        gate: resources.gate,
    };
    Some(report_rounds(&workers, shown.form, file, lanes, pending, out))
}

/// Prints the same, and after it how long woken tasks waited. This is gathered before, in a pass of its own over the file,
/// and all memory is taken before the first line.
///
/// The pass that gathers is not lent the output, so a read that fails in it leaves the output as it was. The lines are printed in
/// a second pass: a read that fails there ends the output after the lines that were printed by then.
pub(crate) fn print_waits<R: Threads + Sync, I: File, O: Sink, G: Gate>(
    resources: &Resources<'_, R, G>,
    workers: u32,
    shown: &Shown<'_>,
    file: &mut I,
    out: &mut O,
) -> Status
    requires { IsShown shown.now }
    ensures prints { Prints (Rose (I.faults file.old) (I.faults file.new))
        (option_map (λ bytes. shown_report true (events_shown shown.now bytes)) (I.bytes file.old)) result
        (sink_seen O.Sink out.old) (sink_seen O.Sink out.new) }
    ensures kept { IfNoMemory result (I.faults file.new ≡ I.faults file.old) }
    ensures reads { I.reads file.new ≤ raised (I.reads file.old) (2 * parts_size shown.now.parts.now) }
{
    let alloc = resources.alloc;
    let context = &shown.form.context;
    let wakeups = match gather(alloc, context, &shown.recording.layout, file, shown.parts) {
        Ok(wakeups) => wakeups,
        Err(fault) => return status_of_pass(fault),
    };
    let (Ok(mut buffer), Ok(mut pending)) = (line_buffer(alloc), Pending::new(alloc)) else {
        return Status::NoMemory;
    };
    let Some(end) = print_lines(resources, workers, shown, file, out) else {
        return Status::NoMemory;
    };
    if !is_whole(end) {
        return status_of_end(end);
    }
    match print_section(context, &wakeups, &mut buffer, &mut pending, out) {
        Ok(()) => status_of_end(end),
        Err(Failed) => Status::WriteFault,
    }
}

// Prints the section of the latencies. Nothing waits after it.
fn print_section<O: Sink>(
    context: &Context,
    wakeups: &Wakeups,
    buffer: &mut [u8],
    pending: &mut Pending,
    out: &mut O,
) -> Result<(), Failed>
    requires long { 65537 ≤ length buffer.old }
    requires empty { pending.old ≡ [] }
    ensures { WritesText (section context.now wakeups.now.pairs) (sink_seen O.Sink out.old) (sink_seen O.Sink out.new) result }
{
    put_wakeups(context, wakeups, buffer, pending, out)?;
    pending.flush(out)
}

/// Prints the first line alone. Nothing waits after it.
pub(crate) fn print_cpus<O: Sink>(
    cpus: u32,
    pending: &mut Pending,
    out: &mut O,
) -> Result<(), Failed>
    requires { pending.old ≡ [] }
    ensures writes { WritesText (cpus_line cpus) (sink_seen O.Sink out.old) (sink_seen O.Sink out.new) result }
    ensures empty { OnOk result (pending.new ≡ []) }
{
    put_cpus(pending, out, cpus)?;
    pending.flush(out)
}
