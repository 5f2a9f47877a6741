// The function graph, printed in place of the events.

ghost use Rattle.std.specs.Option.{option_map};
ghost use Rattle.std.specs.Prelude.{◌≡◌, ◌≤◌, [], length};
ghost use Rattle.trace_outside.specs.Causes.{Rose, raised};
ghost use Rattle.trace_outside.specs.Pending.{PutsText, on_way};
ghost use Rattle.trace_outside.specs.Pieces.{text_of};
ghost use Rattle.run_endings.specs.Ending.{IfNoMemory, Prints};
ghost use Rattle.run_endings.specs.Progress.{parts_size};
ghost use Rattle.file_report.specs.Meaning.{calls_report};
ghost use Rattle.run_endings.specs.Outside.{sink_seen};
ghost use Rattle.run_endings.specs.Output.{WritesText};
ghost use Rattle.file_report.specs.Report.{call_pieces};
ghost use Rattle.file_report.specs.Reported.{IsShown, events_shown};

use crate::report::{Recording, Shown};
use call_pairs::Call;
use graph_report::{gather_calls, put_calls};
use report_context::{line_buffer, put_cpus};
use report_print::Context;
use run_endings::{Status, status_of_cut, status_of_pass};
use std::alloc::Global;
use trace_outside::{Failed, File, Pending, Sink};

/// Prints the first line of a report, and after it the calls of the reached items of the parts that are shown. All memory is
/// taken and all calls are gathered before the first byte.
pub(crate) fn print_calls<I: File, O: Sink>(
    alloc: Global,
    shown: &Shown<'_>,
    file: &mut I,
    out: &mut O,
) -> Status
    requires { IsShown shown.now }
    ensures prints { Prints (Rose (I.faults file.old) (I.faults file.new))
        (option_map (λ bytes. calls_report (events_shown shown.now bytes)) (I.bytes file.old)) result
        (sink_seen O.Sink out.old) (sink_seen O.Sink out.new) }
    ensures gathers { result ≡ Status.ReadFault → sink_seen O.Sink out.new ≡ sink_seen O.Sink out.old }
    ensures kept { IfNoMemory result (I.faults file.new ≡ I.faults file.old) }
    ensures reads { I.reads file.new ≤ raised (I.reads file.old) (parts_size shown.now.parts.now) }
{
    let Recording { cpus, layout } = shown.recording;
    let context = &shown.form.context;
    let (Ok(mut buffer), Ok(mut pending)) = (line_buffer(alloc), Pending::new(alloc)) else {
        return Status::NoMemory;
    };
    let calls = match gather_calls(alloc, context, &layout, file, shown.parts) {
        Ok(calls) => calls,
        Err(fault) => return status_of_pass(fault),
    };
    let list = calls.list.as_slice();
    match put_whole(context, cpus, list, &mut buffer, &mut pending, out) {
        Ok(()) => status_of_cut(calls.cut),
        Err(Failed) => Status::WriteFault,
    }
}

// Puts the first line and those of the calls, and writes all of it.
fn put_whole<O: Sink>(
    context: &Context,
    cpus: u32,
    calls: &[Call],
    buffer: &mut [u8],
    pending: &mut Pending,
    out: &mut O,
) -> Result<(), Failed>
    requires empty { pending.old ≡ [] }
    requires room { 65537 ≤ length buffer.old }
    ensures { WritesText (text_of (call_pieces cpus context.now calls.now)) (sink_seen O.Sink out.old) (sink_seen O.Sink out.new) result }
{
    put_all(context, cpus, calls, buffer, pending, out)?;
    pending.flush(out)
}

fn put_all<O: Sink>(
    context: &Context,
    cpus: u32,
    calls: &[Call],
    buffer: &mut [u8],
    pending: &mut Pending,
    out: &mut O,
) -> Result<(), Failed>
    requires { 65537 ≤ length buffer.old }
    ensures { PutsText (text_of (call_pieces cpus context.now calls.now)) (on_way O.written O.name O.faults out.old pending.old) (on_way O.written O.name O.faults out.new pending.new) result }
{
    put_cpus(pending, out, cpus)?;
    put_calls(context, calls, buffer, pending, out)
}
