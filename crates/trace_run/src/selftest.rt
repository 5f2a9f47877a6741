// A self-test: a generated file is reported in memory, and one line that sums its report up is printed.

ghost use Rattle.std.specs.Prelude.{◌≡◌, [], Some, IfOk, OnOk};
ghost use Rattle.trace_outside.specs.Writing.{Gained};
ghost use Rattle.trace_args.specs.Command.{report_view, self_view};
ghost use Rattle.run_endings.specs.Ending.{Prints};
ghost use Rattle.trace_run.specs.Meaning.{self_test};
ghost use Rattle.run_endings.specs.Outside.{sink_seen};
ghost use Rattle.trace_run.specs.Selftest.{generated_report, plain_report, self_test_line};

use dat_header::read_header;
use file_report::{ReportPlan, print_report};
use line_options::LineOptions;
use run_endings::{Resources, Status};
use std::alloc::{AllocError, Global};
use std::thread::Threads;
use trace_args::{ReportWords, SelfWords};
use trace_base::ByteText;
use trace_gen::{generate, summary_line};
use trace_outside::{Failed, Gate, MemSink, Sink, write_all};

/// Prints the line of a self-test. No file of a folder is opened.
pub(crate) fn print_self_test<R: Threads + Sync, O: Sink, G: Gate>(
    resources: &Resources<'_, R, G>,
    words: &SelfWords,
    out: &mut O,
) -> Status
    ensures { Prints ⊥ (Some (self_test (self_view words.now))) result (sink_seen O.Sink out.old) (sink_seen O.Sink out.new) }
{
    let Ok(line) = line_of(resources, words) else {
        return Status::NoMemory;
    };
    match write_all(out, line.as_bytes()) {
        Ok(()) => Status::Done,
        Err(Failed) => Status::WriteFault,
    }
}

// The line that sums up the report of the generated file.
fn line_of<R: Threads + Sync, G: Gate>(
    resources: &Resources<'_, R, G>,
    words: &SelfWords,
) -> Result<ByteText, AllocError>
    ensures { IfOk result (λ line. line ≡ self_test_line (self_view words.now)) }
{
    let alloc = resources.alloc;
    let mut report = MemSink::new(alloc);
    report_generated(resources, words, &mut report)?;
    summary_line(alloc, words.seed, words.events, report.bytes())
}

// Reports the generated file to a sink in memory.
fn report_generated<R: Threads + Sync, G: Gate>(
    resources: &Resources<'_, R, G>,
    words: &SelfWords,
    report: &mut MemSink,
) -> Result<(), AllocError>
    ensures { OnOk result (Gained (⟦<MemSink as Sink>⟧.written report.old) (⟦<MemSink as Sink>⟧.written report.new) (generated_report words.now.seed words.now.events)) }
{
    let alloc = resources.alloc;
    let plain = plain_words(alloc, words.workers);
    let mut file = generate(alloc, words.seed, words.events)?;
    let Ok(header) = read_header(alloc, &mut file) else {
        return Err(AllocError);
    };
    let filters = Vec::new(alloc);
    let plan = ReportPlan {
        words: &plain,
        header,
    };
    match print_report(resources, plan, filters, &mut file, report) {
        Status::Done => Ok(()),
        // The file is sound, and its reads and the sink's writes fail only for want of memory.
        _ => Err(AllocError),
    }
}

// The words of a report without options, on so many threads.
fn plain_words(alloc: Global, workers: u32) -> ReportWords<'static>
    ensures { report_view result ≡ record plain_report { workers = workers } }
{
    ReportWords {
        input: "",
        more: Vec::new(alloc),
        filters: Vec::new(alloc),
        line: LineOptions {
            full: false,
            diff: false,
            latency: false,
            raw: false,
            no_hard: false,
            no_soft: false,
        },
        raw_events: Vec::new(alloc),
        calls: false,
        list: None,
        wakeups: false,
        cpus: None,
        workers,
    }
}
