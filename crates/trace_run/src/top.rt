ghost use Rattle.run_words.specs.Usage.{asked};
ghost use Rattle.trace_run.specs.Messages.{SaysOf};
ghost use Rattle.run_endings.specs.Outside.{folder_seen, outside_seen, sink_seen};
ghost use Rattle.trace_run.specs.Ran.{Ran};

use crate::command::run_job;
use crate::messages::{say, say_usage};
use run_endings::{Resources, Status};
use run_words::{AskFault, ask};
use std::alloc::Global;
use std::thread::Threads;
use trace_base::Words;
use trace_outside::{Folder, Gate, Sink};

/// Does what the words of the command line ask for, on the files of the folder.
///
/// The words are read first, then their filters in their order, and only then a file is opened. The output goes to
/// `out`, and for every answer but `Done` a message of one line to `err`. All memory is taken before the first byte of
/// output.
///
/// Of the folder only the names in the words are asked for, each once and in their order, and after the input of a split the
/// names of its new files. A fault that the folder or the output counted is never told as want of memory.
///
/// A report's lines are formed on as many threads as the words ask for, with the same bytes for any number of them. Each
/// lane passes the gate before its lines are formed.
pub fn run<R: Threads + Sync, F: Folder, O: Sink, E: Sink, G: Gate>(
    rt: &R,
    alloc: Global,
    words: &Words,
    folder: &mut F,
    out: &mut O,
    err: &mut E,
    gate: &G,
) -> Status
    ensures ran { Ran (asked words.now) result
        (outside_seen F.Folder O.Sink folder.old out.old) (outside_seen F.Folder O.Sink folder.new out.new) }
    ensures says { SaysOf (asked words.now) result
        (folder_seen F.Folder folder.old) (folder_seen F.Folder folder.new) (sink_seen E.Sink err.old) (sink_seen E.Sink err.new) }
{
    match ask(alloc, words) {
        Ok((job, filters)) => {
            let resources = Resources { rt, alloc, gate };
            let outcome = run_job(&resources, &job, filters, folder, out);
            say(outcome.file, outcome.status, err);
            outcome.status
        }
        Err(AskFault::Memory) => {
            say("", Status::NoMemory, err);
            Status::NoMemory
        }
        Err(AskFault::Usage(fault)) => {
            say_usage(fault, err);
            Status::Usage
        }
    }
}
