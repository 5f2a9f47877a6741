// The texts that files carry, and the payloads of their events.

use super::inputs::{Carried, put_longs, put_words};
use std::alloc::{AllocError, Global};
use trace_samples::{FUNCTION_FORMAT, SWITCH_FORMAT, SYMBOLS, TASKS, TraceFile};

/// The ids of a function and of a switch.
pub(super) const FUNCTION: u16 = 1;

pub(super) const SWITCH: u16 = 316;

/// Those of a wake-up and of a switch to a task.
pub(super) const WOKEN: u16 = 10;

pub(super) const NEXT: u16 = 11;

/// A format's text, but for the common fields.
struct FormatText {
    head: &'static str,
    fields: &'static str,
    print: &'static str,
}

impl FormatText {
    fn put(&self, text: &mut Vec<u8>) -> Result<(), AllocError> {
        for piece in [self.head, COMMON_FIELDS, self.fields, self.print] {
            text.extend_from_slice(piece.as_bytes())?;
        }
        Ok(())
    }
}

fn add_ftrace(alloc: Global, trace: &mut TraceFile, format: &FormatText) -> Result<(), AllocError> {
    let mut text = Vec::new(alloc);
    format.put(&mut text)?;
    trace.add_ftrace(&text)
}

fn add_sched(alloc: Global, trace: &mut TraceFile, format: &FormatText) -> Result<(), AllocError> {
    let mut text = Vec::new(alloc);
    format.put(&mut text)?;
    trace.add_sched(&text)
}

const COMMON_FIELDS: &str = "\tfield:unsigned short common_type;\toffset:0;\tsize:2;\tsigned:0;
\tfield:unsigned char common_flags;\toffset:2;\tsize:1;\tsigned:0;
\tfield:unsigned char common_preempt_count;\toffset:3;\tsize:1;\tsigned:0;
\tfield:int common_pid;\toffset:4;\tsize:4;\tsigned:1;

";

/// A task at a switch: its name, pid and priority.
pub(super) struct Task(pub &'static str, pub u32, pub u32);

const WOKEN_TEXT: FormatText = FormatText {
    head: "name: sched_wakeup\nID: 10\nformat:\n",
    fields: "\tfield:pid_t pid;\toffset:8;\tsize:4;\tsigned:1;

",
    print: "print fmt: \"pid=%d\", REC->pid
",
};

const NEXT_TEXT: FormatText = FormatText {
    head: "name: sched_switch\nID: 11\nformat:\n",
    fields: "\tfield:pid_t next_pid;\toffset:8;\tsize:4;\tsigned:1;

",
    print: "print fmt: \"next=%d\", REC->next_pid
",
};

const WIDE_TEXT: FormatText = FormatText {
    head: "name: wide\nID: 7\nformat:\n",
    fields: "",
    print: "print fmt: \"%30000d\", REC->common_pid
",
};

const WIDEST_TEXT: FormatText = FormatText {
    head: "name: widest\nID: 8\nformat:\n",
    fields: "",
    print: "print fmt: \"%65535d\", REC->common_pid
",
};

const EXIT_TEXT: FormatText = FormatText {
    head: "name: funcgraph_exit\nID: 10\nformat:\n",
    fields: "\tfield:unsigned long func;\toffset:8;\tsize:8;\tsigned:0;
\tfield:unsigned long long calltime;\toffset:16;\tsize:8;\tsigned:0;
\tfield:unsigned long long rettime;\toffset:24;\tsize:8;\tsigned:0;
\tfield:int depth;\toffset:32;\tsize:4;\tsigned:1;

",
    print: "print fmt: \"<-- %ps\", (void *)REC->func
",
};

const ENTRY_TEXT: FormatText = FormatText {
    head: "name: funcgraph_entry\nID: 11\nformat:\n",
    fields: "\tfield:unsigned long func;\toffset:8;\tsize:8;\tsigned:0;
\tfield:int depth;\toffset:16;\tsize:4;\tsigned:1;

",
    print: "print fmt: \"--> %ps\", (void *)REC->func
",
};

/// Adds what a file carries beside its sub-buffers.
pub(super) fn carry(
    alloc: Global,
    trace: &mut TraceFile,
    carried: &Carried,
) -> Result<(), AllocError> {
    match carried {
        Carried::Nothing => Ok(()),
        Carried::Texts => {
            trace.add_ftrace(FUNCTION_FORMAT)?;
            trace.add_sched(SWITCH_FORMAT)?;
            trace.kallsyms.extend_from_slice(SYMBOLS)?;
            trace.command_lines.extend_from_slice(TASKS)
        }
        Carried::Wide => {
            add_ftrace(alloc, trace, &WIDE_TEXT)?;
            add_ftrace(alloc, trace, &WIDEST_TEXT)
        }
        Carried::Woken => {
            add_sched(alloc, trace, &WOKEN_TEXT)?;
            add_sched(alloc, trace, &NEXT_TEXT)
        }
        Carried::Graph => {
            add_ftrace(alloc, trace, &EXIT_TEXT)?;
            add_ftrace(alloc, trace, &ENTRY_TEXT)?;
            trace
                .kallsyms
                .extend_from_slice(b"1000 T outer\n2000 T inner\n")?;
            trace.command_lines.extend_from_slice(b"7 sh\n")
        }
    }
}

/// Words of eight bytes, and the depth of a call after them.
pub(super) fn put_depth(file: &mut Vec<u8>, longs: &[u64], depth: u32) -> Result<(), AllocError> {
    put_longs(file, longs)?;
    put_words(file, &[depth])
}

fn put_task(file: &mut Vec<u8>, task: &Task) -> Result<(), AllocError> {
    let end = file.len().saturating_add(16);
    file.extend_from_slice(task.0.as_bytes())?;
    file.resize(end, 0)?;
    put_words(file, &[task.1, task.2])
}

/// A switch from one task, in this state, to another.
pub(super) fn put_switch(
    file: &mut Vec<u8>,
    from: &Task,
    state: u64,
    to: &Task,
) -> Result<(), AllocError> {
    put_task(file, from)?;
    put_longs(file, &[state])?;
    put_task(file, to)
}
