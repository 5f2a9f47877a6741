// Whole runs over objects in memory: the words, the file's sub-buffers, and what must come of them.

mod calls;
mod changes;
mod differences;
mod faults;
mod filters;
mod gates;
mod idle;
mod inputs;
mod known;
mod refusals;
mod restores;
mod rounds;
mod selftests;
mod splits;
mod sub_buffers;
mod waits;

use dat_header::OpenFault;
use inputs::{
    BEFORE_A_SECOND, Carried, FALLING, HEADER, IN_INTERRUPT, Input, LATENCY, MALFORMED_FIRST,
    MALFORMED_LATER, ONE, Page, Record, SWITCHES, TWO_AT_ONCE, folder_of,
};
use sample_runs::{Ran, run_words};
use std::alloc::{AllocError, Global};
use std::process::Abort;
use std::test::Fail;
use std::thread::Threads;
use trace_base::Words;
use trace_outside::{Folder, MemFolder, NoGate};
use trace_run::{CutPlace, Status};

struct Row {
    words: &'static [&'static str],
    file: Input,
    status: Status,
    out: &'static str,
    err: &'static str,
}

/// The report of `ONE`.
const ONE_REPORT: &str = "cpus=1\n           <...>-1234  [000]     1.000000: [UNKNOWN EVENT 58]\n";

const ROWS: &[Row] = &[
    Row {
        words: &["report"],
        file: Input::Bytes(HEADER),
        status: Status::Done,
        out: "cpus=0\n",
        err: "",
    },
    // one event at one second
    Row {
        words: &["report"],
        file: ONE,
        status: Status::Done,
        out: ONE_REPORT,
        err: "",
    },
    // rounding carries into the second
    Row {
        words: &["report", "-i", "trace.dat", "-N"],
        file: BEFORE_A_SECOND,
        status: Status::Done,
        out: ONE_REPORT,
        err: "",
    },
    // an empty sub-buffer before another
    Row {
        words: &["report"],
        file: Input::Processors(
            Carried::Nothing,
            &[&[
                Page::Empty,
                Page::Of(1_000_000_000, &[Record::Event(0, 58, 1234, 0, 0)]),
            ]],
        ),
        status: Status::Done,
        out: ONE_REPORT,
        err: "",
    },
    // the idle task, a negative pid, and a payload that ends before its pid
    Row {
        words: &["report"],
        file: Input::Processors(
            Carried::Nothing,
            &[&[Page::Of(
                1000,
                &[
                    Record::Event(0, 1, 0, 0, 0),
                    Record::Event(0, 2, u32::MAX, 0, 0),
                    Record::Short(0, 3),
                ],
            )]],
        ),
        status: Status::Done,
        out: "cpus=1\n          <idle>-0     [000]     0.000001: [UNKNOWN EVENT 1]\n           <...>--1    [000]     0.000001: [UNKNOWN EVENT 2]\n          <idle>-0     [000]     0.000001: [UNKNOWN EVENT 3]\n",
        err: "",
    },
    // a loss with its number, and one without
    Row {
        words: &["report"],
        file: Input::Processors(
            Carried::Nothing,
            &[&[
                Page::Lossy(1000, Some(3), &[Record::Event(0, 58, 1, 0, 0)]),
                Page::Lossy(1000, None, &[]),
            ]],
        ),
        status: Status::Done,
        out: "cpus=1\nCPU:0 [3 EVENTS DROPPED]\n           <...>-1     [000]     0.000001: [UNKNOWN EVENT 58]\nCPU:0 [EVENTS DROPPED]\n",
        err: "",
    },
    // a tie goes to the lower processor
    Row {
        words: &["report"],
        file: TWO_AT_ONCE,
        status: Status::Done,
        out: "cpus=2\n           <...>-1     [000]     0.000000: [UNKNOWN EVENT 58]\n           <...>-2     [001]     0.000000: [UNKNOWN EVENT 58]\n",
        err: "",
    },
    // a time that falls keeps its place after the later one
    Row {
        words: &["report", "-t"],
        file: FALLING,
        status: Status::Done,
        out: "cpus=2\n           <...>-2     [001]     0.000000004: [UNKNOWN EVENT 58]\n           <...>-1     [000]     0.000000005: [UNKNOWN EVENT 58]\n           <...>-1     [000]     0.000000003: [UNKNOWN EVENT 58]\n           <...>-2     [001]     0.000000005: [UNKNOWN EVENT 58]\n",
        err: "",
    },
    // stamps, the second of which the running time has passed
    Row {
        words: &["report", "-t"],
        file: Input::Processors(
            Carried::Nothing,
            &[&[Page::Of(
                0x0800_0000_0000_0064,
                &[
                    Record::Stamp(200),
                    Record::Event(0, 58, 1, 0, 0),
                    Record::Stamp(50),
                    Record::Event(0, 58, 1, 0, 0),
                ],
            )]],
        ),
        status: Status::Done,
        out: "cpus=1\n           <...>-1     [000] 576460752.303423688: [UNKNOWN EVENT 58]\n           <...>-1     [000] 1152921504.606847026: [UNKNOWN EVENT 58]\n",
        err: "",
    },
    // the latency columns, and an event that is hidden
    Row {
        words: &["report", "-l"],
        file: IN_INTERRUPT,
        status: Status::Done,
        out: "cpus=1\n   <...>-1234    0d.h1     1.000000: [UNKNOWN EVENT 58]\n",
        err: "",
    },
    Row {
        words: &["report", "-I"],
        file: IN_INTERRUPT,
        status: Status::Done,
        out: "cpus=1\n",
        err: "",
    },
    Row {
        words: &["report", "-S"],
        file: IN_INTERRUPT,
        status: Status::Done,
        out: ONE_REPORT,
        err: "",
    },
    // a malformed sub-buffer ends the report of all processors
    Row {
        words: &["report", "-t"],
        file: MALFORMED_LATER,
        status: Status::Malformed(CutPlace { cpu: 1, page: 1 }),
        out: "cpus=2\n           <...>-1     [000]     0.000000010: [UNKNOWN EVENT 58]\n           <...>-2     [001]     0.000000020: [UNKNOWN EVENT 58]\n",
        err: "trace-cmd: trace.dat: malformed sub-page 1 of processor 1\n",
    },
    Row {
        words: &["report"],
        file: MALFORMED_FIRST,
        status: Status::Malformed(CutPlace { cpu: 0, page: 0 }),
        out: "cpus=2\n",
        err: "trace-cmd: trace.dat: malformed sub-page 0 of processor 0\n",
    },
    Row {
        words: &["report", "--cpu", "1"],
        file: MALFORMED_FIRST,
        status: Status::Done,
        out: "cpus=2\n           <...>-2     [001]     0.000000: [UNKNOWN EVENT 58]\n",
        err: "",
    },
    // a part that the file does not have, whatever its size, is malformed
    Row {
        words: &["report"],
        file: Input::PartAt(4096, 1 << 60),
        status: Status::Malformed(CutPlace { cpu: 0, page: 0 }),
        out: "cpus=1\n",
        err: "trace-cmd: trace.dat: malformed sub-page 0 of processor 0\n",
    },
    // the rest of a latency file
    Row {
        words: &["report"],
        file: LATENCY,
        status: Status::Done,
        out: "cpus=1\nhello\n",
        err: "",
    },
    // known events by the text of their print fmts
    Row {
        words: &["report"],
        file: SWITCHES,
        status: Status::Done,
        out: "cpus=2\n            bash-1234  [000]     1.000000: sched_switch:         prev_comm=bash prev_pid=1234 prev_prio=120 prev_state=S ==> next_comm=swapper/0 next_pid=0 next_prio=120\n          <idle>-0     [001]     1.000002: sched_switch:         prev_comm=swapper/1 prev_pid=0 prev_prio=120 prev_state=R ==> next_comm=kworker/0:1 next_pid=42 next_prio=120\n     kworker/0:1-42    [001]     1.000250: function:              schedule <-- do_idle\n",
        err: "",
    },
    // known events by their names and fields, and the lists
    Row {
        words: &["report", "-R"],
        file: SWITCHES,
        status: Status::Done,
        out: "cpus=2\n            bash-1234  [000]     1.000000: sched_switch:         prev_comm=bash prev_pid=1234 prev_prio=120 prev_state=1 next_comm=swapper/0 next_pid=0 next_prio=120\n          <idle>-0     [001]     1.000002: sched_switch:         prev_comm=swapper/1 prev_pid=0 prev_prio=120 prev_state=0 next_comm=kworker/0:1 next_pid=42 next_prio=120\n     kworker/0:1-42    [001]     1.000250: function:             ip=18446744071578845200 parent_ip=18446744071578845472\n",
        err: "",
    },
    Row {
        words: &["report", "-E"],
        file: SWITCHES,
        status: Status::Done,
        out: "ftrace/function\nsched/sched_switch\n",
        err: "",
    },
    Row {
        words: &["report", "-f"],
        file: SWITCHES,
        status: Status::Done,
        out: "ffffffff81000000 schedule\nffffffff81000100 do_idle\n",
        err: "",
    },
    Row {
        words: &["report", "-P"],
        file: SWITCHES,
        status: Status::Done,
        out: "",
        err: "",
    },
    Row {
        words: &["report", "-E", "-f"],
        file: SWITCHES,
        status: Status::Usage,
        out: "",
        err: "trace-cmd: word 3: not with an earlier word\n",
    },
    // a list needs no sub-buffer
    Row {
        words: &["report", "--events"],
        file: MALFORMED_FIRST,
        status: Status::Done,
        out: "",
        err: "",
    },
    // a dump, in the order of the sections
    Row {
        words: &["dump"],
        file: ONE,
        status: Status::Done,
        out: "file trace.dat\nversion 6\norder little\nlong 8\npage 4096\nheader_page 0\nheader_event 0\nftrace formats 0\nsystems 0\nevents 0\nkallsyms 0\nprintk formats 0\ncommand lines 0\nprocessors 1\noptions 0\nbody flyrecord\n",
        err: "",
    },
    Row {
        words: &["dump", "--validate", "--flyrecord"],
        file: ONE,
        status: Status::Done,
        out: "[flyrecord 1]\ncpu 0 offset 4096 size 4096\nvalid\n",
        err: "",
    },
    Row {
        words: &["dump"],
        file: Input::Bytes(b""),
        status: Status::Refused(OpenFault::Truncated(0)),
        out: "",
        err: "trace-cmd: trace.dat: file ends early at byte 0\n",
    },
];

/// The number with which the program ends for each status.
const NUMBERS: &[(Status, u8)] = &[
    (Status::Done, 0),
    (Status::Usage, 1),
    (Status::Refused(OpenFault::Truncated(20)), 2),
    (Status::Malformed(CutPlace { cpu: 0, page: 1 }), 3),
    (Status::ReadFault, 4),
    (Status::WriteFault, 5),
    (Status::NoMemory, 6),
];

fn push_words(words: &mut Words, all: &[&str]) -> Result<(), AllocError> {
    for word in all {
        words.push(word)?;
    }
    Ok(())
}

fn words_of(alloc: Global, all: &[&str]) -> Result<Words, AllocError> {
    let mut words = Words::new(alloc);
    push_words(&mut words, all)?;
    Ok(words)
}

fn has_ended(ran: &Ran, (status, out, err): (Status, &str, &str)) -> bool {
    ran.status == status && ran.out.bytes() == out.as_bytes() && ran.err.bytes() == err.as_bytes()
}

// Runs words without a gate. They end so, and write this.
fn ends_as<R: Alloc<A = Global> + Abort + Threads + Sync, F: Folder>(
    rt: &R,
    words: &Words,
    folder: &mut F,
    expected: (Status, &str, &str),
) {
    let ran = run_words(rt, words, folder, &NoGate);
    assert!(rt;
        has_ended(&ran, expected),
        "{:?}\n{}{}",
        expected.0,
        expected.1,
        expected.2
    );
}

// The same of these words.
fn ends_of<R: Alloc<A = Global> + Abort + Threads + Sync, F: Folder>(
    rt: &R,
    all: &[&str],
    folder: &mut F,
    expected: (Status, &str, &str),
) -> Result<(), AllocError> {
    let words = words_of(rt.alloc(), all)?;
    ends_as(rt, &words, folder, expected);
    Ok(())
}

// Runs a row's words with these after them.
fn runs_with<R: Alloc<A = Global> + Abort + Threads + Sync>(
    rt: &R,
    row: &Row,
    more: &[&str],
) -> Result<(), AllocError> {
    let mut words = words_of(rt.alloc(), row.words)?;
    push_words(&mut words, more)?;
    let mut folder = folder_of(rt.alloc(), &row.file)?;
    ends_as(rt, &words, &mut folder, (row.status, row.out, row.err));
    Ok(())
}

fn run_all<R: Alloc<A = Global> + Abort + Threads + Sync>(
    rt: &R,
    rows: &[Row],
    more: &[&str],
) -> Result<(), Fail> {
    for row in rows {
        runs_with(rt, row, more)?;
    }
    Ok(())
}

// A new file has so many bytes, and its report with whole times ends so.
fn is_made<R: Alloc<A = Global> + Abort + Threads + Sync>(
    rt: &R,
    folder: &mut MemFolder,
    name: &str,
    size: usize,
    report: (Status, &str, &str),
) -> Result<(), AllocError> {
    let len = folder.get(name).map(|bytes| bytes.len());
    assert!(rt; len == Some(size), "{name}");
    ends_of(rt, &["report", "-t", name], folder, report)
}

// There is no file of this name.
fn is_absent<R: Alloc<A = Global> + Abort + Threads + Sync>(
    rt: &R,
    folder: &mut MemFolder,
    name: &str,
) -> Result<(), AllocError> {
    assert!(rt; folder.get(name).is_none(), "{name}");
    let err = format!(in rt.alloc(); "trace-cmd: {name}: read failed\n")?;
    ends_of(
        rt,
        &["report", name],
        folder,
        (Status::ReadFault, "", err.as_str()),
    )
}

// Whether the row is a report that goes through its file.
fn is_report(row: &Row) -> bool {
    !row.words.is_empty()
        && row.words[0] == "report"
        && matches!(row.status, Status::Done | Status::Malformed(_))
}

// Runs a row on one thread, on three and on sixty-four.
fn runs_on_threads<R: Alloc<A = Global> + Abort + Threads + Sync>(
    rt: &R,
    row: &Row,
) -> Result<(), AllocError> {
    for workers in ["1", "3", "64"] {
        runs_with(rt, row, &["--workers", workers])?;
    }
    Ok(())
}

#[test]
fn reports_on_any_number_of_threads(rt: HostRuntime) -> Result<(), Fail> {
    for row in ROWS {
        if is_report(row) {
            runs_on_threads(&rt, row)?;
        }
    }
    Ok(())
}

#[test]
fn whole_runs(rt: HostRuntime) -> Result<(), Fail> {
    run_all(&rt, ROWS, &[])
}

#[test]
fn numbers_of_statuses(rt: HostRuntime) {
    for (status, number) in NUMBERS {
        assert!(rt; status.number() == *number, "{number}");
    }
}
