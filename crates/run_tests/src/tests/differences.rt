// Reports with the differences between times.

use super::inputs::{
    Carried, FALLING, IN_INTERRUPT, Input, LATENCY, MALFORMED_LATER, Page, Record, SWITCHES,
    TWO_AT_ONCE,
};
use super::{ONE_REPORT, Row, run_all};
use std::test::Fail;
use trace_run::{CutPlace, Status};

/// Two consecutive losses between two events.
const LOSSES: Input = Input::Processors(
    Carried::Nothing,
    &[&[
        Page::Of(1000, &[Record::Event(0, 58, 1, 0, 0)]),
        Page::Lossy(1500, None, &[]),
        Page::Lossy(2000, Some(3), &[Record::Event(0, 58, 1, 0, 0)]),
    ]],
);

/// An event in a hard interrupt between two others.
const INTERRUPTED: Input = Input::Processors(
    Carried::Nothing,
    &[&[Page::Of(
        1000,
        &[
            Record::Event(0, 58, 1, 0, 0),
            Record::Event(500, 58, 1, 8, 0),
            Record::Event(250, 58, 1, 0, 0),
        ],
    )]],
);

const ROWS: &[Row] = &[
    Row {
        words: &["report", "-t", "--ts-diff"],
        file: INTERRUPTED,
        status: Status::Done,
        out: "cpus=1\n           <...>-1     [000]     0.000001000: [UNKNOWN EVENT 58]\n           <...>-1     [000]     0.000001500 (+500): [UNKNOWN EVENT 58]\n           <...>-1     [000]     0.000001750 (+250): [UNKNOWN EVENT 58]\n",
        err: "",
    },
    // an event that is not shown leaves the last time
    Row {
        words: &["report", "-t", "-I", "--ts-diff"],
        file: INTERRUPTED,
        status: Status::Done,
        out: "cpus=1\n           <...>-1     [000]     0.000001000: [UNKNOWN EVENT 58]\n           <...>-1     [000]     0.000001750 (+750): [UNKNOWN EVENT 58]\n",
        err: "",
    },
    // so do losses
    Row {
        words: &["report", "-t", "--ts-diff"],
        file: LOSSES,
        status: Status::Done,
        out: "cpus=1\n           <...>-1     [000]     0.000001000: [UNKNOWN EVENT 58]\nCPU:0 [EVENTS DROPPED]\nCPU:0 [3 EVENTS DROPPED]\n           <...>-1     [000]     0.000002000 (+1000): [UNKNOWN EVENT 58]\n",
        err: "",
    },
    // the difference is that of the times, not of the keys that order the lines
    Row {
        words: &["report", "-t", "--ts-diff"],
        file: FALLING,
        status: Status::Done,
        out: "cpus=2\n           <...>-2     [001]     0.000000004: [UNKNOWN EVENT 58]\n           <...>-1     [000]     0.000000005 (+1): [UNKNOWN EVENT 58]\n           <...>-1     [000]     0.000000003 (-2): [UNKNOWN EVENT 58]\n           <...>-2     [001]     0.000000005 (+2): [UNKNOWN EVENT 58]\n",
        err: "",
    },
    // equal times
    Row {
        words: &["report", "--ts-diff"],
        file: TWO_AT_ONCE,
        status: Status::Done,
        out: "cpus=2\n           <...>-1     [000]     0.000000: [UNKNOWN EVENT 58]\n           <...>-2     [001]     0.000000 (+0): [UNKNOWN EVENT 58]\n",
        err: "",
    },
    // before a malformed sub-buffer
    Row {
        words: &["report", "-t", "--ts-diff"],
        file: MALFORMED_LATER,
        status: Status::Malformed(CutPlace { cpu: 1, page: 1 }),
        out: "cpus=2\n           <...>-1     [000]     0.000000010: [UNKNOWN EVENT 58]\n           <...>-2     [001]     0.000000020 (+10): [UNKNOWN EVENT 58]\n",
        err: "trace-cmd: trace.dat: malformed sub-page 1 of processor 1\n",
    },
    // the latency columns
    Row {
        words: &["report", "-l", "--ts-diff"],
        file: Input::Processors(
            Carried::Nothing,
            &[&[Page::Of(
                1_000_000_000,
                &[
                    Record::Event(0, 58, 1234, 9, 1),
                    Record::Event(7, 58, 1234, 9, 1),
                ],
            )]],
        ),
        status: Status::Done,
        out: "cpus=1\n   <...>-1234    0d.h1     1.000000: [UNKNOWN EVENT 58]\n   <...>-1234    0d.h1     1.000000 (+7): [UNKNOWN EVENT 58]\n",
        err: "",
    },
    Row {
        words: &["report", "--ts-diff"],
        file: IN_INTERRUPT,
        status: Status::Done,
        out: ONE_REPORT,
        err: "",
    },
    // known events, and those that a filter leaves
    Row {
        words: &["report", "--ts-diff"],
        file: SWITCHES,
        status: Status::Done,
        out: "cpus=2\n            bash-1234  [000]     1.000000: sched_switch:         prev_comm=bash prev_pid=1234 prev_prio=120 prev_state=S ==> next_comm=swapper/0 next_pid=0 next_prio=120\n          <idle>-0     [001]     1.000002 (+1500): sched_switch:         prev_comm=swapper/1 prev_pid=0 prev_prio=120 prev_state=R ==> next_comm=kworker/0:1 next_pid=42 next_prio=120\n     kworker/0:1-42    [001]     1.000250 (+248500): function:              schedule <-- do_idle\n",
        err: "",
    },
    Row {
        words: &["report", "--ts-diff", "-v", "-F", "sched_switch: CPU == 1"],
        file: SWITCHES,
        status: Status::Done,
        out: "cpus=2\n            bash-1234  [000]     1.000000: sched_switch:         prev_comm=bash prev_pid=1234 prev_prio=120 prev_state=S ==> next_comm=swapper/0 next_pid=0 next_prio=120\n     kworker/0:1-42    [001]     1.000250 (+250000): function:              schedule <-- do_idle\n",
        err: "",
    },
    // lists and what stands in a latency file have no times
    Row {
        words: &["report", "-E", "--ts-diff"],
        file: SWITCHES,
        status: Status::Done,
        out: "ftrace/function\nsched/sched_switch\n",
        err: "",
    },
    Row {
        words: &["report", "-f", "--ts-diff"],
        file: SWITCHES,
        status: Status::Done,
        out: "ffffffff81000000 schedule\nffffffff81000100 do_idle\n",
        err: "",
    },
    Row {
        words: &["report", "-P", "--ts-diff"],
        file: SWITCHES,
        status: Status::Done,
        out: "",
        err: "",
    },
    Row {
        words: &["report", "--events", "--ts-diff"],
        file: INTERRUPTED,
        status: Status::Done,
        out: "",
        err: "",
    },
    Row {
        words: &["report", "--ts-diff"],
        file: LATENCY,
        status: Status::Done,
        out: "cpus=1\nhello\n",
        err: "",
    },
];

#[test]
fn differences_on_any_number_of_threads(rt: HostRuntime) -> Result<(), Fail> {
    run_all(&rt, ROWS, &[])?;
    for workers in ["3", "64"] {
        run_all(&rt, ROWS, &["--workers", workers])?;
    }
    Ok(())
}
