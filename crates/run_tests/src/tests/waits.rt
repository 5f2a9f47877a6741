// Reports with the latencies after the events.

use super::inputs::{Carried, Input, LATENCY, Page, Record};
use super::known::{NEXT, WOKEN};
use super::{Row, run_all};
use std::test::Fail;
use trace_run::{CutPlace, Status};

/// Two wake-ups of task 42, and two switches to it.
pub(super) const WAITS: Input = Input::Processors(
    Carried::Woken,
    &[&[Page::Of(
        1000,
        &[
            Record::OfTask(0, WOKEN, 42),
            Record::OfTask(2000, WOKEN, 42),
            Record::OfTask(7500, NEXT, 42),
            Record::OfTask(1500, NEXT, 42),
        ],
    )]],
);

/// The same, with a loss before the switches.
const LOST: Input = Input::Processors(
    Carried::Woken,
    &[&[
        Page::Of(
            1000,
            &[
                Record::OfTask(0, WOKEN, 42),
                Record::OfTask(2000, WOKEN, 42),
            ],
        ),
        Page::Lossy(
            10_500,
            None,
            &[Record::OfTask(0, NEXT, 42), Record::OfTask(1500, NEXT, 42)],
        ),
    ]],
);

/// A wake-up on processor 0, the switch on processor 1, and then a malformed sub-buffer.
const ACROSS: Input = Input::Processors(
    Carried::Woken,
    &[
        &[Page::Of(1000, &[Record::OfTask(0, WOKEN, 42)])],
        &[
            Page::Of(3000, &[Record::OfTask(0, NEXT, 42)]),
            Page::Malformed,
        ],
    ],
);

const ROWS: &[Row] = &[
    // the wake-up that first woke the task counts
    Row {
        words: &["report", "-w"],
        file: WAITS,
        status: Status::Done,
        out: "cpus=1\n           <...>-5     [000]     0.000001: sched_wakeup:         pid=42\n           <...>-5     [000]     0.000003: sched_wakeup:         pid=42\n           <...>-5     [000]     0.000011: sched_switch:         next=42\n           <...>-5     [000]     0.000012: sched_switch:         next=42\nwakeups=1\n           <...>-42    [000]     0.000011: latency 9.500 us\naverage 9.500 us\nmaximum 9.500 us at 0.000011\nminimum 9.500 us at 0.000011\n",
        err: "",
    },
    // a loss ends all waits
    Row {
        words: &["report", "-w"],
        file: LOST,
        status: Status::Done,
        out: "cpus=1\n           <...>-5     [000]     0.000001: sched_wakeup:         pid=42\n           <...>-5     [000]     0.000003: sched_wakeup:         pid=42\nCPU:0 [EVENTS DROPPED]\n           <...>-5     [000]     0.000011: sched_switch:         next=42\n           <...>-5     [000]     0.000012: sched_switch:         next=42\nwakeups=0\n",
        err: "",
    },
    // events that are not shown count all the same
    Row {
        words: &["report", "-wt", "-F", "sched_switch:next_pid == 7"],
        file: WAITS,
        status: Status::Done,
        out: "cpus=1\nwakeups=1\n           <...>-42    [000]     0.000010500: latency 9.500 us\naverage 9.500 us\nmaximum 9.500 us at 0.000010500\nminimum 9.500 us at 0.000010500\n",
        err: "",
    },
    // differences stand in the lines of the events alone
    Row {
        words: &["report", "-wt", "--ts-diff"],
        file: WAITS,
        status: Status::Done,
        out: "cpus=1\n           <...>-5     [000]     0.000001000: sched_wakeup:         pid=42\n           <...>-5     [000]     0.000003000 (+2000): sched_wakeup:         pid=42\n           <...>-5     [000]     0.000010500 (+7500): sched_switch:         next=42\n           <...>-5     [000]     0.000012000 (+1500): sched_switch:         next=42\nwakeups=1\n           <...>-42    [000]     0.000010500: latency 9.500 us\naverage 9.500 us\nmaximum 9.500 us at 0.000010500\nminimum 9.500 us at 0.000010500\n",
        err: "",
    },
    // up to the first malformed sub-buffer
    Row {
        words: &["report", "-w", "-F", "none"],
        file: ACROSS,
        status: Status::Malformed(CutPlace { cpu: 1, page: 1 }),
        out: "cpus=2\nwakeups=1\n           <...>-42    [001]     0.000003: latency 2.000 us\naverage 2.000 us\nmaximum 2.000 us at 0.000003\nminimum 2.000 us at 0.000003\n",
        err: "trace-cmd: trace.dat: malformed sub-page 1 of processor 1\n",
    },
    // of the chosen processors alone
    Row {
        words: &["report", "-w", "--cpu", "0"],
        file: ACROSS,
        status: Status::Done,
        out: "cpus=2\n           <...>-5     [000]     0.000001: sched_wakeup:         pid=42\nwakeups=0\n",
        err: "",
    },
    // a latency file has none
    Row {
        words: &["report", "-w"],
        file: LATENCY,
        status: Status::Done,
        out: "cpus=1\nhello\n",
        err: "",
    },
    Row {
        words: &["report", "-w", "-E"],
        file: WAITS,
        status: Status::Usage,
        out: "",
        err: "trace-cmd: word 3: not with an earlier word\n",
    },
];

#[test]
fn latencies_stand_behind_the_events(rt: HostRuntime) -> Result<(), Fail> {
    run_all(&rt, ROWS, &[])
}

#[test]
fn latencies_on_three_threads(rt: HostRuntime) -> Result<(), Fail> {
    run_all(&rt, ROWS, &["--workers", "3"])
}
