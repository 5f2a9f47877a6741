// Reports of traces in which many processors have no data.

use super::inputs::{Carried, Input, Page, Record};
use super::known::{NEXT, WOKEN};
use super::{Row, run_all};
use std::test::Fail;
use trace_run::{CutPlace, Status};

/// Of six processors the second has an event at the time 20, the fifth two at 10 and 30.
const TWO_OF_SIX: Input = Input::Processors(
    Carried::Nothing,
    &[
        &[],
        &[Page::Of(20, &[Record::Event(0, 58, 1, 0, 0)])],
        &[],
        &[],
        &[Page::Of(
            10,
            &[
                Record::Event(0, 58, 4, 0, 0),
                Record::Event(20, 58, 4, 0, 0),
            ],
        )],
        &[],
    ],
);

/// Of five processors the second has an event at the time 20, the fourth one at 10 and then a malformed sub-buffer.
const MALFORMED_OF_FIVE: Input = Input::Processors(
    Carried::Nothing,
    &[
        &[],
        &[Page::Of(20, &[Record::Event(0, 58, 1, 0, 0)])],
        &[],
        &[
            Page::Of(10, &[Record::Event(0, 58, 3, 0, 0)]),
            Page::Malformed,
        ],
        &[],
    ],
);

/// A wake-up on the second of four processors, and the switch on the fourth.
const WAIT_OF_FOUR: Input = Input::Processors(
    Carried::Woken,
    &[
        &[],
        &[Page::Of(1000, &[Record::OfTask(0, WOKEN, 42)])],
        &[],
        &[Page::Of(3000, &[Record::OfTask(0, NEXT, 42)])],
    ],
);

/// A call on the second of three processors.
const CALL_OF_THREE: Input = Input::Processors(
    Carried::Graph,
    &[
        &[],
        &[Page::Of(
            1000,
            &[
                Record::Enter(0, 0x1000, 0),
                Record::Leave(4000, 0x1000, 0, 1000, 4900),
            ],
        )],
        &[],
    ],
);

const ROWS: &[Row] = &[
    // lines and messages name the processors by their numbers in the file
    Row {
        words: &["report", "-t"],
        file: TWO_OF_SIX,
        status: Status::Done,
        out: "cpus=6\n           <...>-4     [004]     0.000000010: [UNKNOWN EVENT 58]\n           <...>-1     [001]     0.000000020: [UNKNOWN EVENT 58]\n           <...>-4     [004]     0.000000030: [UNKNOWN EVENT 58]\n",
        err: "",
    },
    Row {
        words: &["report", "-t", "--cpu", "0-2"],
        file: TWO_OF_SIX,
        status: Status::Done,
        out: "cpus=6\n           <...>-1     [001]     0.000000020: [UNKNOWN EVENT 58]\n",
        err: "",
    },
    Row {
        words: &["report", "-t", "--cpu", "0,2,3,5"],
        file: TWO_OF_SIX,
        status: Status::Done,
        out: "cpus=6\n",
        err: "",
    },
    Row {
        words: &["report", "-t"],
        file: MALFORMED_OF_FIVE,
        status: Status::Malformed(CutPlace { cpu: 3, page: 1 }),
        out: "cpus=5\n           <...>-3     [003]     0.000000010: [UNKNOWN EVENT 58]\n",
        err: "trace-cmd: trace.dat: malformed sub-page 1 of processor 3\n",
    },
    Row {
        words: &["report"],
        file: Input::Processors(Carried::Nothing, &[&[], &[]]),
        status: Status::Done,
        out: "cpus=2\n",
        err: "",
    },
    // latencies, and calls
    Row {
        words: &["report", "-w"],
        file: WAIT_OF_FOUR,
        status: Status::Done,
        out: "cpus=4\n           <...>-5     [001]     0.000001: sched_wakeup:         pid=42\n           <...>-5     [003]     0.000003: sched_switch:         next=42\nwakeups=1\n           <...>-42    [003]     0.000003: latency 2.000 us\naverage 2.000 us\nmaximum 2.000 us at 0.000003\nminimum 2.000 us at 0.000003\n",
        err: "",
    },
    Row {
        words: &["report", "--calls"],
        file: CALL_OF_THREE,
        status: Status::Done,
        out: "cpus=3\n              sh-7     [001]     0.000001:     3.900 us | outer();\n",
        err: "",
    },
    // a part of some bytes that are no whole sub-buffer has a malformed one
    Row {
        words: &["report"],
        file: Input::PartAt(200, 1),
        status: Status::Malformed(CutPlace { cpu: 0, page: 0 }),
        out: "cpus=1\n",
        err: "trace-cmd: trace.dat: malformed sub-page 0 of processor 0\n",
    },
    Row {
        words: &["report", "-w"],
        file: Input::PartAt(200, 1),
        status: Status::Malformed(CutPlace { cpu: 0, page: 0 }),
        out: "cpus=1\nwakeups=0\n",
        err: "trace-cmd: trace.dat: malformed sub-page 0 of processor 0\n",
    },
    Row {
        words: &["report", "--calls"],
        file: Input::PartAt(0, 4095),
        status: Status::Malformed(CutPlace { cpu: 0, page: 0 }),
        out: "cpus=1\n",
        err: "trace-cmd: trace.dat: malformed sub-page 0 of processor 0\n",
    },
];

#[test]
fn processors_without_data(rt: HostRuntime) -> Result<(), Fail> {
    run_all(&rt, ROWS, &[])
}

#[test]
fn processors_without_data_on_three_threads(rt: HostRuntime) -> Result<(), Fail> {
    run_all(&rt, ROWS, &["--workers", "3"])
}
