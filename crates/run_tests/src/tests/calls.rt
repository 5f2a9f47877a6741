// Reports of the function graph's calls.

use super::inputs::{Carried, Input, LATENCY, Page, Record};
use super::{Row, run_all};
use std::test::Fail;
use trace_run::{CutPlace, Status};

const OUTER: u64 = 0x1000;

const INNER: u64 = 0x2000;

/// A call in a call.
const NESTED: Input = Input::Processors(
    Carried::Graph,
    &[&[Page::Of(
        1000,
        &[
            Record::Enter(0, OUTER, 0),
            Record::Enter(1000, INNER, 1),
            Record::Event(0, 58, 7, 0, 0),
            Record::Leave(700, INNER, 1, 2000, 2600),
            Record::Leave(2300, OUTER, 0, 1000, 4900),
        ],
    )]],
);

/// An exit without its entry.
pub(super) const LONE: Input = Input::Processors(
    Carried::Graph,
    &[&[Page::Of(1000, &[Record::Leave(0, INNER, 1, 2000, 2600)])]],
);

/// A call whose exit stands after a loss of processor 1, which then has a malformed sub-buffer.
const BROKEN: Input = Input::Processors(
    Carried::Graph,
    &[
        &[Page::Of(
            1000,
            &[
                Record::Enter(0, OUTER, 0),
                Record::Leave(4000, OUTER, 0, 1000, 4900),
                Record::Enter(4000, OUTER, 0),
            ],
        )],
        &[
            Page::Lossy(2000, Some(4), &[Record::Event(4000, 58, 7, 0, 0)]),
            Page::Malformed,
        ],
    ],
);

const ROWS: &[Row] = &[
    Row {
        words: &["report", "--calls"],
        file: NESTED,
        status: Status::Done,
        out: "cpus=1\n              sh-7     [000]     0.000001:              | outer() {\n              sh-7     [000]     0.000002:     0.600 us |   inner();\n              sh-7     [000]     0.000005:     3.900 us | }\n",
        err: "",
    },
    Row {
        words: &["report", "-tl", "--calls", "--workers", "3"],
        file: NESTED,
        status: Status::Done,
        out: "cpus=1\n      sh-7       0....     0.000001000:              | outer() {\n      sh-7       0....     0.000002000:     0.600 us |   inner();\n      sh-7       0....     0.000005000:     3.900 us | }\n",
        err: "",
    },
    Row {
        words: &["report", "--calls"],
        file: LONE,
        status: Status::Done,
        out: "cpus=1\n              sh-7     [000]     0.000001:              |   } /* inner */\n",
        err: "",
    },
    Row {
        words: &["report", "--calls"],
        file: BROKEN,
        status: Status::Malformed(CutPlace { cpu: 1, page: 1 }),
        out: "cpus=2\n              sh-7     [000]     0.000001:              | outer() {\nCPU:1 [4 EVENTS DROPPED]\n              sh-7     [000]     0.000005:              | } /* outer */\n",
        err: "trace-cmd: trace.dat: malformed sub-page 1 of processor 1\n",
    },
    Row {
        words: &["report", "--calls", "--cpu", "0"],
        file: BROKEN,
        status: Status::Done,
        out: "cpus=2\n              sh-7     [000]     0.000001:     3.900 us | outer();\n              sh-7     [000]     0.000009:              | outer() {\n",
        err: "",
    },
    // the rest of a latency file
    Row {
        words: &["report", "--calls"],
        file: LATENCY,
        status: Status::Done,
        out: "cpus=1\nhello\n",
        err: "",
    },
    Row {
        words: &["report", "--calls", "-F"],
        file: NESTED,
        status: Status::Usage,
        out: "",
        err: "trace-cmd: word 3: not with an earlier word\n",
    },
];

#[test]
fn calls_are_reported(rt: HostRuntime) -> Result<(), Fail> {
    run_all(&rt, ROWS, &[])
}
