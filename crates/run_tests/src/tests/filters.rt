// Reports with filters, and words whose filters have no reading.

use super::inputs::{Carried, Input, ONE, Page, Record, SWITCHES};
use super::known::Task;
use super::{ONE_REPORT, Row, run_all};
use std::test::Fail;
use trace_run::Status;

/// Two switches, of the pids 1 and 2.
const TWO_SWITCHES: Input = Input::Processors(
    Carried::Texts,
    &[&[Page::Of(
        1_000_000_000,
        &[
            Record::Switch(0, 1, Task("a", 1, 120), 0, Task("b", 2, 120)),
            Record::Switch(0, 2, Task("b", 2, 120), 1, Task("a", 1, 120)),
        ],
    )]],
);

/// An event after a loss of three.
const LOSS: Input = Input::Processors(
    Carried::Nothing,
    &[&[Page::Lossy(1000, Some(3), &[Record::Event(0, 58, 1, 0, 0)])]],
);

const ROWS: &[Row] = &[
    // a loss is shown whatever the filters
    Row {
        words: &["report", "-F", "nothing"],
        file: LOSS,
        status: Status::Done,
        out: "cpus=1\nCPU:0 [3 EVENTS DROPPED]\n",
        err: "",
    },
    Row {
        words: &["report", "-F", "sched\r\n:\tbogus == 1\n|| common_pid == 2"],
        file: TWO_SWITCHES,
        status: Status::Done,
        out: "cpus=1\n           <...>-2     [000]     1.000000: sched_switch:         prev_comm=b prev_pid=2 prev_prio=120 prev_state=S ==> next_comm=a next_pid=1 next_prio=120\n",
        err: "",
    },
    Row {
        words: &["report", "-v", "-F", "function"],
        file: SWITCHES,
        status: Status::Done,
        out: "cpus=2\n            bash-1234  [000]     1.000000: sched_switch:         prev_comm=bash prev_pid=1234 prev_prio=120 prev_state=S ==> next_comm=swapper/0 next_pid=0 next_prio=120\n          <idle>-0     [001]     1.000002: sched_switch:         prev_comm=swapper/1 prev_pid=0 prev_prio=120 prev_state=R ==> next_comm=kworker/0:1 next_pid=42 next_prio=120\n",
        err: "",
    },
    Row {
        words: &["report", "-F", "sched : COMM == \"bash\""],
        file: SWITCHES,
        status: Status::Done,
        out: "cpus=2\n            bash-1234  [000]     1.000000: sched_switch:         prev_comm=bash prev_pid=1234 prev_prio=120 prev_state=S ==> next_comm=swapper/0 next_pid=0 next_prio=120\n",
        err: "",
    },
    Row {
        words: &["report", "-F", "sched : bogus != 1"],
        file: SWITCHES,
        status: Status::Done,
        out: "cpus=2\n",
        err: "",
    },
    // with filters that hide alone the rest is shown
    Row {
        words: &["report", "-v", "-F", "nothing"],
        file: ONE,
        status: Status::Done,
        out: ONE_REPORT,
        err: "",
    },
    Row {
        words: &["report", "-F", "nothing"],
        file: ONE,
        status: Status::Done,
        out: "cpus=1\n",
        err: "",
    },
    // one that shows and one that hides
    Row {
        words: &["report", "-Fsched", "-vF", "sched_switch:CPU == 1"],
        file: SWITCHES,
        status: Status::Done,
        out: "cpus=2\n            bash-1234  [000]     1.000000: sched_switch:         prev_comm=bash prev_pid=1234 prev_prio=120 prev_state=S ==> next_comm=swapper/0 next_pid=0 next_prio=120\n",
        err: "",
    },
    Row {
        words: &[
            "report",
            "-F",
            "sched:next_pid == 42",
            "-F",
            "ftrace/function",
        ],
        file: SWITCHES,
        status: Status::Done,
        out: "cpus=2\n          <idle>-0     [001]     1.000002: sched_switch:         prev_comm=swapper/1 prev_pid=0 prev_prio=120 prev_state=R ==> next_comm=kworker/0:1 next_pid=42 next_prio=120\n     kworker/0:1-42    [001]     1.000250: function:              schedule <-- do_idle\n",
        err: "",
    },
    // a filter that is none, whatever the folder has
    Row {
        words: &["report", "-F", "sched :"],
        file: SWITCHES,
        status: Status::Usage,
        out: "",
        err: "trace-cmd: word 3: bad filter at byte 7\n",
    },
    Row {
        words: &["report", "-F", "sched :"],
        file: Input::Missing,
        status: Status::Usage,
        out: "",
        err: "trace-cmd: word 3: bad filter at byte 7\n",
    },
    Row {
        words: &["report", "-F", ""],
        file: Input::Bytes(b"x"),
        status: Status::Usage,
        out: "",
        err: "trace-cmd: word 3: bad filter at byte 0\n",
    },
    Row {
        words: &["report", "-Fsched", "-tF", "a b", "-v", "-F", ","],
        file: Input::Missing,
        status: Status::Usage,
        out: "",
        err: "trace-cmd: word 4: bad filter at byte 2\n",
    },
    Row {
        words: &["report", "-E", "-F", "a:$"],
        file: SWITCHES,
        status: Status::Usage,
        out: "",
        err: "trace-cmd: word 4: bad filter at byte 2\n",
    },
    // all words come before the first filter
    Row {
        words: &["report", "-F", ",", "--workers", "65"],
        file: Input::Missing,
        status: Status::Usage,
        out: "",
        err: "trace-cmd: word 5: bad number\n",
    },
    Row {
        words: &["report", "-F", "a:\"", "-F"],
        file: Input::Missing,
        status: Status::Usage,
        out: "",
        err: "trace-cmd: word 4: value missing\n",
    },
    // the filters have no effect on a list
    Row {
        words: &["report", "-F", "nothing", "-E"],
        file: SWITCHES,
        status: Status::Done,
        out: "ftrace/function\nsched/sched_switch\n",
        err: "",
    },
];

#[test]
fn reports_with_filters(rt: HostRuntime) -> Result<(), Fail> {
    run_all(&rt, ROWS, &[])
}
