// Runs of self-tests. Each line is that of `scripts/selftest_line.py`, which makes no file.

use super::inputs::Input;
use super::{Row, run_all};
use std::test::Fail;
use trace_run::Status;

const ROWS: &[Row] = &[
    Row {
        words: &["selftest", "7", "0"],
        file: Input::Missing,
        status: Status::Done,
        out: "selftest seed=7 events=0 lines=1 bytes=7 sum=1821\n",
        err: "",
    },
    Row {
        words: &["selftest", "0", "1"],
        file: Input::Missing,
        status: Status::Done,
        out: "selftest seed=0 events=1 lines=2 bytes=95 sum=262641\n",
        err: "",
    },
    Row {
        words: &["selftest", "7", "2000"],
        file: Input::Missing,
        status: Status::Done,
        out: "selftest seed=7 events=2000 lines=2001 bytes=179295 sum=4977553195\n",
        err: "",
    },
    Row {
        words: &["selftest", "--workers", "3", "7", "2000"],
        file: Input::Missing,
        status: Status::Done,
        out: "selftest seed=7 events=2000 lines=2001 bytes=179295 sum=4977553195\n",
        err: "",
    },
    Row {
        words: &["selftest", "7", "2000", "--workers=64"],
        file: Input::Missing,
        status: Status::Done,
        out: "selftest seed=7 events=2000 lines=2001 bytes=179295 sum=4977553195\n",
        err: "",
    },
    Row {
        words: &["selftest", "18446744073709551615", "1000"],
        file: Input::Missing,
        status: Status::Done,
        out: "selftest seed=18446744073709551615 events=1000 lines=1001 bytes=89609 sum=2483861648\n",
        err: "",
    },
    Row {
        words: &["selftest", "7"],
        file: Input::Missing,
        status: Status::Usage,
        out: "",
        err: "trace-cmd: word 2: value missing\n",
    },
    Row {
        words: &["selftest", "7", "1000001"],
        file: Input::Missing,
        status: Status::Usage,
        out: "",
        err: "trace-cmd: word 3: bad number\n",
    },
];

#[test]
fn self_tests(rt: HostRuntime) -> Result<(), Fail> {
    run_all(&rt, ROWS, &[])
}
