// Files that are not there or are no traces, words without a reading, and words that ask what the program tells of itself.

use super::inputs::{HEADER, Input, folder_of};
use super::{Row, ends_of};
use dat_header::OpenFault;
use std::alloc::{AllocError, Global};
use std::process::Abort;
use std::test::Fail;
use std::thread::Threads;
use trace_run::Status;

const ROWS: &[Row] = &[
    Row {
        words: &["report"],
        file: Input::Missing,
        status: Status::ReadFault,
        out: "",
        err: "trace-cmd: trace.dat: read failed\n",
    },
    Row {
        words: &["report", ""],
        file: Input::Bytes(HEADER),
        status: Status::ReadFault,
        out: "",
        err: "trace-cmd: : read failed\n",
    },
    Row {
        words: &["report", "trace.dat"],
        file: Input::Bytes(b"x"),
        status: Status::Refused(OpenFault::NotTrace(0)),
        out: "",
        err: "trace-cmd: trace.dat: not a trace file at byte 0\n",
    },
    Row {
        words: &["report"],
        file: Input::Bytes(b"\x17\x08\x44tracing7\0"),
        status: Status::Refused(OpenFault::Compressed(10)),
        out: "",
        err: "trace-cmd: trace.dat: version 7 is not read at byte 10\n",
    },
    // the words' faults
    Row {
        words: &[],
        file: Input::Missing,
        status: Status::Usage,
        out: "",
        err: "trace-cmd: word 1: no command\n",
    },
    Row {
        words: &["--version", "report"],
        file: Input::Missing,
        status: Status::Done,
        out: "trace_cmd 1.0.0\n",
        err: "",
    },
    Row {
        words: &["restore", "--help", "-x"],
        file: Input::Missing,
        status: Status::Done,
        out: "\
trace_cmd restore: make a trace file of what an interrupted recording left.

Usage: trace_cmd restore -i PARTIAL [-o FILE] CPUFILE ..

  -i PARTIAL    read the descriptions from this file; it must be given
  -o FILE       make this file; without it, trace.dat
  -h, --help    print this text

Each CPUFILE has the raw data of one processor. There are 1 to 256 of them, in
the order of the processors.
Read more: man trace_cmd
",
        err: "",
    },
    Row {
        words: &["report", "--cpu", "4-2", "--help"],
        file: Input::Missing,
        status: Status::Usage,
        out: "",
        err: "trace-cmd: word 3: bad processor list\n",
    },
    Row {
        words: &["report", "a", "b"],
        file: Input::Missing,
        status: Status::Usage,
        out: "",
        err: "trace-cmd: word 3: given twice\n",
    },
    Row {
        words: &["report", "-tl", "--workers=65"],
        file: Input::Missing,
        status: Status::Usage,
        out: "",
        err: "trace-cmd: word 3: bad number\n",
    },
];

fn len_of(file: &Input) -> u64 {
    match file {
        Input::Bytes(bytes) => bytes.len() as u64,
        _ => 0,
    }
}

// A row's run, which reads each byte of its file at most once.
fn reads_once<R: Alloc<A = Global> + Abort + Threads + Sync>(
    rt: &R,
    row: &Row,
) -> Result<(), AllocError> {
    let mut folder = folder_of(rt.alloc(), &row.file)?;
    ends_of(rt, row.words, &mut folder, (row.status, row.out, row.err))?;
    assert!(rt; folder.counts().bytes <= len_of(&row.file), "{}", row.err);
    Ok(())
}

#[test]
fn no_trace_is_shown(rt: HostRuntime) -> Result<(), Fail> {
    for row in ROWS {
        reads_once(&rt, row)?;
    }
    Ok(())
}
