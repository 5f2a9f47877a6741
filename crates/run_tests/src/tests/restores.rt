// Restores of a file that was taken apart, whose new files are reported.

use super::inputs::{Input, folder_of};
use super::{ends_of, is_absent, is_made};
use dat_header::OpenFault;
use std::alloc::{AllocError, Global};
use std::process::Abort;
use std::test::Fail;
use std::thread::Threads;
use trace_run::{CutPlace, Status};

struct Row {
    words: &'static [&'static str],
    file: Input,
    status: Status,
    err: &'static str,
    /// How many bytes the new file has, if it is there, and how its report ends, what it prints and what it says.
    made: Option<(usize, (Status, &'static str, &'static str))>,
}

const ONE_LINE: (Status, &str, &str) = (
    Status::Done,
    "cpus=1\n           <...>-1234  [000]     1.000000000: [UNKNOWN EVENT 58]\n",
    "",
);

const ROWS: &[Row] = &[
    Row {
        words: &["restore", "-i", "p.dat", "-o", "out.dat", "c0"],
        file: Input::Apart(83),
        status: Status::Done,
        err: "",
        made: Some((8192, ONE_LINE)),
    },
    // a data file that is no sub-buffer is copied all the same
    Row {
        words: &["restore", "-i", "p.dat", "-o", "out.dat", "c0", "c1"],
        file: Input::Apart(83),
        status: Status::Done,
        err: "",
        made: Some((
            8292,
            (
                Status::Malformed(CutPlace { cpu: 1, page: 0 }),
                "cpus=2\n",
                "trace-cmd: out.dat: malformed sub-page 0 of processor 1\n",
            ),
        )),
    },
    // in front of the command lines, and inside of them
    Row {
        words: &["restore", "-i", "p.dat", "-o", "out.dat", "c0"],
        file: Input::Apart(75),
        status: Status::Done,
        err: "",
        made: Some((8192, ONE_LINE)),
    },
    Row {
        words: &["restore", "-i", "p.dat", "-o", "out.dat", "c0"],
        file: Input::Apart(80),
        status: Status::Refused(OpenFault::Truncated(80)),
        err: "trace-cmd: p.dat: file ends early at byte 80\n",
        made: None,
    },
    Row {
        words: &["restore", "-i", "p.dat"],
        file: Input::Apart(83),
        status: Status::Usage,
        err: "trace-cmd: word 3: value missing\n",
        made: None,
    },
    // the first file that is missing is named, and nothing is created
    Row {
        words: &["restore", "-i", "p.dat", "-o", "out.dat", "c0", "c8", "c9"],
        file: Input::Apart(83),
        status: Status::ReadFault,
        err: "trace-cmd: c8: read failed\n",
        made: None,
    },
];

fn restores_as<R: Alloc<A = Global> + Abort + Threads + Sync>(
    rt: &R,
    row: &Row,
) -> Result<(), AllocError> {
    let mut folder = folder_of(rt.alloc(), &row.file)?;
    ends_of(rt, row.words, &mut folder, (row.status, "", row.err))?;
    match row.made {
        Some((size, report)) => is_made(rt, &mut folder, "out.dat", size, report),
        None => is_absent(rt, &mut folder, "out.dat"),
    }
}

#[test]
fn restores(rt: HostRuntime) -> Result<(), Fail> {
    for row in ROWS {
        restores_as(&rt, row)?;
    }
    Ok(())
}
