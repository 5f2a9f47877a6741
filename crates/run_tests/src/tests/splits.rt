// Splits, whose new files are reported.

use super::inputs::{
    BEFORE_A_SECOND, Carried, Input, LATENCY, MALFORMED_FIRST, MALFORMED_LATER, ONE, Page, Record,
    folder_of,
};
use super::{ends_of, is_absent, is_made};
use dat_header::OpenFault;
use std::alloc::{AllocError, Global};
use std::process::Abort;
use std::test::Fail;
use std::thread::Threads;
use trace_outside::MemFolder;
use trace_run::{CutPlace, Status};

struct Row {
    words: &'static [&'static str],
    file: Input,
    status: Status,
    err: &'static str,
    /// Each new file's name, its size, and its report with whole times.
    files: &'static [(&'static str, usize, &'static str)],
    /// A name that the folder does not have.
    absent: &'static str,
}

/// Five events at the times 10 to 50.
const FIVE: Input = Input::Processors(
    Carried::Nothing,
    &[&[Page::Of(
        10,
        &[
            Record::Event(0, 58, 1, 0, 0),
            Record::Event(10, 58, 2, 0, 0),
            Record::Event(10, 58, 3, 0, 0),
            Record::Event(10, 58, 4, 0, 0),
            Record::Event(10, 58, 5, 0, 0),
        ],
    )]],
);

/// A loss of three alone in its sub-buffer, and an event that fills the next.
const LOSS_AND_LARGE: Input = Input::Processors(
    Carried::Nothing,
    &[&[
        Page::Lossy(1, Some(3), &[]),
        Page::Of(2, &[Record::Large(58, 1)]),
    ]],
);

/// Three events on each of two processors.
const SIX: Input = Input::Processors(
    Carried::Nothing,
    &[
        &[Page::Of(
            10,
            &[
                Record::Event(0, 58, 1, 0, 0),
                Record::Event(10, 58, 1, 0, 0),
                Record::Event(10, 58, 1, 0, 0),
            ],
        )],
        &[Page::Of(
            15,
            &[
                Record::Event(0, 58, 2, 0, 0),
                Record::Event(10, 58, 2, 0, 0),
                Record::Event(10, 58, 2, 0, 0),
            ],
        )],
    ],
);

const ROWS: &[Row] = &[
    Row {
        words: &["split", "-e", "2", "-r", "-o", "part"],
        file: FIVE,
        status: Status::Done,
        err: "",
        files: &[
            (
                "part.1",
                8192,
                "cpus=1\n           <...>-1     [000]     0.000000010: [UNKNOWN EVENT 58]\n           <...>-2     [000]     0.000000020: [UNKNOWN EVENT 58]\n",
            ),
            (
                "part.2",
                8192,
                "cpus=1\n           <...>-3     [000]     0.000000030: [UNKNOWN EVENT 58]\n           <...>-4     [000]     0.000000040: [UNKNOWN EVENT 58]\n",
            ),
            (
                "part.3",
                8192,
                "cpus=1\n           <...>-5     [000]     0.000000050: [UNKNOWN EVENT 58]\n",
            ),
        ],
        absent: "part.4",
    },
    Row {
        words: &["split", "-o", "part"],
        file: LOSS_AND_LARGE,
        status: Status::Done,
        err: "",
        files: &[(
            "part.1",
            12288,
            "cpus=1\nCPU:0 [3 EVENTS DROPPED]\n           <...>-1     [000]     0.000000002: [UNKNOWN EVENT 58]\n",
        )],
        absent: "part.2",
    },
    // a start of six decimals is compared with the rounded time, one of nine with the time itself
    Row {
        words: &["split", "1.000000", "-o", "part"],
        file: BEFORE_A_SECOND,
        status: Status::Done,
        err: "",
        files: &[(
            "part.1",
            8192,
            "cpus=1\n           <...>-1234  [000]     0.999999500: [UNKNOWN EVENT 58]\n",
        )],
        absent: "part.2",
    },
    Row {
        words: &["split", "1.000000000", "-o", "part"],
        file: BEFORE_A_SECOND,
        status: Status::Done,
        err: "",
        files: &[("part.1", 4096, "cpus=1\n")],
        absent: "part.2",
    },
    // a malformed sub-buffer after what was asked for, and before it
    Row {
        words: &["split", "-e", "1", "-o", "p"],
        file: MALFORMED_LATER,
        status: Status::Done,
        err: "",
        files: &[(
            "p.1",
            8192,
            "cpus=2\n           <...>-1     [000]     0.000000010: [UNKNOWN EVENT 58]\n",
        )],
        absent: "p.2",
    },
    Row {
        words: &["split", "-o", "p"],
        file: MALFORMED_LATER,
        status: Status::Malformed(CutPlace { cpu: 1, page: 1 }),
        err: "trace-cmd: trace.dat: malformed sub-page 1 of processor 1\n",
        files: &[(
            "p.1",
            12288,
            "cpus=2\n           <...>-1     [000]     0.000000010: [UNKNOWN EVENT 58]\n           <...>-2     [001]     0.000000020: [UNKNOWN EVENT 58]\n",
        )],
        absent: "p.2",
    },
    // each processor is cut by itself
    Row {
        words: &["split", "-e", "2", "-r", "-c", "-o", "p"],
        file: SIX,
        status: Status::Done,
        err: "",
        files: &[
            (
                "p.1",
                12288,
                "cpus=2\n           <...>-1     [000]     0.000000010: [UNKNOWN EVENT 58]\n           <...>-2     [001]     0.000000015: [UNKNOWN EVENT 58]\n           <...>-1     [000]     0.000000020: [UNKNOWN EVENT 58]\n           <...>-2     [001]     0.000000025: [UNKNOWN EVENT 58]\n",
            ),
            (
                "p.2",
                12288,
                "cpus=2\n           <...>-1     [000]     0.000000030: [UNKNOWN EVENT 58]\n           <...>-2     [001]     0.000000035: [UNKNOWN EVENT 58]\n",
            ),
        ],
        absent: "p.3",
    },
    // the names of new files begin with the input's where no word says otherwise
    Row {
        words: &["split", "0.000000015", "0.000000020", "-C", "1"],
        file: SIX,
        status: Status::Done,
        err: "",
        files: &[(
            "trace.dat.1",
            8192,
            "cpus=2\n           <...>-2     [001]     0.000000015: [UNKNOWN EVENT 58]\n",
        )],
        absent: "trace.dat.2",
    },
    Row {
        words: &["split", "-C", "1", "-o", "p"],
        file: MALFORMED_FIRST,
        status: Status::Done,
        err: "",
        files: &[(
            "p.1",
            8192,
            "cpus=2\n           <...>-2     [001]     0.000000001: [UNKNOWN EVENT 58]\n",
        )],
        absent: "p.2",
    },
    // a processor that the file does not have, and a latency file, which has data of none
    Row {
        words: &["split", "-C", "7", "-o", "p"],
        file: ONE,
        status: Status::Done,
        err: "",
        files: &[("p.1", 4096, "cpus=1\n")],
        absent: "p.2",
    },
    Row {
        words: &["split", "-o", "p"],
        file: LATENCY,
        status: Status::Done,
        err: "",
        files: &[("p.1", 4096, "cpus=1\n")],
        absent: "p.2",
    },
    // many processors, of which the last two have what was asked for
    Row {
        words: &["split", "0.000001990", "-e", "1", "-r", "-o", "p"],
        file: Input::Rising(200),
        status: Status::Done,
        err: "",
        files: &[
            (
                "p.1",
                8192,
                "cpus=200\n           <...>-1     [198]     0.000001990: [UNKNOWN EVENT 58]\n",
            ),
            (
                "p.2",
                8192,
                "cpus=200\n           <...>-1     [199]     0.000002000: [UNKNOWN EVENT 58]\n",
            ),
        ],
        absent: "p.3",
    },
    // nothing is created before the input has a header
    Row {
        words: &["split", "-o", "p"],
        file: Input::Missing,
        status: Status::ReadFault,
        err: "trace-cmd: trace.dat: read failed\n",
        files: &[],
        absent: "p.1",
    },
    Row {
        words: &["split", "-o", "p"],
        file: Input::Bytes(b"x"),
        status: Status::Refused(OpenFault::NotTrace(0)),
        err: "trace-cmd: trace.dat: not a trace file at byte 0\n",
        files: &[],
        absent: "p.1",
    },
    Row {
        words: &["split", "-e", "0"],
        file: ONE,
        status: Status::Usage,
        err: "trace-cmd: word 3: bad number\n",
        files: &[],
        absent: "trace.dat.1",
    },
];

fn are_made<R: Alloc<A = Global> + Abort + Threads + Sync>(
    rt: &R,
    folder: &mut MemFolder,
    files: &[(&str, usize, &str)],
) -> Result<(), AllocError> {
    for (name, size, report) in files {
        is_made(rt, folder, name, *size, (Status::Done, report, ""))?;
    }
    Ok(())
}

fn splits_as<R: Alloc<A = Global> + Abort + Threads + Sync>(
    rt: &R,
    row: &Row,
) -> Result<(), AllocError> {
    let mut folder = folder_of(rt.alloc(), &row.file)?;
    ends_of(rt, row.words, &mut folder, (row.status, "", row.err))?;
    are_made(rt, &mut folder, row.files)?;
    is_absent(rt, &mut folder, row.absent)
}

#[test]
fn splits(rt: HostRuntime) -> Result<(), Fail> {
    for row in ROWS {
        splits_as(&rt, row)?;
    }
    Ok(())
}
