// Several files at once.

use super::files::{File, Sub};
use dat_header::OpenFault;
use sample_runs::{Ran, run_words};
use std::alloc::{Alloc, AllocError, Global};
use std::process::Abort;
use std::test::Fail;
use std::thread::Threads;
use trace_outside::{MemFolder, NoGate};
use trace_run::{CutPlace, Status};
use trace_samples::{LATENCY_FILE, words_of_line};

struct Row {
    /// The words, with a blank between any two.
    line: &'static str,
    files: &'static [(&'static str, File)],
    status: Status,
    out: &'static str,
    err: &'static str,
}

/// One event of pid 1 at time 5.
const ONE: File = File::Trace(&[&[Sub::Of(5, &[(0, 58, 1)])]]);

/// One of pid 2 at the same time.
const TWO: File = File::Trace(&[&[Sub::Of(5, &[(0, 58, 2)])]]);

/// A file of a latency tracer.
const LATENCY: File = File::Bytes(LATENCY_FILE);

/// A malformed sub-buffer alone.
const CUT: File = File::Trace(&[&[Sub::Malformed]]);

/// Events at the times 10 and 30, and a malformed sub-buffer after them.
const CUT_LATE: File = File::Trace(&[&[Sub::Of(10, &[(0, 58, 1), (20, 58, 1)]), Sub::Malformed]]);

/// Of two processors events at the times 20 and 40, and a malformed sub-buffer of the second.
const OTHERS: File = File::Trace(&[
    &[Sub::Of(20, &[(0, 58, 2)])],
    &[Sub::Of(25, &[(0, 58, 3)]), Sub::Malformed],
]);

const ROWS: &[Row] = &[
    Row {
        line: "report -i a.dat -i b.dat",
        files: &[("a.dat", ONE), ("b.dat", TWO)],
        status: Status::Done,
        out: "a.dat: cpus=1\nb.dat: cpus=1\na.dat:            <...>-1     [000]     0.000000: [UNKNOWN EVENT 58]\nb.dat:            <...>-2     [000]     0.000000: [UNKNOWN EVENT 58]\n",
        err: "",
    },
    // the order of the words decides between files
    Row {
        line: "report -i b.dat -i a.dat",
        files: &[("a.dat", ONE), ("b.dat", TWO)],
        status: Status::Done,
        out: "b.dat: cpus=1\na.dat: cpus=1\nb.dat:            <...>-2     [000]     0.000000: [UNKNOWN EVENT 58]\na.dat:            <...>-1     [000]     0.000000: [UNKNOWN EVENT 58]\n",
        err: "",
    },
    // of equal times an earlier file's later processor comes before a later file's earlier one, with workers too
    Row {
        line: "report -i a -i b -i c -t --workers 3",
        files: &[
            (
                "a",
                File::Trace(&[&[Sub::Of(3, &[(0, 58, 1)])], &[Sub::Of(5, &[(0, 58, 2)])]]),
            ),
            (
                "b",
                File::Trace(&[&[Sub::Of(5, &[(0, 58, 3)])], &[Sub::Of(5, &[(0, 58, 4)])]]),
            ),
            (
                "c",
                File::Trace(&[&[Sub::Of(4, &[(0, 58, 5), (1, 58, 6)])]]),
            ),
        ],
        status: Status::Done,
        out: "a: cpus=2\nb: cpus=2\nc: cpus=1\na:            <...>-1     [000]     0.000000003: [UNKNOWN EVENT 58]\nc:            <...>-5     [000]     0.000000004: [UNKNOWN EVENT 58]\na:            <...>-2     [001]     0.000000005: [UNKNOWN EVENT 58]\nb:            <...>-3     [000]     0.000000005: [UNKNOWN EVENT 58]\nb:            <...>-4     [001]     0.000000005: [UNKNOWN EVENT 58]\nc:            <...>-6     [000]     0.000000005: [UNKNOWN EVENT 58]\n",
        err: "",
    },
    // a loss has its file's name too, and is ordered as an event is
    Row {
        line: "report -i a -i b -t",
        files: &[
            (
                "a",
                File::Trace(&[&[Sub::Of(10, &[(0, 58, 1)]), Sub::Lossy(30, &[(10, 58, 1)])]]),
            ),
            (
                "b",
                File::Trace(&[&[Sub::Of(20, &[(0, 58, 2), (10, 58, 2)])]]),
            ),
        ],
        status: Status::Done,
        out: "a: cpus=1\nb: cpus=1\na:            <...>-1     [000]     0.000000010: [UNKNOWN EVENT 58]\nb:            <...>-2     [000]     0.000000020: [UNKNOWN EVENT 58]\na: CPU:0 [EVENTS DROPPED]\nb:            <...>-2     [000]     0.000000030: [UNKNOWN EVENT 58]\na:            <...>-1     [000]     0.000000040: [UNKNOWN EVENT 58]\n",
        err: "",
    },
    // a cut at the start of each file
    Row {
        line: "report -i a.dat -i b.dat",
        files: &[("a.dat", ONE), ("b.dat", CUT)],
        status: Status::Malformed(CutPlace { cpu: 0, page: 0 }),
        out: "a.dat: cpus=1\nb.dat: cpus=1\n",
        err: "trace-cmd: b.dat: malformed sub-page 0 of processor 0\n",
    },
    Row {
        line: "report -i a.dat -i b.dat",
        files: &[("a.dat", CUT), ("b.dat", TWO)],
        status: Status::Malformed(CutPlace { cpu: 0, page: 0 }),
        out: "a.dat: cpus=1\nb.dat: cpus=1\n",
        err: "trace-cmd: a.dat: malformed sub-page 0 of processor 0\n",
    },
    Row {
        line: "report -i a.dat -i b.dat",
        files: &[("a.dat", CUT), ("b.dat", CUT)],
        status: Status::Malformed(CutPlace { cpu: 0, page: 0 }),
        out: "a.dat: cpus=1\nb.dat: cpus=1\n",
        err: "trace-cmd: a.dat: malformed sub-page 0 of processor 0\n",
    },
    // the least cut ends all files, and a latency file between them counts
    Row {
        line: "report -i a.dat -i l -i b.dat -t",
        files: &[("a.dat", CUT_LATE), ("l", LATENCY), ("b.dat", OTHERS)],
        status: Status::Malformed(CutPlace { cpu: 1, page: 1 }),
        out: "a.dat: cpus=1\nl: cpus=1\nb.dat: cpus=2\na.dat:            <...>-1     [000]     0.000000010: [UNKNOWN EVENT 58]\nb.dat:            <...>-2     [000]     0.000000020: [UNKNOWN EVENT 58]\nb.dat:            <...>-3     [001]     0.000000025: [UNKNOWN EVENT 58]\n",
        err: "trace-cmd: b.dat: malformed sub-page 1 of processor 1\n",
    },
    // at the time of the cut an earlier file's events are reached, a later file's are not
    Row {
        line: "report -i a -i b -i c -t",
        files: &[
            (
                "a",
                File::Trace(&[&[Sub::Of(10, &[(0, 58, 1), (30, 58, 1), (5, 58, 1)])]]),
            ),
            (
                "b",
                File::Trace(&[&[Sub::Of(20, &[(0, 58, 2), (20, 58, 2)]), Sub::Malformed]]),
            ),
            (
                "c",
                File::Trace(&[&[Sub::Of(30, &[(0, 58, 3), (10, 58, 3)])]]),
            ),
        ],
        status: Status::Malformed(CutPlace { cpu: 0, page: 1 }),
        out: "a: cpus=1\nb: cpus=1\nc: cpus=1\na:            <...>-1     [000]     0.000000010: [UNKNOWN EVENT 58]\nb:            <...>-2     [000]     0.000000020: [UNKNOWN EVENT 58]\nc:            <...>-3     [000]     0.000000030: [UNKNOWN EVENT 58]\na:            <...>-1     [000]     0.000000040: [UNKNOWN EVENT 58]\nb:            <...>-2     [000]     0.000000040: [UNKNOWN EVENT 58]\n",
        err: "trace-cmd: b: malformed sub-page 1 of processor 0\n",
    },
    // the processors are chosen of each file
    Row {
        line: "report -i a.dat -i b.dat --cpu 0 -t",
        files: &[("a.dat", CUT_LATE), ("b.dat", OTHERS)],
        status: Status::Malformed(CutPlace { cpu: 0, page: 1 }),
        out: "a.dat: cpus=1\nb.dat: cpus=2\na.dat:            <...>-1     [000]     0.000000010: [UNKNOWN EVENT 58]\nb.dat:            <...>-2     [000]     0.000000020: [UNKNOWN EVENT 58]\na.dat:            <...>-1     [000]     0.000000030: [UNKNOWN EVENT 58]\n",
        err: "trace-cmd: a.dat: malformed sub-page 1 of processor 0\n",
    },
    Row {
        line: "report -i a.dat -i b.dat --cpu 1 -t",
        files: &[("a.dat", CUT_LATE), ("b.dat", OTHERS)],
        status: Status::Malformed(CutPlace { cpu: 1, page: 1 }),
        out: "a.dat: cpus=1\nb.dat: cpus=2\nb.dat:            <...>-3     [001]     0.000000025: [UNKNOWN EVENT 58]\n",
        err: "trace-cmd: b.dat: malformed sub-page 1 of processor 1\n",
    },
    // latency files alone
    Row {
        line: "report -i l -i m",
        files: &[("l", LATENCY), ("m", LATENCY)],
        status: Status::Done,
        out: "l: cpus=1\nm: cpus=1\n",
        err: "",
    },
    // one file twice
    Row {
        line: "report -i a.dat -i a.dat",
        files: &[("a.dat", ONE)],
        status: Status::Done,
        out: "a.dat: cpus=1\na.dat: cpus=1\na.dat:            <...>-1     [000]     0.000000: [UNKNOWN EVENT 58]\na.dat:            <...>-1     [000]     0.000000: [UNKNOWN EVENT 58]\n",
        err: "",
    },
    // eight files, and a ninth
    Row {
        line: "report -i a -i b -i a -i b -i a -i b -i a -i b",
        files: &[("a", ONE), ("b", TWO)],
        status: Status::Done,
        out: "a: cpus=1\nb: cpus=1\na: cpus=1\nb: cpus=1\na: cpus=1\nb: cpus=1\na: cpus=1\nb: cpus=1\na:            <...>-1     [000]     0.000000: [UNKNOWN EVENT 58]\nb:            <...>-2     [000]     0.000000: [UNKNOWN EVENT 58]\na:            <...>-1     [000]     0.000000: [UNKNOWN EVENT 58]\nb:            <...>-2     [000]     0.000000: [UNKNOWN EVENT 58]\na:            <...>-1     [000]     0.000000: [UNKNOWN EVENT 58]\nb:            <...>-2     [000]     0.000000: [UNKNOWN EVENT 58]\na:            <...>-1     [000]     0.000000: [UNKNOWN EVENT 58]\nb:            <...>-2     [000]     0.000000: [UNKNOWN EVENT 58]\n",
        err: "",
    },
    Row {
        line: "report -i a -i b -i a -i b -i a -i b -i a -i b -i a",
        files: &[("a", ONE), ("b", TWO)],
        status: Status::Usage,
        out: "",
        err: "trace-cmd: word 18: given twice\n",
    },
    // other byte orders, lengths of sub-buffers and formats, where an id has another meaning in each file
    Row {
        line: "report -i a -i b -i c",
        files: &[
            (
                "a",
                File::Named("one", &[&[Sub::Of(1000, &[(0, 58, 1), (2000, 58, 4)])]]),
            ),
            ("b", File::Big),
            (
                "c",
                File::Named("other", &[&[Sub::Of(2000, &[(0, 58, 3)])]]),
            ),
        ],
        status: Status::Done,
        out: "a: cpus=1\nb: cpus=1\nc: cpus=1\na:            <...>-1     [000]     0.000001: one:                  of 1\nb:            <...>-2     [000]     0.000002: [UNKNOWN EVENT 58]\nc:            <...>-3     [000]     0.000002: other:                of 3\na:            <...>-4     [000]     0.000003: one:                  of 4\n",
        err: "",
    },
    // filters are asked of each file's events
    Row {
        line: "report -i a -i c -F other:common_pid==3",
        files: &[
            ("a", File::Named("one", &[&[Sub::Of(1000, &[(0, 58, 3)])]])),
            (
                "c",
                File::Named("other", &[&[Sub::Of(2000, &[(0, 58, 3), (0, 58, 4)])]]),
            ),
        ],
        status: Status::Done,
        out: "a: cpus=1\nc: cpus=1\nc:            <...>-3     [000]     0.000002: other:                of 3\n",
        err: "",
    },
    // the first that is wrong decides, and none after it is asked for
    Row {
        line: "report -i a -i b",
        files: &[("a", File::Bytes(b"x"))],
        status: Status::Refused(OpenFault::NotTrace(0)),
        out: "",
        err: "trace-cmd: a: not a trace file at byte 0\n",
    },
    Row {
        line: "report -i a -i b -i c",
        files: &[("a", ONE), ("b", File::Bytes(b"x"))],
        status: Status::Refused(OpenFault::NotTrace(0)),
        out: "",
        err: "trace-cmd: b: not a trace file at byte 0\n",
    },
    Row {
        line: "report -i a -i b",
        files: &[("b", File::Bytes(b"x"))],
        status: Status::ReadFault,
        out: "",
        err: "trace-cmd: a: read failed\n",
    },
    Row {
        line: "report -i a -i b -i c",
        files: &[("a", ONE), ("c", File::Bytes(b"x"))],
        status: Status::ReadFault,
        out: "",
        err: "trace-cmd: b: read failed\n",
    },
    // one input is a report as ever
    Row {
        line: "report -i a",
        files: &[("a", ONE)],
        status: Status::Done,
        out: "cpus=1\n           <...>-1     [000]     0.000000: [UNKNOWN EVENT 58]\n",
        err: "",
    },
];

fn put_files(
    alloc: Global,
    folder: &mut MemFolder,
    files: &[(&str, File)],
) -> Result<(), AllocError> {
    for (name, file) in files {
        folder.put(name, &file.bytes(alloc)?)?;
    }
    Ok(())
}

// Runs the words of a line over a folder with these files. The folder comes back with what the run left.
fn run_over_files<R: Alloc<A = Global> + Threads + Sync>(
    rt: &R,
    line: &str,
    files: &[(&str, File)],
) -> Result<(Ran, MemFolder), AllocError> {
    let words = words_of_line(rt.alloc(), line)?;
    let mut folder = MemFolder::new(rt.alloc());
    put_files(rt.alloc(), &mut folder, files)?;
    let ran = run_words(rt, &words, &mut folder, &NoGate);
    Ok((ran, folder))
}

// How often the line names an input.
fn inputs(line: &str) -> u64 {
    let mut count: u64 = 0;
    for word in line.split(' ') {
        if word == "-i" {
            count = count.saturating_add(1);
        }
    }
    count
}

// Each file is opened once for each input at most, and closed; the first that is missing is asked for alone.
fn calls_so(folder: &MemFolder, row: &Row) -> bool {
    let counts = folder.counts();
    let missed = u64::from(row.status == Status::ReadFault);
    counts.opened == counts.closed
        && counts.opened <= inputs(row.line)
        && counts.misses == missed
        && counts.reading == missed
        && counts.created == 0
        && counts.writing == 0
}

fn ends_so(ran: &Ran, row: &Row) -> bool {
    ran.status == row.status
        && ran.out.bytes() == row.out.as_bytes()
        && ran.err.bytes() == row.err.as_bytes()
}

fn runs_so<R: Alloc<A = Global> + Abort + Threads + Sync>(
    rt: &R,
    row: &Row,
) -> Result<(), AllocError> {
    let (ran, folder) = run_over_files(rt, row.line, row.files)?;
    assert!(rt;
        ends_so(&ran, row) && calls_so(&folder, row),
        "{}",
        row.line
    );
    Ok(())
}

#[test]
fn reports_of_several_files(rt: HostRuntime) -> Result<(), Fail> {
    for row in ROWS {
        runs_so(&rt, row)?;
    }
    Ok(())
}

/// A file with a long line, how many times `x` stands in it, and its end. A line of 65,537 bytes is whole, and of a longer one
/// as many bytes stay as of one file alone: its limit does not count the name.
const LONG: &[(&[(&str, File)], usize, &str)] = &[
    (&[("a", File::Long(65_471)), ("b", TWO)], 65_471, ""),
    (&[("a", File::Long(65_472)), ("b", TWO)], 65_468, "..."),
];

const LONG_FRONT: &[u8] =
    b"a: cpus=1\nb: cpus=1\na:            <...>-1     [000]     0.000000: one:                  ";

const AFTER_LONG: &[u8] = b"\nb:            <...>-2     [000]     0.000000: [UNKNOWN EVENT 58]\n";

fn put_report(report: &mut Vec<u8>, count: usize, end: &str) -> Result<(), AllocError> {
    report.extend_from_slice(LONG_FRONT)?;
    report.resize(LONG_FRONT.len().saturating_add(count), b'x')?;
    report.extend_from_slice(end.as_bytes())?;
    report.extend_from_slice(AFTER_LONG)
}

fn is_limited<R: Alloc<A = Global> + Abort + Threads + Sync>(
    rt: &R,
    files: &[(&str, File)],
    count: usize,
    end: &str,
) -> Result<(), AllocError> {
    let mut report = Vec::new(rt.alloc());
    put_report(&mut report, count, end)?;
    let (ran, _) = run_over_files(rt, "report -i a -i b", files)?;
    assert!(rt;
        ran.status == Status::Done && ran.out.bytes() == report.as_slice(),
        "{count}"
    );
    Ok(())
}

#[test]
fn long_lines_of_several_files(rt: HostRuntime) -> Result<(), Fail> {
    for (files, count, end) in LONG {
        is_limited(&rt, files, *count, end)?;
    }
    Ok(())
}

/// Of the first file one sub-buffer, and of the second two.
const LONGER: &[(&str, File)] = &[
    ("a.dat", ONE),
    (
        "b.dat",
        File::Trace(&[&[Sub::Of(5, &[(0, 58, 2)]), Sub::Of(6, &[(0, 58, 2)])]]),
    ),
];

// No more is read than the headers, of 113 bytes each, and the sub-buffers.
#[test]
fn each_byte_is_read_once(rt: HostRuntime) -> Result<(), Fail> {
    let (ran, folder) = run_over_files(&rt, "report -i a.dat -i b.dat", LONGER)?;
    assert!(rt; ran.status == Status::Done && folder.counts().bytes == 113 + 4096 + 113 + 8192);
    Ok(())
}
