// Sub-buffers that are spelled by no elements, stamps that go back, and times at the last nanosecond.

use super::runs::{answers, prints, run_line_over};
use std::alloc::{Alloc, AllocError, Global};
use std::process::Abort;
use std::test::Fail;
use std::thread::Threads;
use trace_run::{CutPlace, Status};
use trace_samples::TraceFile;

/// Times, commit words and the bytes of the data: more than there is room for; half a word; a record longer than the data; a
/// length below that of its own word, and so of a discarded record; the first word of two; a time past 64 bits; a discarded
/// record longer than the data.
const MALFORMED: [&[u8]; 8] = [
    b"\0\0\0\0\0\0\0\0\xf1\x0f\0\0\0\0\0\0",
    b"\0\0\0\0\0\0\0\0\x02\0\0\0\0\0\0\0\x02\0\0\0",
    b"\0\0\0\0\0\0\0\0\x08\0\0\0\0\0\0\0\x1c\0\0\0\0\0\0\0",
    b"\0\0\0\0\0\0\0\0\x08\0\0\0\0\0\0\0\0\0\0\0\x03\0\0\0",
    b"\0\0\0\0\0\0\0\0\x08\0\0\0\0\0\0\0\x3d\0\0\0\x03\0\0\0",
    b"\0\0\0\0\0\0\0\0\x04\0\0\0\0\0\0\0\x1e\0\0\0",
    b"\xff\xff\xff\xff\xff\xff\xff\xff\x0c\0\0\0\0\0\0\0\x22\0\0\0:\0\0\0\x01\0\0\0",
    b"\0\0\0\0\0\0\0\0\x0c\0\0\0\0\0\0\0\x3d\0\0\0\x0c\0\0\0\0\0\0\0",
];

fn add_all(trace: &mut TraceFile, processors: &[&[u8]]) -> Result<(), AllocError> {
    for bytes in processors {
        trace.add_processor(bytes)?;
    }
    Ok(())
}

// The file of these processors.
fn file_of(alloc: Global, processors: &[&[u8]]) -> Result<Vec<u8>, AllocError> {
    let mut trace = TraceFile::new(alloc);
    add_all(&mut trace, processors)?;
    trace.bytes(alloc)
}

const FIRST_IS: &[u8] = b"trace-cmd: trace.dat: malformed sub-page 0 of processor 0\n";

fn is_malformed<R: Alloc<A = Global> + Abort + Threads + Sync>(
    rt: &R,
    bytes: &[u8],
) -> Result<(), AllocError> {
    let file = file_of(rt.alloc(), &[bytes])?;
    let status = Status::Malformed(CutPlace { cpu: 0, page: 0 });
    answers(rt, "report", &file, status, b"cpus=1\n", FIRST_IS)
}

#[test]
fn malformed_sub_buffers(rt: HostRuntime) -> Result<(), Fail> {
    for bytes in &MALFORMED {
        is_malformed(&rt, bytes)?;
    }
    Ok(())
}

// An event of pid 1 at the last nanosecond of 64 bits, and one of pid 2.
const LAST: &[u8] =
    b"\xff\xff\xff\xff\xff\xff\xff\xff\x0c\0\0\0\0\0\0\0\x02\0\0\0:\0\0\0\x01\0\0\0";

const LAST_TOO: &[u8] =
    b"\xff\xff\xff\xff\xff\xff\xff\xff\x0c\0\0\0\0\0\0\0\x02\0\0\0:\0\0\0\x02\0\0\0";

// Time 5; a stamp of 3, which is earlier; an event of pid 1; a stamp of 1; an event of pid 2.
const BACK: &[u8] =
    b"\x05\0\0\0\0\0\0\0\x28\0\0\0\0\0\0\0\x7f\0\0\0\0\0\0\0\x02\0\0\0:\0\0\0\x01\0\0\0\x3f\0\0\0\0\0\0\0\x02\0\0\0:\0\0\0\x02\0\0\0";

// An event of pid 3 at time 4.
const AT_FOUR: &[u8] = b"\x04\0\0\0\0\0\0\0\x0c\0\0\0\0\0\0\0\x02\0\0\0:\0\0\0\x03\0\0\0";

/// The words, the sub-buffers of each processor, and the report.
const REPORTS: &[(&str, &[&[u8]], &[u8])] = &[
    (
        "report -t",
        &[LAST],
        b"cpus=1\n           <...>-1     [000] 18446744073.709551615: [UNKNOWN EVENT 58]\n",
    ),
    (
        "report",
        &[LAST],
        b"cpus=1\n           <...>-1     [000] 18446744073.709552: [UNKNOWN EVENT 58]\n",
    ),
    (
        "report -t",
        &[LAST, LAST_TOO, AT_FOUR],
        b"cpus=3\n           <...>-3     [002]     0.000000004: [UNKNOWN EVENT 58]\n           <...>-1     [000] 18446744073.709551615: [UNKNOWN EVENT 58]\n           <...>-2     [001] 18446744073.709551615: [UNKNOWN EVENT 58]\n",
    ),
    (
        "report -t --workers 64",
        &[LAST_TOO, LAST],
        b"cpus=2\n           <...>-2     [000] 18446744073.709551615: [UNKNOWN EVENT 58]\n           <...>-1     [001] 18446744073.709551615: [UNKNOWN EVENT 58]\n",
    ),
    // the greatest time so far orders the two: 3, and not 1, against 4
    (
        "report -t",
        &[AT_FOUR, BACK],
        b"cpus=2\n           <...>-1     [001]     0.000000003: [UNKNOWN EVENT 58]\n           <...>-2     [001]     0.000000001: [UNKNOWN EVENT 58]\n           <...>-3     [000]     0.000000004: [UNKNOWN EVENT 58]\n",
    ),
];

#[test]
fn times_at_the_end_and_back(rt: HostRuntime) -> Result<(), Fail> {
    for (words, processors, out) in REPORTS {
        prints(&rt, words, &file_of(rt.alloc(), processors)?, out)?;
    }
    Ok(())
}

/// Words of splits of an event at the last nanosecond, and whether the first new file has it.
const SPLITS: &[(&str, bool)] = &[
    ("split -o p -r", true),
    ("split -o p -r -u 1", true),
    ("split -o p -r -s 1000000000", true),
    ("split -o p -r -e 1000000000", true),
    ("split -o p 18446744073.709551615", true),
    ("split -o p 18446744073.709552", true),
    ("split -o p 18446744073.709553", false),
    ("split -o p 0 18446744073.709551614", false),
];

fn is_split<R: Alloc<A = Global> + Abort + Threads + Sync>(
    rt: &R,
    file: &[u8],
    line: &str,
    has: bool,
) -> Result<(), AllocError> {
    let (ran, folder) = run_line_over(rt, line, file)?;
    let len = folder.get("p.1").map_or(0, |bytes| bytes.len());
    assert!(rt;
        ran.status == Status::Done
            && len == if has { 8192 } else { 4096 }
            && folder.get("p.2").is_none(),
        "{line}: {len}"
    );
    Ok(())
}

fn all_are_split<R: Alloc<A = Global> + Abort + Threads + Sync>(
    rt: &R,
    file: &[u8],
) -> Result<(), AllocError> {
    for (line, has) in SPLITS {
        is_split(rt, file, line, *has)?;
    }
    Ok(())
}

#[test]
fn splits_at_the_last_nanosecond(rt: HostRuntime) -> Result<(), Fail> {
    let file = file_of(rt.alloc(), &[LAST])?;
    all_are_split(&rt, &file)?;
    Ok(())
}
