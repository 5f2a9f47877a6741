// Sizes and numbers of 2^32 - 1 and 2^64 - 1 in each place of a header that has one. None takes memory that the file does not
// cover: what is told here is the answer.

use super::runs::answers;
use dat_header::OpenFault::{BadPageSize, TooManyCpus, Truncated};
use std::alloc::{Alloc, AllocError, Global};
use std::process::Abort;
use std::test::Fail;
use std::thread::Threads;
use trace_run::Status::{Done, Malformed, Refused};
use trace_run::{CutPlace, Status};
use trace_samples::{ONE_EVENT, TraceFile};

// A header of one processor without texts. Its sizes stand at 30 (header_page), 51 (header_event), 59 (ftrace formats), 63
// (systems), 67 (kallsyms), 71 (printk formats) and 75 (command lines), the number of processors at 83, the last word at 87,
// and the table at 97.
const HEADER: usize = 113;

/// What stands at a place of the header instead. Each asks for more than the file has.
const EARLY: &[(usize, &[u8])] = &[
    (30, b"\xff\xff\xff\xff"),
    (30, b"\xff\xff\xff\xff\xff\xff\xff\xff"),
    (51, b"\xff\xff\xff\xff"),
    (51, b"\xff\xff\xff\xff\xff\xff\xff\xff"),
    // the number of ftrace formats, of which the third has the number of processors in its size, and sizes of one
    (59, b"\xff\xff\xff\xff"),
    (59, b"\x01\0\0\0\xff\xff\xff\xff"),
    (59, b"\x01\0\0\0\xff\xff\xff\xff\xff\xff\xff\xff"),
    // the number of systems, that of a system's events, sizes of one event's format, and a name without an end
    (63, b"\xff\xff\xff\xff"),
    (63, b"\x01\0\0\0s\0\xff\xff\xff\xff"),
    (63, b"\x01\0\0\0s\0\x01\0\0\0\xff\xff\xff\xff"),
    (
        63,
        b"\x01\0\0\0s\0\x01\0\0\0\xff\xff\xff\xff\xff\xff\xff\xff",
    ),
    (
        63,
        b"\x01\0\0\0ssssssssssssssssssssssssssssssssssssssssssssss",
    ),
    (67, b"\xff\xff\xff\xff"),
    (71, b"\xff\xff\xff\xff"),
    (75, b"\xff\xff\xff\xff"),
    (75, b"\xff\xff\xff\xff\xff\xff\xff\xff"),
    (87, b"options  \0\x01\0\xff\xff\xff\xff"),
];

/// How a run ends, what it writes, and what it says.
type Answer = (Status, &'static [u8], &'static [u8]);

/// No sub-buffer is whole.
const CUT_FIRST: Answer = (
    Malformed(CutPlace { cpu: 0, page: 0 }),
    b"cpus=1\n",
    b"trace-cmd: trace.dat: malformed sub-page 0 of processor 0\n",
);

/// The first one is.
const CUT_SECOND: Answer = (
    Malformed(CutPlace { cpu: 0, page: 1 }),
    b"cpus=1\n           <...>-1234  [000]     1.000000: [UNKNOWN EVENT 58]\n",
    b"trace-cmd: trace.dat: malformed sub-page 1 of processor 0\n",
);

const NOT_SPLIT: Answer = (
    Malformed(CutPlace { cpu: 0, page: 1 }),
    b"",
    b"trace-cmd: trace.dat: malformed sub-page 1 of processor 0\n",
);

const BAD_PAGE_SIZE: Answer = (
    Refused(BadPageSize(14)),
    b"",
    b"trace-cmd: trace.dat: bad page size at byte 14\n",
);

const TOO_MANY: Answer = (
    Refused(TooManyCpus(83)),
    b"",
    b"trace-cmd: trace.dat: too many processors at byte 83\n",
);

const VALID: Answer = (
    Done,
    b"[flyrecord 1]\ncpu 0 offset 18446744073709551615 size 18446744073709551615\nvalid\n",
    b"",
);

const GREATEST: &[u8] = b"\xff\xff\xff\xff\xff\xff\xff\xff";

/// What stands at a place of the header instead, how much of the file there is, the words, and the answer.
const OTHERS: &[(usize, &[u8], usize, &str, Answer)] = &[
    (14, b"\xff\xff\xff\xff", HEADER, "report", BAD_PAGE_SIZE),
    (83, b"\xff\xff\xff\xff", HEADER, "report", TOO_MANY),
    // parts that begin past the file, or past all files, and parts that end there
    (97, b"\xff\xff\xff\xff", 8192, "report", CUT_FIRST),
    (97, GREATEST, 8192, "report", CUT_FIRST),
    (
        97,
        b"\0\xf0\xff\xff\xff\xff\xff\xff",
        8192,
        "report",
        CUT_FIRST,
    ),
    (105, b"\xff\xff\xff\xff", 8192, "report", CUT_SECOND),
    (105, GREATEST, 8192, "report", CUT_SECOND),
    (105, GREATEST, 8192, "split -o p", NOT_SPLIT),
    (
        97,
        b"\xff\xff\xff\xff\xff\xff\xff\xff\xff\xff\xff\xff\xff\xff\xff\xff",
        HEADER,
        "dump --flyrecord --validate",
        VALID,
    ),
];

fn one_processor(alloc: Global) -> Result<Vec<u8>, AllocError> {
    let mut trace = TraceFile::new(alloc);
    trace.add_processor(ONE_EVENT)?;
    trace.bytes(alloc)
}

fn patch(file: &mut [u8], place: usize, bytes: &[u8]) {
    for (i, byte) in bytes.iter().enumerate() {
        if let Some(old) = file.get_mut(place.saturating_add(i)) {
            *old = *byte;
        }
    }
}

// The first bytes of the file, with these at a place of its header.
fn patched(alloc: Global, place: usize, bytes: &[u8], len: usize) -> Result<Vec<u8>, AllocError> {
    let mut file = one_processor(alloc)?;
    file.truncate(len);
    patch(&mut file, place, bytes);
    Ok(file)
}

const ENDS_EARLY: &[u8] = b"trace-cmd: trace.dat: file ends early at byte 113\n";

fn is_early<R: Alloc<A = Global> + Abort + Threads + Sync>(
    rt: &R,
    file: &[u8],
) -> Result<(), AllocError> {
    for line in ["report", "dump", "split -o p"] {
        answers(
            rt,
            line,
            file,
            Refused(Truncated(HEADER as u64)),
            b"",
            ENDS_EARLY,
        )?;
    }
    Ok(())
}

fn is_patched_early<R: Alloc<A = Global> + Abort + Threads + Sync>(
    rt: &R,
    place: usize,
    bytes: &[u8],
) -> Result<(), AllocError> {
    let file = patched(rt.alloc(), place, bytes, HEADER)?;
    assert!(rt; file.len() == HEADER, "{place}");
    is_early(rt, &file)
}

#[test]
fn sizes_past_the_end(rt: HostRuntime) -> Result<(), Fail> {
    for (place, bytes) in EARLY {
        is_patched_early(&rt, *place, bytes)?;
    }
    Ok(())
}

#[test]
fn other_numbers_past_their_ranges(rt: HostRuntime) -> Result<(), Fail> {
    for (place, bytes, len, line, (status, out, err)) in OTHERS {
        let file = patched(rt.alloc(), *place, bytes, *len)?;
        answers(&rt, line, &file, *status, out, err)?;
    }
    Ok(())
}
