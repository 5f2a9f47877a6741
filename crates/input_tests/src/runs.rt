// One run over a file in memory.

use sample_runs::{Ran, folder_of, run_words};
use std::alloc::{Alloc, AllocError, Global};
use std::process::Abort;
use std::thread::Threads;
use trace_base::Words;
use trace_outside::{MemFolder, NoGate};
use trace_run::Status;
use trace_samples::{TraceFile, words_of_line};

/// An event of id 7 and pid 1 at a microsecond.
pub(super) const EVENT: &[u8] =
    b"\xe8\x03\0\0\0\0\0\0\x0c\0\0\0\0\0\0\0\x02\0\0\0\x07\0\0\0\x01\0\0\0";

/// The file of one processor that begins with this event, whose format is this text.
pub(super) fn file_of(alloc: Global, format: &[u8], event: &[u8]) -> Result<Vec<u8>, AllocError> {
    let mut trace = TraceFile::new(alloc);
    trace.add_ftrace(format)?;
    trace.add_processor(event)?;
    trace.bytes(alloc)
}

/// Runs words over a folder with this file under the name trace.dat. The folder comes back with what the run left.
pub(super) fn run_over<R: Alloc<A = Global> + Threads + Sync>(
    rt: &R,
    words: &Words,
    file: &[u8],
) -> Result<(Ran, MemFolder), AllocError> {
    let mut folder = folder_of(rt.alloc(), file)?;
    let ran = run_words(rt, words, &mut folder, &NoGate);
    Ok((ran, folder))
}

/// The same of the words of a line.
pub(super) fn run_line_over<R: Alloc<A = Global> + Threads + Sync>(
    rt: &R,
    line: &str,
    file: &[u8],
) -> Result<(Ran, MemFolder), AllocError> {
    let words = words_of_line(rt.alloc(), line)?;
    run_over(rt, &words, file)
}

/// The words of a line give this status, this output and this message over this file.
pub(super) fn answers<R: Alloc<A = Global> + Abort + Threads + Sync>(
    rt: &R,
    line: &str,
    file: &[u8],
    status: Status,
    out: &[u8],
    err: &[u8],
) -> Result<(), AllocError> {
    let (ran, folder) = run_line_over(rt, line, file)?;
    let is_so = ran.status == status && ran.out.bytes() == out && ran.err.bytes() == err;
    assert!(rt;
        is_so && folder.wants() == 0 && ran.out.wants() == 0,
        "{line}: {:?}",
        ran.status
    );
    Ok(())
}

/// They are done, with this output.
pub(super) fn prints<R: Alloc<A = Global> + Abort + Threads + Sync>(
    rt: &R,
    line: &str,
    file: &[u8],
    out: &[u8],
) -> Result<(), AllocError> {
    answers(rt, line, file, Status::Done, out, b"")
}
