// A trace of two processors cut after each of its bytes.

use super::runs::{answers, prints, run_line_over};
use dat_header::OpenFault;
use std::alloc::{Alloc, AllocError, Global};
use std::process::Abort;
use std::test::Fail;
use std::thread::Threads;
use trace_outside::MemFolder;
use trace_run::{CutPlace, Status};
use trace_samples::{SWITCH_HEADER, SWITCH_REPORT, switch_file};

const HEADER: usize = SWITCH_HEADER as usize;

fn front_of(file: &[u8], len: usize) -> &[u8] {
    match file.split_at_checked(len) {
        Some((front, _)) => front,
        None => &[],
    }
}

// The first so many bytes end inside the header: nothing is read of them.
fn is_early<R: Alloc<A = Global> + Abort + Threads + Sync>(
    rt: &R,
    file: &[u8],
    len: usize,
) -> Result<(), AllocError> {
    let front = front_of(file, len);
    let status = Status::Refused(OpenFault::Truncated(len as u64));
    let early = format!(in rt.alloc(); "trace-cmd: trace.dat: file ends early at byte {len}\n")?;
    answers(rt, "report", front, status, b"", early.as_bytes())?;
    answers(rt, "dump --validate", front, status, b"", early.as_bytes())
}

/// How a report of the first so many bytes, with the whole header, ends.
fn status_of(len: usize) -> Status {
    if len < 20_480 {
        Status::Malformed(CutPlace { cpu: 0, page: 0 })
    } else if len < 24_576 {
        Status::Malformed(CutPlace { cpu: 1, page: 0 })
    } else {
        Status::Done
    }
}

// Its output and message.
fn told(status: Status) -> (&'static [u8], &'static [u8]) {
    match status {
        Status::Malformed(CutPlace { cpu: 0, .. }) => (
            b"cpus=2\n",
            b"trace-cmd: trace.dat: malformed sub-page 0 of processor 0\n",
        ),
        Status::Malformed(_) => (
            b"cpus=2\n",
            b"trace-cmd: trace.dat: malformed sub-page 0 of processor 1\n",
        ),
        _ => (SWITCH_REPORT, b""),
    }
}

// The first so many bytes have the whole header: it is valid, and the report ends where a sub-buffer is not there.
fn is_reported<R: Alloc<A = Global> + Abort + Threads + Sync>(
    rt: &R,
    file: &[u8],
    len: usize,
) -> Result<(), AllocError> {
    let front = front_of(file, len);
    assert!(rt; front.len() == len, "{len}");
    let status = status_of(len);
    let (out, err) = told(status);
    answers(rt, "report", front, status, out, err)?;
    prints(rt, "dump --validate", front, b"valid\n")
}

fn all_are_early<R: Alloc<A = Global> + Abort + Threads + Sync>(
    rt: &R,
    file: &[u8],
) -> Result<(), AllocError> {
    for len in 0..HEADER {
        is_early(rt, file, len)?;
    }
    Ok(())
}

#[test]
fn each_cut_of_a_header(rt: HostRuntime) -> Result<(), Fail> {
    let file = switch_file(rt.alloc())?;
    all_are_early(&rt, &file)?;
    Ok(())
}

fn all_are_reported<R: Alloc<A = Global> + Abort + Threads + Sync>(
    rt: &R,
    file: &[u8],
) -> Result<(), AllocError> {
    for more in 0..=64_usize {
        is_reported(rt, file, HEADER + more)?;
    }
    Ok(())
}

fn ends_are_reported<R: Alloc<A = Global> + Abort + Threads + Sync>(
    rt: &R,
    file: &[u8],
) -> Result<(), AllocError> {
    for len in [16_384, 20_479, 20_480, 24_575, 24_576] {
        is_reported(rt, file, len)?;
    }
    Ok(())
}

#[test]
fn cuts_behind_a_header(rt: HostRuntime) -> Result<(), Fail> {
    let file = switch_file(rt.alloc())?;
    assert!(rt; file.len() == 24_576);
    all_are_reported(&rt, &file)?;
    ends_are_reported(&rt, &file)?;
    Ok(())
}

// A split of the first so many bytes makes a file where they have the whole header.
fn has_split(folder: &MemFolder, len: usize) -> bool {
    folder.get("p.1").is_some() == (len >= HEADER) && folder.get("p.2").is_none()
}

// A split of a cut trace makes what stands before the cut.
fn is_split<R: Alloc<A = Global> + Abort + Threads + Sync>(
    rt: &R,
    file: &[u8],
    len: usize,
) -> Result<(), AllocError> {
    let status = if len < HEADER {
        Status::Refused(OpenFault::Truncated(len as u64))
    } else {
        status_of(len)
    };
    let (ran, folder) = run_line_over(rt, "split -o p", front_of(file, len))?;
    assert!(rt; ran.status == status && has_split(&folder, len), "{len}");
    Ok(())
}

fn all_are_split<R: Alloc<A = Global> + Abort + Threads + Sync>(
    rt: &R,
    file: &[u8],
) -> Result<(), AllocError> {
    for len in [0, 1, 2217, 2218, 20_479, 20_480, 24_575, 24_576] {
        is_split(rt, file, len)?;
    }
    Ok(())
}

#[test]
fn splits_of_cut_traces(rt: HostRuntime) -> Result<(), Fail> {
    let file = switch_file(rt.alloc())?;
    all_are_split(&rt, &file)?;
    Ok(())
}
