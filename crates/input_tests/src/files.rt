// Trace files, told in a line.

use std::alloc::{AllocError, Global};
use trace_samples::TraceFile;

/// A sub-buffer.
pub(super) enum Sub {
    /// Its time, and its events by their delta, id and pid.
    Of(u64, &'static [(u32, u16, u32)]),
    /// The same after a loss of events.
    Lossy(u64, &'static [(u32, u16, u32)]),
    /// One that claims more data than it has room for.
    Malformed,
}

/// What the folder has under a name.
pub(super) enum File {
    /// The sub-buffers of each processor.
    Trace(&'static [&'static [Sub]]),
    /// The same, where events of id 58 have this name.
    Named(&'static str, &'static [&'static [Sub]]),
    /// One event of pid 1 at time 5, whose text is so many times `x`.
    Long(usize),
    /// One event of pid 2 at time 2,000, big end first and in a sub-buffer of 8,192 bytes.
    Big,
    Bytes(&'static [u8]),
}

impl File {
    pub(super) fn bytes(&self, alloc: Global) -> Result<Vec<u8>, AllocError> {
        match self {
            File::Trace(processors) => with_format(alloc, b"", processors),
            File::Named(name, processors) => named(alloc, name, processors),
            File::Long(count) => long(alloc, *count),
            File::Big => big(alloc),
            File::Bytes(bytes) => Vec::from_slice(alloc, bytes),
        }
    }
}

const FIELDS: &str = "\nID: 58\nformat:
\tfield:unsigned short common_type;\toffset:0;\tsize:2;\tsigned:0;
\tfield:unsigned char common_flags;\toffset:2;\tsize:1;\tsigned:0;
\tfield:unsigned char common_preempt_count;\toffset:3;\tsize:1;\tsigned:0;
\tfield:int common_pid;\toffset:4;\tsize:4;\tsigned:1;

print fmt: \"";

// An event of eight bytes, after a word of its delta and its length in words.
fn put_event(file: &mut Vec<u8>, delta: u32, id: u16, pid: u32) -> Result<(), AllocError> {
    file.extend_from_slice(&(delta.wrapping_mul(32) | 2).to_le_bytes())?;
    file.extend_from_slice(&u32::from(id).to_le_bytes())?;
    file.extend_from_slice(&pid.to_le_bytes())
}

fn put_events(file: &mut Vec<u8>, events: &[(u32, u16, u32)]) -> Result<(), AllocError> {
    for (delta, id, pid) in events {
        put_event(file, *delta, *id, *pid)?;
    }
    Ok(())
}

// The time, how many bytes are committed, with what is said beside it, and the events.
fn put_data(
    file: &mut Vec<u8>,
    time: u64,
    mark: u64,
    events: &[(u32, u16, u32)],
) -> Result<(), AllocError> {
    let commit = (events.len() as u64).saturating_mul(12) | mark;
    file.extend_from_slice(&time.to_le_bytes())?;
    file.extend_from_slice(&commit.to_le_bytes())?;
    put_events(file, events)
}

fn put_sub(file: &mut Vec<u8>, sub: &Sub) -> Result<(), AllocError> {
    let end = file.len().saturating_add(4096);
    match sub {
        Sub::Of(time, events) => put_data(file, *time, 0, events)?,
        Sub::Lossy(time, events) => put_data(file, *time, 1 << 31, events)?,
        Sub::Malformed => put_data(file, 0, 9000, &[])?,
    }
    file.resize(end, 0)
}

fn put_subs(file: &mut Vec<u8>, subs: &[Sub]) -> Result<(), AllocError> {
    for sub in subs {
        put_sub(file, sub)?;
    }
    Ok(())
}

fn add_processor(alloc: Global, trace: &mut TraceFile, subs: &[Sub]) -> Result<(), AllocError> {
    let mut bytes = Vec::new(alloc);
    put_subs(&mut bytes, subs)?;
    trace.add_processor(&bytes)
}

// A format, unless it is empty, and processors.
fn add_all(
    alloc: Global,
    trace: &mut TraceFile,
    format: &[u8],
    processors: &[&[Sub]],
) -> Result<(), AllocError> {
    if !format.is_empty() {
        trace.add_sched(format)?;
    }
    for subs in processors {
        add_processor(alloc, trace, subs)?;
    }
    Ok(())
}

fn with_format(alloc: Global, format: &[u8], processors: &[&[Sub]]) -> Result<Vec<u8>, AllocError> {
    let mut trace = TraceFile::new(alloc);
    add_all(alloc, &mut trace, format, processors)?;
    trace.bytes(alloc)
}

fn named(alloc: Global, name: &str, processors: &[&[Sub]]) -> Result<Vec<u8>, AllocError> {
    let format = format!(in alloc; "name: {name}{FIELDS}of %d\", REC->common_pid\n")?;
    with_format(alloc, format.as_bytes(), processors)
}

// A format whose text has so many times `x`.
fn put_long_format(format: &mut Vec<u8>, count: usize) -> Result<(), AllocError> {
    format.extend_from_slice(b"name: one")?;
    format.extend_from_slice(FIELDS.as_bytes())?;
    let end = format.len().saturating_add(count);
    format.resize(end, b'x')?;
    format.extend_from_slice(b"\"\n")
}

fn long(alloc: Global, count: usize) -> Result<Vec<u8>, AllocError> {
    let mut format = Vec::new(alloc);
    put_long_format(&mut format, count)?;
    with_format(alloc, &format, &[&[Sub::Of(5, &[(0, 58, 1)])]])
}

/// The header of a big-endian file of one processor, and its sub-buffer. Each is filled up to 8,192 bytes.
const BIG: [&[u8]; 2] = [
    b"\x17\x08\x44tracing6\0\x01\x08\0\0\x20\0header_page\0\0\0\0\0\0\0\0\0header_event\0\0\0\0\0\0\0\0\0\0\0\0\0\0\0\0\0\0\0\0\0\0\0\0\0\0\0\0\0\0\0\0\0\0\0\0\x01flyrecord\0\0\0\0\0\0\0\x20\0\0\0\0\0\0\0\x20\0",
    b"\0\0\0\0\0\0\x07\xd0\0\0\0\0\0\0\0\x0c\x10\0\0\0\0:\0\0\0\0\0\x02",
];

fn put_filled(file: &mut Vec<u8>, pieces: &[&[u8]], len: usize) -> Result<(), AllocError> {
    for piece in pieces {
        let end = file.len().saturating_add(len);
        file.extend_from_slice(piece)?;
        file.resize(end, 0)?;
    }
    Ok(())
}

fn big(alloc: Global) -> Result<Vec<u8>, AllocError> {
    let mut file = Vec::new(alloc);
    put_filled(&mut file, &BIG, 8192)?;
    Ok(file)
}
