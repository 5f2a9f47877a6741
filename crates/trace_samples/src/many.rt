// A trace of many events, and its report.

use crate::traces::TraceFile;
use std::alloc::{AllocError, Global};

// A sub-buffer of so many events of pid 1, a nanosecond apart, the first of them a nanosecond after its time.
fn put_events(bytes: &mut Vec<u8>, time: u64, count: u64) -> Result<(), AllocError> {
    let end = bytes.len().saturating_add(4096);
    bytes.extend_from_slice(&time.to_le_bytes())?;
    bytes.extend_from_slice(&count.saturating_mul(12).to_le_bytes())?;
    for _ in 0..count {
        bytes.extend_from_slice(b"\x22\0\0\0:\0\0\0\x01\0\0\0")?;
    }
    bytes.resize(end, 0)
}

fn first_processor(alloc: Global) -> Result<Vec<u8>, AllocError> {
    let mut bytes = Vec::new(alloc);
    for i in 0..9_u64 {
        put_events(&mut bytes, 340 * i, if i == 8 { 280 } else { 340 })?;
    }
    Ok(bytes)
}

const SECOND_PROCESSOR: &[u8] =
    b"\x01\0\0\0\0\0\0\0\x18\0\0\0\0\0\0\0\x02\0\0\0:\0\0\0\x02\0\0\0\xe2\x70\x02\0:\0\0\0\x02\0\0\0";

/// The file of 3,000 events of pid 1 on one processor, at the times 1 to 3,000 in nine sub-buffers, and of two of pid 2 on
/// another, at the times 1 and 5,000.
pub fn many_events(alloc: Global) -> Result<Vec<u8>, AllocError> {
    let mut trace = TraceFile::new(alloc);
    trace.add_processor(&first_processor(alloc)?)?;
    trace.add_processor(SECOND_PROCESSOR)?;
    trace.bytes(alloc)
}

fn put_line(text: &mut String, cpu: u32, pid: u32, time: u64) -> Result<(), AllocError> {
    write!(
        text,
        "           <...>-{pid}     [{cpu:03}]     0.{time:09}: [UNKNOWN EVENT 58]\n"
    )
}

/// The report of [`many_events`] with whole times.
pub fn many_events_report(alloc: Global) -> Result<String, AllocError> {
    let mut text = String::from_str(alloc, "cpus=2\n")?;
    put_line(&mut text, 0, 1, 1)?;
    put_line(&mut text, 1, 2, 1)?;
    for time in 2..=3000_u64 {
        put_line(&mut text, 0, 1, time)?;
    }
    put_line(&mut text, 1, 2, 5000)?;
    Ok(text)
}
