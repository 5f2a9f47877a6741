// Traces without formats and names.

use std::alloc::Global;
use std::test::Fail;
use trace_samples::{Page, TraceFile, put_pages};

/// The file of a trace with these sub-buffers of each processor.
pub(super) fn file_of(alloc: Global, cpus: &[&[Page<'_>]]) -> Result<Vec<u8>, Fail> {
    let mut trace = TraceFile::new(alloc);
    for pages in cpus {
        let mut bytes = Vec::new(alloc);
        put_pages(&mut bytes, pages)?;
        trace.add_processor(&bytes)?;
    }
    Ok(trace.bytes(alloc)?)
}
