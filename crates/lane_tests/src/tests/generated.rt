//! Whole generated files against those that a script of another language makes, and the line of a report that was
//! written out.

use std::alloc::{AllocError, Global};
use std::test::Fail;
use trace_base::ByteText;
use trace_gen::{generate, summary_line};
use trace_outside::{File, MemFile, read_all};

fn bytes_of(alloc: Global, file: &mut MemFile) -> Result<Vec<u8>, AllocError> {
    let len = file.len() as usize;
    let mut bytes = vec![in alloc; 0u8; len]?;
    let _ = read_all(file, 0, bytes.as_mut_slice());
    Ok(bytes)
}

// The line of a whole file's bytes, in place of a report's.
fn line_of_file(alloc: Global, seed: u64, events: u32) -> Result<ByteText, AllocError> {
    let mut file = generate(alloc, seed, events)?;
    let bytes = bytes_of(alloc, &mut file)?;
    summary_line(alloc, seed, events, bytes.as_slice())
}

const LINES: &[(u64, u32, &str)] = &[
    (
        7,
        0,
        "selftest seed=7 events=0 lines=111 bytes=4096 sum=49784511\n",
    ),
    (
        7,
        1000,
        "selftest seed=7 events=1000 lines=145 bytes=36864 sum=484275417\n",
    ),
    (
        u64::MAX,
        2500,
        "selftest seed=18446744073709551615 events=2500 lines=213 bytes=65536 sum=1141388976\n",
    ),
];

#[test]
fn generates_and_sums_up(rt: HostRuntime) -> Result<(), Fail> {
    for (seed, events, line) in LINES {
        let found = line_of_file(rt.alloc(), *seed, *events)?;
        assert!(rt; found.as_bytes() == line.as_bytes(), "{line}");
    }
    Ok(())
}

#[test]
fn a_report_of_one_line_is_summed_up(rt: HostRuntime) -> Result<(), Fail> {
    let report = summary_line(rt.alloc(), 7, 0, b"cpus=4\n")?;
    let line = b"selftest seed=7 events=0 lines=1 bytes=7 sum=1821\n";
    assert!(rt; report.as_bytes() == line.as_slice());
    Ok(())
}
