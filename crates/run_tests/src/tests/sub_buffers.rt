// Runs over files whose sub-buffers have several pages.

use super::inputs::{common, head, put_longs, put_words, with_part};
use super::{ends_of, is_made};
use dat_header::OpenFault;
use std::alloc::{AllocError, Global};
use std::process::Abort;
use std::test::Fail;
use std::thread::Threads;
use trace_outside::MemFolder;
use trace_run::{CutPlace, Status};

/// A file of pages of 4,096 bytes and one processor: how many bytes of data a sub-buffer has, as the header_page text says it
/// (they stand after 16 bytes); how many sub-buffers stand in the file from its second page on; and how many bytes the table
/// says that they have. Each has an event of 5,000 bytes of pid 7, the first at one second, and each other one a second after
/// the last.
#[derive(Drop)]
struct Trace(u32, u64, u64);

struct Row {
    words: &'static [&'static str],
    trace: Trace,
    status: Status,
    out: &'static str,
    err: &'static str,
}

const ROWS: &[Row] = &[
    Row {
        words: &["report"],
        trace: Trace(8_176, 1, 8_192),
        status: Status::Done,
        out: "cpus=1\n           <...>-7     [000]     1.000000: [UNKNOWN EVENT 58]\n",
        err: "",
    },
    Row {
        words: &["report"],
        trace: Trace(262_128, 2, 524_288),
        status: Status::Done,
        out: "cpus=1\n           <...>-7     [000]     1.000000: [UNKNOWN EVENT 58]\n           <...>-7     [000]     2.000000: [UNKNOWN EVENT 58]\n",
        err: "",
    },
    // no power of two, and less than a page
    Row {
        words: &["report"],
        trace: Trace(12_272, 1, 12_288),
        status: Status::Refused(OpenFault::BadHeaderPage(38)),
        out: "",
        err: BAD_SIZE,
    },
    Row {
        words: &["report"],
        trace: Trace(2_032, 1, 8_192),
        status: Status::Refused(OpenFault::BadHeaderPage(38)),
        out: "",
        err: BAD_SIZE,
    },
    // a part that ends within its first sub-buffer, and one that ends within its second
    Row {
        words: &["report"],
        trace: Trace(8_176, 1, 4_096),
        status: Status::Malformed(CutPlace { cpu: 0, page: 0 }),
        out: "cpus=1\n",
        err: "trace-cmd: trace.dat: malformed sub-page 0 of processor 0\n",
    },
    Row {
        words: &["report", "--workers", "3"],
        trace: Trace(8_176, 2, 12_288),
        status: Status::Malformed(CutPlace { cpu: 0, page: 1 }),
        out: "cpus=1\n           <...>-7     [000]     1.000000: [UNKNOWN EVENT 58]\n",
        err: "trace-cmd: trace.dat: malformed sub-page 1 of processor 0\n",
    },
    Row {
        words: &["dump", "--validate", "--flyrecord"],
        trace: Trace(8_176, 2, 16_384),
        status: Status::Done,
        out: "[flyrecord 1]\ncpu 0 offset 4096 size 16384\nvalid\n",
        err: "",
    },
];

const BAD_SIZE: &str = "trace-cmd: trace.dat: bad header_page at byte 38\n";

fn put_sub_buffer(file: &mut Vec<u8>, size: usize, seconds: u64) -> Result<(), AllocError> {
    let end = file.len().saturating_add(size);
    put_longs(file, &[seconds.wrapping_mul(1_000_000_000), 5_008])?;
    put_words(file, &[head(0, 0), 5_004, common(58, 0, 0), 7])?;
    file.resize(end, 0)
}

fn put_sub_buffers(file: &mut Vec<u8>, size: usize, count: u64) -> Result<(), AllocError> {
    for index in 0..count {
        put_sub_buffer(file, size, index.wrapping_add(1))?;
    }
    Ok(())
}

fn header_page(alloc: Global, data: u32) -> Result<String, AllocError> {
    format!(in alloc;
        "\tfield: u64 timestamp;\toffset:0;\tsize:8;\tsigned:0;
\tfield: local_t commit;\toffset:8;\tsize:8;\tsigned:1;
\tfield: int overwrite;\toffset:8;\tsize:1;\tsigned:1;
\tfield: char data;\toffset:16;\tsize:{data};\tsigned:0;\n"
    )
}

fn file_of(alloc: Global, trace: &Trace) -> Result<Vec<u8>, AllocError> {
    let Trace(data, count, table_size) = *trace;
    let text = header_page(alloc, data)?;
    let mut file = with_part(alloc, text.as_bytes(), 4_096, table_size)?;
    put_sub_buffers(&mut file, (data as usize).saturating_add(16), count)?;
    Ok(file)
}

/// A folder that has the file under the name trace.dat.
fn folder_of(alloc: Global, trace: &Trace) -> Result<MemFolder, AllocError> {
    let file = file_of(alloc, trace)?;
    sample_runs::folder_of(alloc, &file)
}

fn runs_as<R: Alloc<A = Global> + Abort + Threads + Sync>(
    rt: &R,
    row: &Row,
) -> Result<(), AllocError> {
    let mut folder = folder_of(rt.alloc(), &row.trace)?;
    ends_of(rt, row.words, &mut folder, (row.status, row.out, row.err))
}

#[test]
fn sub_buffers_of_several_pages(rt: HostRuntime) -> Result<(), Fail> {
    for row in ROWS {
        runs_as(&rt, row)?;
    }
    Ok(())
}

/// Each new file's name, how many bytes it has, its table, and its report.
const FILES: &[(&str, usize, &str, &str)] = &[
    (
        "part.1",
        69_632,
        "[flyrecord 1]\ncpu 0 offset 4096 size 65536\n",
        "cpus=1\n           <...>-7     [000]     1.000000000: [UNKNOWN EVENT 58]\n",
    ),
    (
        "part.2",
        69_632,
        "[flyrecord 1]\ncpu 0 offset 4096 size 65536\n",
        "cpus=1\n           <...>-7     [000]     2.000000000: [UNKNOWN EVENT 58]\n",
    ),
];

fn is_file<R: Alloc<A = Global> + Abort + Threads + Sync>(
    rt: &R,
    folder: &mut MemFolder,
    expected: &(&str, usize, &str, &str),
) -> Result<(), AllocError> {
    let (name, size, table, report) = *expected;
    ends_of(
        rt,
        &["dump", "--flyrecord", name],
        folder,
        (Status::Done, table, ""),
    )?;
    is_made(rt, folder, name, size, (Status::Done, report, ""))
}

fn are_files<R: Alloc<A = Global> + Abort + Threads + Sync>(
    rt: &R,
    folder: &mut MemFolder,
) -> Result<(), AllocError> {
    for file in FILES {
        is_file(rt, folder, file)?;
    }
    Ok(())
}

const SPLIT: &[&str] = &["split", "-e", "1", "-r", "-o", "part"];

/// New files begin their data with a page, and have the input's sub-buffers.
#[test]
fn a_split_keeps_the_size_of_sub_buffers(rt: HostRuntime) -> Result<(), Fail> {
    let mut folder = folder_of(rt.alloc(), &Trace(65_520, 2, 131_072))?;
    ends_of(&rt, SPLIT, &mut folder, (Status::Done, "", ""))?;
    are_files(&rt, &mut folder)?;
    Ok(())
}

/// What is restored of the header of such a file and of two data files.
const RESTORED: (&str, usize, &str, &str) = (
    "whole",
    135_168,
    "[flyrecord 2]\ncpu 0 offset 4096 size 65536\ncpu 1 offset 69632 size 65536\n",
    "cpus=2\n           <...>-7     [000]     1.000000000: [UNKNOWN EVENT 58]\n           <...>-7     [001]     2.000000000: [UNKNOWN EVENT 58]\n",
);

fn put_data(
    alloc: Global,
    folder: &mut MemFolder,
    name: &str,
    seconds: u64,
) -> Result<(), AllocError> {
    let mut data = Vec::new(alloc);
    put_sub_buffer(&mut data, 65_536, seconds)?;
    folder.put(name, &data)
}

fn put_both(alloc: Global, folder: &mut MemFolder) -> Result<(), AllocError> {
    put_data(alloc, folder, "c0", 1)?;
    put_data(alloc, folder, "c1", 2)
}

const RESTORE: &[&str] = &["restore", "-i", "trace.dat", "-o", "whole", "c0", "c1"];

/// Restored data begin with a page too.
#[test]
fn a_restore_keeps_the_size_of_sub_buffers(rt: HostRuntime) -> Result<(), Fail> {
    let mut folder = folder_of(rt.alloc(), &Trace(65_520, 0, 0))?;
    put_both(rt.alloc(), &mut folder)?;
    ends_of(&rt, RESTORE, &mut folder, (Status::Done, "", ""))?;
    is_file(&rt, &mut folder, &RESTORED)?;
    Ok(())
}
