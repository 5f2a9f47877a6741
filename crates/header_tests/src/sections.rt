// The sections of options and of parts.

use dat_options::{OpenFault, Opt, read_options, read_table, write_options, write_table};
use std::alloc::{AllocError, Global};
use std::process::Abort;
use std::test::Fail;
use trace_base::{ByteText, ListOf, Order, Part};
use trace_outside::{MemFile, MemSink};

// Id 1 with four bytes, id 8 with three, and the end.
const LITTLE: &[u8] = b"\x01\0\x04\0\0\0\0\0\0\0\x08\0\x03\0\0\0abc\0\0";

const BIG: &[u8] = b"\0\x01\0\0\0\x04\0\0\0\0\0\x08\0\0\0\x03abc\0\0";

// 4,096 and 8,192, then 20,480 and 4,096.
const PARTS: [Part; 2] = [
    Part {
        offset: 4096,
        size: 8192,
    },
    Part {
        offset: 20480,
        size: 4096,
    },
];

const TABLE: &[u8] = b"\0\x10\0\0\0\0\0\0\0\x20\0\0\0\0\0\0\0\x50\0\0\0\0\0\0\0\x10\0\0\0\0\0\0";

/// What is told is what was to be told.
pub(crate) fn is(rt: &impl Abort, told: &str, expected: &str) {
    assert!(rt; told == expected, "{told}");
}

/// How many options stand there and the place after them, or the fault.
fn put_options_at(
    text: &mut String,
    found: &Result<(ListOf<Opt>, u64), OpenFault>,
) -> Result<(), AllocError> {
    match found {
        Ok((options, end)) => write!(text, "{} {end}", options.as_slice().len()),
        Err(fault) => write!(text, "{fault}"),
    }
}

/// How many parts stand there and the place after them, or the fault.
fn put_parts_at(
    text: &mut String,
    found: &Result<(ListOf<Part>, u64), OpenFault>,
) -> Result<(), AllocError> {
    match found {
        Ok((parts, end)) => write!(text, "{} {end}", parts.as_slice().len()),
        Err(fault) => write!(text, "{fault}"),
    }
}

fn options_are(
    rt: &impl Abort,
    alloc: Global,
    order: Order,
    bytes: &[u8],
    at: u64,
    expected: &str,
) -> Result<(), AllocError> {
    let mut file = MemFile::new(ByteText::copy(alloc, bytes)?);
    let found = read_options(alloc, order, &mut file, at);
    let mut text = String::new(alloc);
    put_options_at(&mut text, &found)?;
    is(rt, text.as_str(), expected);
    Ok(())
}

fn parts_are(
    rt: &impl Abort,
    alloc: Global,
    cpus: u32,
    bytes: &[u8],
    at: u64,
    expected: &str,
) -> Result<(), AllocError> {
    let mut file = MemFile::new(ByteText::copy(alloc, bytes)?);
    let found = read_table(alloc, Order::Little, cpus, &mut file, at);
    let mut text = String::new(alloc);
    put_parts_at(&mut text, &found)?;
    is(rt, text.as_str(), expected);
    Ok(())
}

/// A list of options, and one of parts, that are cut here.
fn end_early(rt: &impl Abort, alloc: Global, order: Order, bytes: &[u8]) -> Result<(), AllocError> {
    let expected = format!(in alloc; "file ends early at byte {}", bytes.len())?;
    options_are(rt, alloc, order, bytes, 0, expected.as_str())
}

fn parts_end_early(rt: &impl Abort, alloc: Global, bytes: &[u8]) -> Result<(), AllocError> {
    let expected = format!(in alloc; "file ends early at byte {}", bytes.len())?;
    parts_are(rt, alloc, 2, bytes, 0, expected.as_str())
}

/// Places in a list of options, and what is told there. A size is not believed before the file's length.
const OPTIONS: &[(Order, &[u8], u64, &str)] = &[
    (Order::Little, LITTLE, 0, "2 21"),
    (Order::Little, LITTLE, 10, "1 21"),
    (Order::Little, LITTLE, 19, "0 21"),
    (
        Order::Little,
        LITTLE,
        u64::MAX,
        "file ends early at byte 21",
    ),
    (Order::Big, BIG, 0, "2 21"),
    (Order::Big, BIG, 10, "1 21"),
    (Order::Big, BIG, 19, "0 21"),
    (Order::Big, BIG, u64::MAX, "file ends early at byte 21"),
    (
        Order::Little,
        b"\x01\0\xff\xff\xff\xff\0\0",
        0,
        "file ends early at byte 8",
    ),
];

fn cut_options_end_early(
    rt: &impl Abort,
    alloc: Global,
    order: Order,
    bytes: &[u8],
) -> Result<(), AllocError> {
    for cut in 0..bytes.len() {
        end_early(rt, alloc, order, &bytes[..cut])?;
    }
    Ok(())
}

#[test]
fn a_cut_list_of_options_ends_early(rt: HostRuntime) -> Result<(), Fail> {
    cut_options_end_early(&rt, rt.alloc(), Order::Little, LITTLE)?;
    cut_options_end_early(&rt, rt.alloc(), Order::Big, BIG)?;
    for (order, bytes, at, expected) in OPTIONS {
        options_are(&rt, rt.alloc(), *order, bytes, *at, expected)?;
    }
    Ok(())
}

/// How many parts are read at a place of the table. The count is not believed before the file's length.
const TABLES: &[(u32, u64, &str)] = &[
    (2, 0, "2 32"),
    (1, 5, "1 21"),
    (0, 32, "0 32"),
    (0, 33, "file ends early at byte 32"),
    (u32::MAX, 0, "file ends early at byte 32"),
];

#[test]
fn a_cut_table_ends_early(rt: HostRuntime) -> Result<(), Fail> {
    for cut in 0..TABLE.len() {
        parts_end_early(&rt, rt.alloc(), &TABLE[..cut])?;
    }
    for (cpus, at, expected) in TABLES {
        parts_are(&rt, rt.alloc(), *cpus, TABLE, *at, expected)?;
    }
    Ok(())
}

fn put_option(alloc: Global, told: &mut Vec<u8>, option: &Opt) -> Result<(), AllocError> {
    told.extend_from_slice(format!(in alloc; "{}:", option.id)?.as_bytes())?;
    told.extend_from_slice(option.bytes.as_bytes())
}

/// The options, each with its id and its bytes.
fn put_told(alloc: Global, told: &mut Vec<u8>, options: &[Opt]) -> Result<(), AllocError> {
    for option in options {
        put_option(alloc, told, option)?;
    }
    Ok(())
}

fn are_told(rt: &impl Abort, alloc: Global, options: &[Opt]) -> Result<(), AllocError> {
    let mut told = Vec::new(alloc);
    put_told(alloc, &mut told, options)?;
    assert!(rt; told.as_slice() == b"1:\0\0\0\08:abc".as_slice());
    Ok(())
}

/// The same options are written so.
fn are_written(
    rt: &impl Abort,
    alloc: Global,
    order: Order,
    bytes: &[u8],
) -> Result<(), AllocError> {
    let options = vec![in alloc;
        Opt {
            id: 1,
            bytes: ByteText::copy(alloc, &[0; 4])?
        },
        Opt {
            id: 8,
            bytes: ByteText::copy(alloc, b"abc")?
        },
    ]?;
    let mut out = MemSink::new(alloc);
    let written = write_options(order, options.as_slice(), &mut out);
    assert!(rt; written.is_ok() && out.bytes() == bytes);
    Ok(())
}

/// The options are read as they are, and written as they were.
fn go_and_come_back(
    rt: &impl Abort,
    alloc: Global,
    order: Order,
    bytes: &[u8],
) -> Result<(), Fail> {
    let mut file = MemFile::new(ByteText::copy(alloc, bytes)?);
    let (options, _) = read_options(alloc, order, &mut file, 0)?;
    are_told(rt, alloc, options.as_slice())?;
    are_written(rt, alloc, order, bytes)?;
    Ok(())
}

#[test]
fn options_are_written_and_read_again(rt: HostRuntime) -> Result<(), Fail> {
    go_and_come_back(&rt, rt.alloc(), Order::Little, LITTLE)?;
    go_and_come_back(&rt, rt.alloc(), Order::Big, BIG)
}

/// The bytes of parts in an order.
fn table_of(alloc: Global, order: Order, parts: &[Part]) -> Result<ByteText, AllocError> {
    let mut out = MemSink::new(alloc);
    let written = write_table(order, parts, &mut out);
    let bytes = if written.is_ok() { out.bytes() } else { b"" };
    ByteText::copy(alloc, bytes)
}

/// The parts are read again where they were written.
fn are_read_again(
    rt: &impl Abort,
    alloc: Global,
    order: Order,
    parts: &[Part],
    cpus: u32,
) -> Result<(), Fail> {
    let mut file = MemFile::new(table_of(alloc, order, parts)?);
    let (again, _) = read_table(alloc, order, cpus, &mut file, 0)?;
    assert!(rt; again.as_slice() == parts);
    Ok(())
}

// More parts than one write takes.
const MANY: [Part; 200] = [Part {
    offset: 20480,
    size: 4096,
}; 200];

#[test]
fn a_table_is_written_and_read_again(rt: HostRuntime) -> Result<(), Fail> {
    let table = table_of(rt.alloc(), Order::Little, &PARTS)?;
    assert!(rt; table.as_bytes() == TABLE);
    are_read_again(&rt, rt.alloc(), Order::Little, &PARTS, 2)?;
    are_read_again(&rt, rt.alloc(), Order::Big, &MANY, 200)
}

const FAULTS: &[OpenFault] = &[
    OpenFault::NotTrace(0),
    OpenFault::Compressed(10),
    OpenFault::OtherVersion(10),
    OpenFault::BadEndian(12),
    OpenFault::BadLong(13),
    OpenFault::BadPageSize(14),
    OpenFault::BadHeaderPage(38),
    OpenFault::BadSection(87),
    OpenFault::Truncated(113),
    OpenFault::TooManyCpus(83),
    OpenFault::Read,
    OpenFault::Memory,
];

const TEXTS: &str = "not a trace file at byte 0
version 7 is not read at byte 10
unknown version at byte 10
bad byte order at byte 12
bad long size at byte 13
bad page size at byte 14
bad header_page at byte 38
bad section at byte 87
file ends early at byte 113
too many processors at byte 83
read failed
out of memory
";

fn put_faults(text: &mut String) -> Result<(), AllocError> {
    for fault in FAULTS {
        writeln!(text, "{fault}")?;
    }
    Ok(())
}

#[test]
fn faults_are_told_with_their_place(rt: HostRuntime) -> Result<(), Fail> {
    let mut text = String::new(rt.alloc());
    put_faults(&mut text)?;
    is(&rt, text.as_str(), TEXTS);
    Ok(())
}
