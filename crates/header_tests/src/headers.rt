// Whole headers.

ghost use Rattle.std.specs.Prelude.{IfOk};
ghost use Rattle.dat_header.specs.Allowed.{IsHeader};

use crate::sections::is;
use dat_header::{
    Body, Header, OpenFault, read_header, text_before_table, write_header, write_with_table,
};
use dat_options::Opt;
use std::alloc::{AllocError, Global};
use std::process::Abort;
use std::test::Fail;
use trace_base::{ByteText, Part};
use trace_outside::{MemFile, MemSink};

// The header of a little-endian file of one processor, with all texts empty and all counts 0. The page size stands at 14, the
// size of the header_page text at 30, that of the symbols at 67, the number of processors at 83 and the last word at 87.
const PLAIN: [u8; 113] =
    *b"\x17\x08\x44tracing6\0\0\x08\0\x10\0\0header_page\0\0\0\0\0\0\0\0\0header_event\0\
\0\0\0\0\0\0\0\0\0\0\0\0\0\0\0\0\0\0\0\0\0\0\0\0\0\0\0\0\0\0\0\0\x01\0\0\0flyrecord\0\0\0\0\0\0\0\0\0\0\0\0\0\0\0\0\0";

// A big-endian file of long 4 and page size 8,192 in which each item has something.
const BEFORE_TEXT: &[u8] = b"\x17\x08\x44tracing6\0\x01\x04\0\0\x20\0header_page\0\0\0\0\0\0\0\0";

const PAGE_TEXT: &[u8] = b"\tfield: u64 timestamp;\toffset:0;\tsize:8;\tsigned:0;
\tfield: local_t commit;\toffset:8;\tsize:4;\tsigned:1;
\tfield: char data;\toffset:12;\tsize:8180;\tsigned:0;
";

const BEHIND_TEXT: &[u8] = b"header_event\0\0\0\0\0\0\0\0\x05event\
\0\0\0\x02\0\0\0\0\0\0\0\x03one\0\0\0\0\0\0\0\0\
\0\0\0\x01sched\0\0\0\0\x01\0\0\0\0\0\0\0\x06switch\
\0\0\0\x04kall\0\0\0\x02pr\0\0\0\0\0\0\0\x07cmdline\
\0\0\0\x02options  \0\0\x03\0\0\0\x01x\0\x09\0\0\0\0\0\0flyrecord\0\
\0\0\0\0\0\0\x40\0\0\0\0\0\0\0\x20\0\0\0\0\0\0\0\x60\0\0\0\0\0\0\0\0\0";

fn put_whole(bytes: &mut Vec<u8>) -> Result<(), AllocError> {
    let len = [(PAGE_TEXT.len() % 256) as u8];
    for piece in [BEFORE_TEXT, &len, PAGE_TEXT, BEHIND_TEXT] {
        bytes.extend_from_slice(piece)?;
    }
    Ok(())
}

fn whole(alloc: Global) -> Result<Vec<u8>, AllocError> {
    let mut bytes = Vec::new(alloc);
    put_whole(&mut bytes)?;
    Ok(bytes)
}

/// The header that a file begins with.
pub(crate) fn open(alloc: Global, bytes: &[u8]) -> Result<Header, Fail>
    ensures allowed { IfOk result IsHeader }
{
    let mut file = MemFile::new(ByteText::copy(alloc, bytes)?);
    Ok(read_header(alloc, &mut file)?)
}

/// Why a file is no trace, or nothing.
fn put_fault(text: &mut String, header: &Result<Header, OpenFault>) -> Result<(), AllocError> {
    match header {
        Ok(_) => Ok(()),
        Err(fault) => write!(text, "{fault}"),
    }
}

fn has_fault(
    rt: &impl Abort,
    alloc: Global,
    bytes: &[u8],
    expected: &str,
) -> Result<(), AllocError> {
    let mut file = MemFile::new(ByteText::copy(alloc, bytes)?);
    let header = read_header(alloc, &mut file);
    let mut text = String::new(alloc);
    put_fault(&mut text, &header)?;
    is(rt, text.as_str(), expected);
    Ok(())
}

fn edit(bytes: &mut [u8], at: usize, with: &[u8]) {
    for (slot, byte) in bytes.iter_mut().skip(at).zip(with) {
        *slot = *byte;
    }
}

/// The plain header with other bytes from a place on, cut to a length.
fn edited(alloc: Global, at: usize, with: &[u8], cut: usize) -> Result<Vec<u8>, AllocError> {
    let mut bytes = PLAIN.to_vec(alloc)?;
    edit(&mut bytes, at, with);
    bytes.truncate(cut);
    Ok(bytes)
}

/// The plain header, edited so, is refused so.
fn is_refused(
    rt: &impl Abort,
    alloc: Global,
    edit: (usize, &[u8], usize),
    expected: &str,
) -> Result<(), AllocError> {
    let bytes = edited(alloc, edit.0, edit.1, edit.2)?;
    has_fault(rt, alloc, &bytes, expected)
}

const WRONG: &[((usize, &[u8], usize), &str)] = &[
    ((0, b"", 0), "file ends early at byte 0"),
    ((0, b"x", 1), "not a trace file at byte 0"),
    ((9, b"G", 113), "not a trace file at byte 0"),
    ((10, b"7", 113), "version 7 is not read at byte 10"),
    ((10, b"7", 11), "unknown version at byte 10"),
    ((10, b"5", 113), "unknown version at byte 10"),
    ((10, b"6", 11), "file ends early at byte 11"),
    ((12, b"\x02", 113), "bad byte order at byte 12"),
    ((13, b"\x05", 113), "bad long size at byte 13"),
    ((14, b"\x88\x13\0\0", 113), "bad page size at byte 14"),
    ((14, b"\x88\x13\0", 17), "file ends early at byte 17"),
    ((14, b"\0\x08\0\0", 113), "bad page size at byte 14"),
    ((18, b"header_pagE", 113), "bad section at byte 18"),
    ((30, b"\x01", 113), "bad header_page at byte 38"),
    ((30, b"\x4c", 113), "file ends early at byte 113"),
    // Counts of formats and of systems that no file could have: no memory is asked for them.
    (
        (59, b"\xff\xff\xff\xff", 113),
        "file ends early at byte 113",
    ),
    (
        (63, b"\xff\xff\xff\xff", 113),
        "file ends early at byte 113",
    ),
    ((67, b"\x0a", 75), "file ends early at byte 75"),
    ((83, b"\x01\x04\0\0", 113), "too many processors at byte 83"),
    ((87, b"x", 113), "bad section at byte 87"),
    ((87, b"o", 88), "file ends early at byte 88"),
    ((87, b"options  \0\0\0o", 100), "bad section at byte 99"),
    (
        (87, b"options  \0\0\0l", 100),
        "file ends early at byte 100",
    ),
    (
        (87, b"options  \0\0\0options  \0", 113),
        "bad section at byte 99",
    ),
    (
        (87, b"options  \0\x01\0\x0b\0\0\0", 113),
        "file ends early at byte 113",
    ),
];

#[test]
fn what_is_wrong_is_told_with_its_place(rt: HostRuntime) -> Result<(), Fail> {
    for (edit, expected) in WRONG {
        is_refused(&rt, rt.alloc(), *edit, expected)?;
    }
    Ok(())
}

fn ends_early(rt: &impl Abort, alloc: Global, bytes: &[u8]) -> Result<(), AllocError> {
    let expected = format!(in alloc; "file ends early at byte {}", bytes.len())?;
    has_fault(rt, alloc, bytes, expected.as_str())
}

fn all_end_early(rt: &impl Abort, alloc: Global, bytes: &[u8]) -> Result<(), AllocError> {
    for cut in 0..bytes.len() {
        ends_early(rt, alloc, &bytes[..cut])?;
    }
    Ok(())
}

#[test]
fn a_cut_header_ends_early(rt: HostRuntime) -> Result<(), Fail> {
    let bytes = whole(rt.alloc())?;
    all_end_early(&rt, rt.alloc(), &bytes)?;
    Ok(())
}

/// Words by the places of their bytes, and how a wrong byte in one is told.
const WORDS: &[(usize, usize, &str)] = &[
    (0, 10, "not a trace file at byte 0"),
    (10, 12, "unknown version at byte 10"),
    (18, 30, "bad section at byte 18"),
    (38, 51, "bad section at byte 38"),
    (87, 97, "bad section at byte 87"),
];

fn each_byte_counts(
    rt: &impl Abort,
    alloc: Global,
    from: usize,
    to: usize,
    expected: &str,
) -> Result<(), AllocError> {
    for at in from..to {
        is_refused(rt, alloc, (at, b"\xff", 113), expected)?;
    }
    Ok(())
}

#[test]
fn a_wrong_byte_of_a_word_is_refused(rt: HostRuntime) -> Result<(), Fail> {
    for (from, to, expected) in WORDS {
        each_byte_counts(&rt, rt.alloc(), *from, *to, expected)?;
    }
    Ok(())
}

/// The numbers of a header.
fn put_numbers(header: &Header, told: &mut String) -> Result<(), AllocError> {
    let layout = &header.layout;
    write!(told, "{:?} {} {}", header.order, header.long, header.page)?;
    write!(told, " {} {}", layout.time_at, layout.commit_at)?;
    write!(told, " {} {}", layout.commit_size, layout.data_at)?;
    write!(told, " {} {} ", header.cpus, header.end)
}

fn put_parts(parts: &[Part], told: &mut String) -> Result<(), AllocError> {
    for part in parts {
        write!(told, "{}+{} ", part.offset, part.size)?;
    }
    Ok(())
}

/// Where the data of a header's processors stand.
fn put_body(body: &Body, told: &mut String) -> Result<(), AllocError> {
    match body {
        Body::Latency => told.push_str("latency"),
        Body::Fly(parts) => put_parts(parts.as_slice(), told),
    }
}

fn put_option(alloc: Global, option: &Opt, told: &mut Vec<u8>) -> Result<(), AllocError> {
    told.extend_from_slice(format!(in alloc; "{}:", option.id)?.as_bytes())?;
    told.extend_from_slice(option.bytes.as_bytes())?;
    told.extend_from_slice(b" ")
}

/// The options of a header, each with its id and its bytes.
fn put_options(alloc: Global, header: &Header, told: &mut Vec<u8>) -> Result<(), AllocError> {
    let Some(options) = &header.options else {
        return told.extend_from_slice(b"none");
    };
    for option in options.as_slice() {
        put_option(alloc, option, told)?;
    }
    Ok(())
}

fn put_texts(texts: &[ByteText], told: &mut Vec<u8>) -> Result<(), AllocError> {
    for text in texts {
        put_line(text, told)?;
    }
    Ok(())
}

fn put_line(text: &ByteText, told: &mut Vec<u8>) -> Result<(), AllocError> {
    told.push(b'\n')?;
    told.extend_from_slice(text.as_bytes())
}

fn put_systems(header: &Header, told: &mut Vec<u8>) -> Result<(), AllocError> {
    for system in header.systems.as_slice() {
        put_line(&system.name, told)?;
        put_texts(system.formats.as_slice(), told)?;
    }
    Ok(())
}

fn put_own_texts(header: &Header, told: &mut Vec<u8>) -> Result<(), AllocError> {
    for text in [
        &header.page_text,
        &header.event_text,
        &header.kallsyms,
        &header.printk,
        &header.cmdlines,
    ] {
        put_line(text, told)?;
    }
    Ok(())
}

/// The texts and lists of a header, each after a newline.
fn put_contents(header: &Header, told: &mut Vec<u8>) -> Result<(), AllocError> {
    put_own_texts(header, told)?;
    put_texts(header.ftrace.as_slice(), told)?;
    put_systems(header, told)
}

fn put_head(alloc: Global, header: &Header, told: &mut Vec<u8>) -> Result<(), AllocError> {
    let mut head = String::new(alloc);
    put_numbers(header, &mut head)?;
    put_body(&header.body, &mut head)?;
    told.extend_from_slice(head.as_bytes())
}

/// What a header says: numbers, parts, options and texts.
fn put_told(alloc: Global, header: &Header, told: &mut Vec<u8>) -> Result<(), AllocError> {
    put_head(alloc, header, told)?;
    put_options(alloc, header, told)?;
    put_contents(header, told)
}

/// A header says just this.
fn says(
    rt: &impl Abort,
    alloc: Global,
    header: &Header,
    expected: &[u8],
) -> Result<(), AllocError> {
    let mut told = Vec::new(alloc);
    put_told(alloc, header, &mut told)?;
    assert!(rt; told.as_slice() == expected);
    Ok(())
}

/// Edits of the plain header, and what it says then.
const EDITED: &[((usize, &[u8], usize), &[u8])] = &[
    (
        (0, b"", 113),
        b"Little 8 4096 0 8 8 16 1 113 0+0 none\n\n\n\n\n",
    ),
    (
        (83, b"\0", 97),
        b"Little 8 4096 0 8 8 16 0 97 none\n\n\n\n\n",
    ),
    (
        (87, b"latency  \0hello\n", 103),
        b"Little 8 4096 0 8 8 16 1 97 latencynone\n\n\n\n\n",
    ),
];

fn is_read(
    rt: &impl Abort,
    alloc: Global,
    edit: (usize, &[u8], usize),
    expected: &[u8],
) -> Result<(), Fail> {
    let bytes = edited(alloc, edit.0, edit.1, edit.2)?;
    let header = open(alloc, &bytes)?;
    says(rt, alloc, &header, expected)?;
    Ok(())
}

#[test]
fn plain_headers_are_read(rt: HostRuntime) -> Result<(), Fail> {
    for (edit, expected) in EDITED {
        is_read(&rt, rt.alloc(), *edit, expected)?;
    }
    Ok(())
}

/// What the header in which each item has something says, up to its texts, and from the second of these on.
const FRONT: &[u8] = b"Big 4 8192 0 8 4 12 2 369 16384+8192 24576+0 3:x 9: \n";

const TEXTS: &[u8] = b"\nevent\nkall\npr\ncmdline\none\n\nsched\nswitch";

fn put_expected(expected: &mut Vec<u8>) -> Result<(), AllocError> {
    for piece in [FRONT, PAGE_TEXT, TEXTS] {
        expected.extend_from_slice(piece)?;
    }
    Ok(())
}

fn is_whole(rt: &impl Abort, alloc: Global, header: &Header) -> Result<(), AllocError> {
    let mut expected = Vec::new(alloc);
    put_expected(&mut expected)?;
    says(rt, alloc, header, &expected)
}

#[test]
fn every_item_is_read(rt: HostRuntime) -> Result<(), Fail> {
    let bytes = whole(rt.alloc())?;
    let header = open(rt.alloc(), &bytes)?;
    is_whole(&rt, rt.alloc(), &header)?;
    Ok(())
}

fn put_many(bytes: &mut Vec<u8>, piece: &[u8], count: u32) -> Result<(), AllocError> {
    for _ in 0..count {
        bytes.extend_from_slice(piece)?;
    }
    Ok(())
}

fn put_long_texts(bytes: &mut Vec<u8>) -> Result<(), AllocError> {
    for head in BEFORE_LARGE {
        bytes.extend_from_slice(head)?;
        put_many(bytes, b"x", 100_000)?;
    }
    Ok(())
}

/// A header of 1,024 processors with 1,000 formats of the ftrace system, where each text and the one option have 100,000 bytes.
fn put_large(bytes: &mut Vec<u8>) -> Result<(), AllocError> {
    bytes.extend_from_slice(&PLAIN[..51])?;
    bytes.extend_from_slice(b"\xa0\x86\x01\0\0\0\0\0")?;
    put_many(bytes, b"x", 100_000)?;
    bytes.extend_from_slice(b"\xe8\x03\0\0")?;
    put_many(bytes, b"\x01\0\0\0\0\0\0\0f", 1_000)?;
    put_long_texts(bytes)?;
    bytes.extend_from_slice(b"\0\0flyrecord\0")?;
    put_many(bytes, &[0; 16], 1_024)
}

/// What stands before each of its other long texts.
const BEFORE_LARGE: &[&[u8]] = &[
    b"\0\0\0\0\xa0\x86\x01\0",
    b"\xa0\x86\x01\0",
    b"\xa0\x86\x01\0\0\0\0\0",
    b"\0\x04\0\0options  \0\x09\0\xa0\x86\x01\0",
];

/// A line of numbers, four bytes for each part, a long option with its id, and after newlines four long texts, an empty one and a
/// thousand of one byte.
fn is_large(rt: &impl Abort, alloc: Global, header: &Header, len: usize) -> Result<(), AllocError> {
    let mut told = Vec::new(alloc);
    put_told(alloc, header, &mut told)?;
    let is_read = header.end == len as u64 && header.ftrace.as_slice().len() == 1_000;
    assert!(rt; is_read && told.len() == 35 + 4 * 1_024 + 100_003 + 400_005 + 2_000);
    Ok(())
}

#[test]
fn a_large_header_is_read(rt: HostRuntime) -> Result<(), Fail> {
    let mut bytes = Vec::new(rt.alloc());
    put_large(&mut bytes)?;
    let header = open(rt.alloc(), &bytes)?;
    is_large(&rt, rt.alloc(), &header, bytes.len())?;
    Ok(())
}

const PARTS: [Part; 2] = [
    Part {
        offset: 0x4000,
        size: 0x2000,
    },
    Part {
        offset: 0x6000,
        size: 0,
    },
];

// Piece by piece, and by a write each for what stands in front of the table and for the table.
fn is_written(
    rt: &impl Abort,
    alloc: Global,
    header: &Header,
    bytes: &[u8],
) -> Result<(), AllocError>
    requires { IsHeader header.now }
{
    assert!(rt; header.cpus == 2);
    let mut out = MemSink::new(alloc);
    let written = write_header(header, &PARTS, &mut out);
    assert!(rt; written == Ok(bytes.len() as u64) && out.bytes() == bytes);
    let before = text_before_table(alloc, header)?;
    let mut out = MemSink::new(alloc);
    let written = write_with_table(header, &before, &PARTS, &mut out);
    assert!(rt; written == Ok(bytes.len() as u64) && out.bytes() == bytes && out.writes() == 2);
    Ok(())
}

#[test]
fn a_header_is_written_as_it_was(rt: HostRuntime) -> Result<(), Fail> {
    let bytes = whole(rt.alloc())?;
    let header = open(rt.alloc(), &bytes)?;
    is_written(&rt, rt.alloc(), &header, &bytes)?;
    Ok(())
}

fn has_options(
    rt: &impl Abort,
    alloc: Global,
    header: &Header,
    expected: &[u8],
) -> Result<(), AllocError> {
    let mut told = Vec::new(alloc);
    put_options(alloc, header, &mut told)?;
    assert!(rt; told.as_slice() == expected);
    Ok(())
}

#[test]
fn options_of_instances_are_dropped(rt: HostRuntime) -> Result<(), Fail> {
    let bytes = whole(rt.alloc())?;
    let mut header = open(rt.alloc(), &bytes)?;
    header.drop_instances();
    has_options(&rt, rt.alloc(), &header, b"9: ")?;
    Ok(())
}
