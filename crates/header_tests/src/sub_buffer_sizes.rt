// Sizes of sub-buffers beside sizes of pages.

use crate::sections::is;
use dat_header::{Header, OpenFault, read_header};
use std::alloc::{AllocError, Global};
use std::process::Abort;
use std::test::Fail;
use trace_base::ByteText;
use trace_outside::MemFile;

/// A header of a little-endian file of no processors up to its page size, from there to the size of its header_page text, and
/// what follows that text.
const BEFORE_PAGE: &[u8] = b"\x17\x08\x44tracing6\0\0\x08";

const BEFORE_TEXT: &[u8] = b"header_page\0";

const BEHIND_TEXT: &[u8] =
    b"header_event\0\0\0\0\0\0\0\0\0\0\0\0\0\0\0\0\0\0\0\0\0\0\0\0\0\0\0\0\0\0\0\0\0\0\0\0\0flyrecord\0";

fn put_text(text: &mut String, data: u32) -> Result<(), AllocError> {
    write!(
        text,
        "\tfield: u64 timestamp;\toffset:0;\tsize:8;\tsigned:0;
\tfield: local_t commit;\toffset:8;\tsize:8;\tsigned:1;
\tfield: int overwrite;\toffset:8;\tsize:1;\tsigned:1;
\tfield: char data;\toffset:16;\tsize:{data};\tsigned:0;\n"
    )
}

fn put_header(bytes: &mut Vec<u8>, page: u32, text: &[u8]) -> Result<(), AllocError> {
    for piece in [
        BEFORE_PAGE,
        &page.to_le_bytes(),
        BEFORE_TEXT,
        &(text.len() as u64).to_le_bytes(),
        text,
        BEHIND_TEXT,
    ] {
        bytes.extend_from_slice(piece)?;
    }
    Ok(())
}

/// A header of pages of this size, whose sub-buffers have data of this size after 16 bytes.
fn header_of(alloc: Global, page: u32, data: u32) -> Result<ByteText, AllocError> {
    let mut text = String::new(alloc);
    put_text(&mut text, data)?;
    let mut bytes = Vec::new(alloc);
    put_header(&mut bytes, page, text.as_bytes())?;
    ByteText::copy(alloc, &bytes)
}

/// The sizes of the page and of the sub-buffers, or why the file is no trace.
fn put_sizes(text: &mut String, header: &Result<Header, OpenFault>) -> Result<(), AllocError> {
    match header {
        Ok(header) => write!(text, "{} {}", header.page, header.layout.page),
        Err(fault) => write!(text, "{fault}"),
    }
}

fn has_sizes(
    rt: &impl Abort,
    alloc: Global,
    page: u32,
    data: u32,
    expected: &str,
) -> Result<(), AllocError> {
    let mut file = MemFile::new(header_of(alloc, page, data)?);
    let header = read_header(alloc, &mut file);
    let mut text = String::new(alloc);
    put_sizes(&mut text, &header)?;
    is(rt, text.as_str(), expected);
    Ok(())
}

/// The page's size, the size of a sub-buffer's data, and what is read.
const SIZES: &[(u32, u32, &str)] = &[
    (4_096, 4_080, "4096 4096"),
    (4_096, 8_176, "4096 8192"),
    (4_096, 16_368, "4096 16384"),
    (4_096, 65_520, "4096 65536"),
    (4_096, 131_056, "4096 131072"),
    (4_096, 262_128, "4096 262144"),
    (4_096, 524_272, "bad header_page at byte 38"),
    (4_096, 12_272, "bad header_page at byte 38"),
    (4_096, 2_032, "bad header_page at byte 38"),
    (4_096, 8_172, "bad header_page at byte 38"),
    (4_096, 4_294_967_295, "bad header_page at byte 38"),
    (8_192, 4_080, "bad header_page at byte 38"),
    (8_192, 8_176, "8192 8192"),
    (65_536, 8_176, "bad header_page at byte 38"),
    (65_536, 65_520, "65536 65536"),
    (65_536, 262_128, "65536 262144"),
];

#[test]
fn a_sub_buffer_has_a_power_of_two_of_pages(rt: HostRuntime) -> Result<(), Fail> {
    for (page, data, expected) in SIZES {
        has_sizes(&rt, rt.alloc(), *page, *data, expected)?;
    }
    Ok(())
}
