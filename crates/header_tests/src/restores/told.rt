// Restorings as rows: the files that there are, and in one text what comes of them.

ghost use Rattle.std.specs.Prelude.{◌≡◌, IfOk, vec_len};

use dat_header::{Body, OpenFault, read_header};
use restore_tool::{Names, RestoreFault, Source, restore_named};
use std::alloc::{AllocError, Global};
use trace_base::{ByteText, Part};
use trace_outside::{MemFault, MemFile, MemFolder};
use trace_samples::{ONE_EVENT, TraceFile};

/// What came of a restoring.
type Restored = Result<(), RestoreFault>;

/// More bytes than any call has.
pub(crate) const ALL: u32 = u32::MAX;

/// The header_page text of sub-buffers of 8,192 bytes.
const LARGE: &[u8] = b"\tfield: u64 timestamp;\toffset:0;\tsize:8;\tsigned:0;\n\
\tfield: local_t commit;\toffset:8;\tsize:8;\tsigned:1;\n\
\tfield: char data;\toffset:16;\tsize:8176;\tsigned:1;\n";

/// A partial file.
#[derive(Clone, Copy)]
pub(crate) enum Partial {
    Missing,
    /// The first so many bytes of the header.
    Cut(usize),
    /// The header in the other byte order.
    Big,
    /// The header of pages of 64 KiB.
    Wide,
    /// The header of sub-buffers of two pages.
    Large,
    /// The header with so many command lines' bytes and something after them.
    Longer(u8),
}

/// A data file.
#[derive(Clone, Copy)]
pub(crate) enum Data {
    Missing,
    /// So many zero bytes.
    Zeros(usize),
    /// A sub-buffer of 4,096 bytes with one event.
    Event,
    /// So many bytes that go up from 0.
    Rising(usize),
}

#[derive(Clone, Copy)]
pub(crate) struct Row {
    pub(crate) partial: Partial,
    pub(crate) files: &'static [(&'static str, Data)],
    pub(crate) output: &'static str,
    /// What came of it, and after that the new file: its length and its parts.
    pub(crate) told: &'static str,
}

// The first so many bytes of a header with this header_page text and without formats and names.
fn header(alloc: Global, page_text: &[u8], len: usize) -> Result<Vec<u8>, AllocError>
    ensures { IfOk result (λ bytes. vec_len bytes ≡ len) }
{
    let mut trace = TraceFile::new(alloc);
    trace.page_text.extend_from_slice(page_text)?;
    let mut bytes = trace.bytes(alloc)?;
    bytes.resize(len, 0)?;
    Ok(bytes)
}

// The number of processors stands after 83 bytes and the header_page text. Byte 12 tells the byte order, and the bytes 14 to 17
// the page size.
fn partial_bytes(alloc: Global, partial: Partial) -> Result<Option<Vec<u8>>, AllocError> {
    let mut bytes = header(alloc, b"", 83)?;
    match partial {
        Partial::Missing => return Ok(None),
        Partial::Cut(count) => bytes.truncate(count),
        Partial::Big => {
            bytes[12] = 1;
            bytes[15] = 0;
            bytes[16] = 16;
        }
        Partial::Wide => {
            bytes[15] = 0;
            bytes[16] = 1;
        }
        Partial::Large => return Ok(Some(header(alloc, LARGE, 83 + LARGE.len())?)),
        Partial::Longer(count) => {
            bytes[75] = count;
            bytes.resize(200, 7)?;
        }
    }
    Ok(Some(bytes))
}

fn put_rising(bytes: &mut Vec<u8>, count: usize) -> Result<(), AllocError> {
    for place in 0..count {
        bytes.push((place % 251) as u8)?;
    }
    Ok(())
}

fn put_data(bytes: &mut Vec<u8>, data: Data) -> Result<(), AllocError> {
    match data {
        Data::Missing => Ok(()),
        Data::Zeros(count) => bytes.resize(count, 0),
        Data::Event => {
            bytes.extend_from_slice(ONE_EVENT)?;
            bytes.resize(4096, 0)
        }
        Data::Rising(count) => put_rising(bytes, count),
    }
}

fn data_bytes(alloc: Global, data: Data) -> Result<Vec<u8>, AllocError> {
    let mut bytes = Vec::new(alloc);
    put_data(&mut bytes, data)?;
    Ok(bytes)
}

fn put_fault(text: &mut String, fault: RestoreFault) -> Result<(), AllocError> {
    match fault {
        RestoreFault::Refused(OpenFault::Truncated(place)) => write!(text, "truncated {place}"),
        RestoreFault::Refused(_) => text.push_str("refused"),
        RestoreFault::Read(Source::Partial) => text.push_str("read partial"),
        RestoreFault::Read(Source::File(file)) => write!(text, "read {file}"),
        RestoreFault::Write => text.push_str("write"),
        RestoreFault::NoMemory => text.push_str("no memory"),
    }
}

fn put_restored(text: &mut String, restored: Restored) -> Result<(), AllocError> {
    match restored {
        Ok(()) => text.push_str("done"),
        Err(fault) => put_fault(text, fault),
    }
}

// Whether a part of the bytes is just the data file.
fn is_given(bytes: &[u8], part: Part, given: &[u8]) -> bool {
    let Some((_, rest)) = bytes.split_at_checked(part.offset as usize) else {
        return false;
    };
    match rest.split_at_checked(part.size as usize) {
        Some((own, _)) => own == given,
        None => false,
    }
}

// A part, and a mark where it is not the data file.
fn put_part(
    alloc: Global,
    text: &mut String,
    bytes: &[u8],
    part: Part,
    data: Data,
) -> Result<(), AllocError> {
    let given = data_bytes(alloc, data)?;
    let mark = if is_given(bytes, part, &given) {
        ""
    } else {
        "!"
    };
    write!(text, " {}+{}{mark}", part.offset, part.size)
}

fn put_parts(
    alloc: Global,
    text: &mut String,
    bytes: &[u8],
    parts: &[Part],
    files: &[(&str, Data)],
) -> Result<(), AllocError> {
    for (part, (_, data)) in parts.iter().zip(files) {
        put_part(alloc, text, bytes, *part, *data)?;
    }
    Ok(())
}

// The new file, by the header that is read from it.
fn put_file(
    alloc: Global,
    text: &mut String,
    bytes: &[u8],
    files: &[(&str, Data)],
) -> Result<(), AllocError> {
    write!(text, " {}", bytes.len())?;
    let mut file = MemFile::new(ByteText::copy(alloc, bytes)?);
    match read_header(alloc, &mut file) {
        Ok(header) => match &header.body {
            Body::Fly(parts) => put_parts(alloc, text, bytes, parts.as_slice(), files),
            Body::Latency => Ok(()),
        },
        Err(_) => text.push_str(" no header"),
    }
}

fn put_partial(alloc: Global, folder: &mut MemFolder, row: &Row) -> Result<(), AllocError> {
    match partial_bytes(alloc, row.partial)? {
        Some(bytes) => folder.put("p.dat", &bytes),
        None => Ok(()),
    }
}

fn put_data_file(
    alloc: Global,
    folder: &mut MemFolder,
    name: &str,
    data: Data,
) -> Result<(), AllocError> {
    match data {
        Data::Missing => Ok(()),
        _ => folder.put(name, &data_bytes(alloc, data)?),
    }
}

fn put_files(alloc: Global, folder: &mut MemFolder, row: &Row) -> Result<(), AllocError> {
    put_partial(alloc, folder, row)?;
    for (name, data) in row.files {
        put_data_file(alloc, folder, name, *data)?;
    }
    Ok(())
}

// The folder of a row, in which this fails, if anything, and a call takes at most so many bytes.
fn folder_of(
    alloc: Global,
    row: &Row,
    fault: Option<MemFault>,
    most: u32,
) -> Result<MemFolder, AllocError> {
    let mut folder = MemFolder::new(alloc);
    put_files(alloc, &mut folder, row)?;
    folder.short(most);
    if let Some(fault) = fault {
        folder.fail(fault);
    }
    Ok(folder)
}

fn push_names(names: &mut Vec<&'static str>, row: &Row) -> Result<(), AllocError> {
    for (name, _) in row.files {
        names.push(*name)?;
    }
    Ok(())
}

// Restores a row, unless it has more files than may be.
fn restore(
    alloc: Global,
    row: &Row,
    folder: &mut MemFolder,
) -> Result<Option<Restored>, AllocError> {
    let mut names = Vec::new(alloc);
    push_names(&mut names, row)?;
    if names.len() > 256 {
        return Ok(None);
    }
    let names = Names {
        partial: "p.dat",
        files: names.as_slice(),
        output: row.output,
    };
    Ok(Some(restore_named(alloc, &names, folder)))
}

// What came of it and the new file, and whether files are open still.
fn put_told(
    alloc: Global,
    text: &mut String,
    row: &Row,
    restored: Option<Restored>,
    folder: &MemFolder,
) -> Result<(), AllocError> {
    if let Some(restored) = restored {
        put_restored(text, restored)?;
    }
    if let Some(bytes) = folder.get(row.output) {
        put_file(alloc, text, bytes, row.files)?;
    }
    let counts = folder.counts();
    text.push_str(if counts.opened == counts.closed {
        ""
    } else {
        " open"
    })
}

/// What comes of a row, and after it whether files are open still.
pub(crate) fn text_of(
    alloc: Global,
    row: &Row,
    fault: Option<MemFault>,
    most: u32,
) -> Result<String, AllocError> {
    let mut folder = folder_of(alloc, row, fault, most)?;
    let restored = restore(alloc, row, &mut folder)?;
    let mut text = String::new(alloc);
    put_told(alloc, &mut text, row, restored, &folder)?;
    Ok(text)
}

/// How many bytes of the files a restoring of a row reads.
pub(crate) fn bytes_read(
    alloc: Global,
    row: &Row,
    fault: Option<MemFault>,
    most: u32,
) -> Result<u64, AllocError> {
    let mut folder = folder_of(alloc, row, fault, most)?;
    restore(alloc, row, &mut folder)?;
    Ok(folder.counts().bytes)
}
