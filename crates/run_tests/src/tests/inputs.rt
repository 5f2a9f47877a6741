// What the folder has before a run: trace files of records, made in memory.

use super::known::{FUNCTION, SWITCH, Task, carry, put_depth, put_switch};
use std::alloc::{AllocError, Global};
use trace_outside::MemFolder;
use trace_samples::{LATENCY_FILE, ONE_EVENT, TraceFile};

/// A header without processors. The count of processors stands at its byte 83.
pub(super) const HEADER: &[u8; 97] =
    b"\x17\x08\x44tracing6\0\0\x08\0\x10\0\0header_page\0\0\0\0\0\0\0\0\0header_event\0\0\0\0\0\0\0\0\0\0\0\0\0\0\0\0\0\0\0\0\0\0\0\0\0\0\0\0\0\0\0\0\0\0\0\0\0flyrecord\0";

pub(super) const PAGE: usize = 4096;

/// What the folder has under the name trace.dat, but for the last.
pub(super) enum Input {
    Missing,
    Bytes(&'static [u8]),
    /// The sub-buffers of each processor, in a file that carries this.
    Processors(Carried, &'static [&'static [Page]]),
    /// So many processors with an event each, at the times 10, 20 and so on.
    Rising(u32),
    /// One processor whose part begins at this place and should have so many bytes.
    PartAt(u64, u64),
    /// The file of `ONE` taken apart: so many bytes of its header under the name p.dat, its sub-buffer under c0, and 100 zero
    /// bytes under c1.
    Apart(usize),
}

/// What a file carries beside its sub-buffers.
pub(super) enum Carried {
    /// No formats and no names.
    Nothing,
    /// The formats and names of `known`.
    Texts,
    /// Formats of long lines.
    Wide,
    /// Formats of a wake-up and of a switch.
    Woken,
    /// Formats of the function graph.
    Graph,
}

/// A sub-buffer.
pub(super) enum Page {
    Empty,
    /// Its time and its records.
    Of(u64, &'static [Record]),
    /// The same with a loss before it, and the number of lost events where it is known.
    Lossy(u64, Option<u64>, &'static [Record]),
    /// One that claims more data than it has room for.
    Malformed,
}

/// A record of a sub-buffer.
pub(super) enum Record {
    /// An event: its delta, id, pid, flags and preempt count.
    Event(u32, u16, u32, u8, u8),
    /// An event whose payload ends after its id: its delta and id.
    Short(u32, u16),
    /// An event of delta 0 that fills a sub-buffer: its id and pid.
    Large(u16, u32),
    /// A switch: its delta, pid, the task before, its state, and the task after.
    Switch(u32, u32, Task, u64, Task),
    /// A function: its delta, pid, address, and the address that it was called from.
    Function(u32, u32, u64, u64),
    /// An event of a task, of pid 5: its delta, id, and the task's number.
    OfTask(u32, u16, u32),
    /// An entry of pid 7: its delta, function and depth.
    Enter(u32, u64, u32),
    /// An exit of pid 7: the same, and when its call began and ended.
    Leave(u32, u64, u32, u64, u64),
    /// A stamp of this time, below 2^27.
    Stamp(u32),
}

/// One event of pid 1,234 at one second.
pub(super) const ONE: Input = Input::Processors(
    Carried::Nothing,
    &[&[Page::Of(1_000_000_000, &[Record::Event(0, 58, 1234, 0, 0)])]],
);

/// The same in a hard interrupt, with interrupts off and a preempt count of one.
pub(super) const IN_INTERRUPT: Input = Input::Processors(
    Carried::Nothing,
    &[&[Page::Of(1_000_000_000, &[Record::Event(0, 58, 1234, 9, 1)])]],
);

/// An event half a microsecond before one second.
pub(super) const BEFORE_A_SECOND: Input = Input::Processors(
    Carried::Nothing,
    &[&[Page::Of(999_999_500, &[Record::Event(0, 58, 1234, 0, 0)])]],
);

/// An event on each of two processors, both at one time.
pub(super) const TWO_AT_ONCE: Input = Input::Processors(
    Carried::Nothing,
    &[
        &[Page::Of(5, &[Record::Event(0, 58, 1, 0, 0)])],
        &[Page::Of(5, &[Record::Event(0, 58, 2, 0, 0)])],
    ],
);

/// Times that fall, on each of two processors and between them.
pub(super) const FALLING: Input = Input::Processors(
    Carried::Nothing,
    &[
        &[
            Page::Of(5, &[Record::Event(0, 58, 1, 0, 0)]),
            Page::Of(3, &[Record::Event(0, 58, 1, 0, 0)]),
        ],
        &[Page::Of(
            4,
            &[Record::Event(0, 58, 2, 0, 0), Record::Event(1, 58, 2, 0, 0)],
        )],
    ],
);

pub(super) const LATENCY: Input = Input::Bytes(LATENCY_FILE);

/// Processor 0 has a malformed sub-buffer alone, processor 1 an event at time 1.
pub(super) const MALFORMED_FIRST: Input = Input::Processors(
    Carried::Nothing,
    &[
        &[Page::Malformed],
        &[Page::Of(1, &[Record::Event(0, 58, 2, 0, 0)])],
    ],
);

/// Processor 0 has events at the times 10 and 30, processor 1 one at 20 and then a malformed sub-buffer.
pub(super) const MALFORMED_LATER: Input = Input::Processors(
    Carried::Nothing,
    &[
        &[Page::Of(
            10,
            &[
                Record::Event(0, 58, 1, 0, 0),
                Record::Event(20, 58, 1, 0, 0),
            ],
        )],
        &[
            Page::Of(20, &[Record::Event(0, 58, 2, 0, 0)]),
            Page::Malformed,
        ],
    ],
);

/// Two switches and a function.
pub(super) const SWITCHES: Input = Input::Processors(
    Carried::Texts,
    &[
        &[Page::Of(
            1_000_000_000,
            &[Record::Switch(
                0,
                1234,
                Task("bash", 1234, 120),
                1,
                Task("swapper/0", 0, 120),
            )],
        )],
        &[Page::Of(
            1_000_001_500,
            &[
                Record::Switch(
                    0,
                    0,
                    Task("swapper/1", 0, 120),
                    0,
                    Task("kworker/0:1", 42, 120),
                ),
                Record::Function(248_500, 42, 0xffff_ffff_8100_0010, 0xffff_ffff_8100_0120),
            ],
        )],
    ],
);

pub(super) fn put_words(file: &mut Vec<u8>, words: &[u32]) -> Result<(), AllocError> {
    for word in words {
        file.extend_from_slice(&word.to_le_bytes())?;
    }
    Ok(())
}

// Words of eight bytes.
pub(super) fn put_longs(file: &mut Vec<u8>, longs: &[u64]) -> Result<(), AllocError> {
    for long in longs {
        file.extend_from_slice(&long.to_le_bytes())?;
    }
    Ok(())
}

// A record's first word: its delta, and its length in words or what stands for it.
pub(super) fn head(delta: u32, kind: u32) -> u32 {
    delta.wrapping_mul(32) | kind
}

// The word that every event begins with, before its pid.
pub(super) fn common(id: u16, flags: u8, depth: u8) -> u32 {
    u32::from_le_bytes([id.to_le_bytes()[0], id.to_le_bytes()[1], flags, depth])
}

// An event that fills a sub-buffer.
fn put_large(file: &mut Vec<u8>, id: u16, pid: u32) -> Result<(), AllocError> {
    let end = file.len().saturating_add(4080);
    put_words(file, &[head(0, 0), 4076, common(id, 0, 0), pid])?;
    file.resize(end, 0)
}

fn put_record(file: &mut Vec<u8>, record: &Record) -> Result<(), AllocError> {
    match record {
        Record::Event(delta, id, pid, flags, depth) => {
            put_words(file, &[head(*delta, 2), common(*id, *flags, *depth), *pid])
        }
        Record::Short(delta, id) => put_words(file, &[head(*delta, 1), u32::from(*id)]),
        Record::Large(id, pid) => put_large(file, *id, *pid),
        Record::Switch(delta, pid, from, state, to) => {
            put_words(file, &[head(*delta, 16), common(SWITCH, 0, 0), *pid])?;
            put_switch(file, from, *state, to)
        }
        Record::Function(delta, pid, ip, parent) => {
            put_words(file, &[head(*delta, 6), common(FUNCTION, 0, 0), *pid])?;
            put_longs(file, &[*ip, *parent])
        }
        Record::OfTask(delta, id, task) => {
            put_words(file, &[head(*delta, 3), common(*id, 0, 0), 5, *task])
        }
        Record::Enter(delta, func, depth) => {
            put_words(file, &[head(*delta, 5), common(11, 0, 0), 7])?;
            put_depth(file, &[*func], *depth)
        }
        Record::Leave(delta, func, depth, from, to) => {
            put_words(file, &[head(*delta, 9), common(10, 0, 0), 7])?;
            put_depth(file, &[*func, *from, *to], *depth)
        }
        Record::Stamp(time) => put_words(file, &[head(*time, 31), 0]),
    }
}

fn put_records(file: &mut Vec<u8>, records: &[Record]) -> Result<(), AllocError> {
    for record in records {
        put_record(file, record)?;
    }
    Ok(())
}

// A sub-buffer's time, its commit field, and its records.
fn put_data(
    alloc: Global,
    file: &mut Vec<u8>,
    time: u64,
    flags: u64,
    records: &[Record],
) -> Result<(), AllocError> {
    let mut data = Vec::new(alloc);
    put_records(&mut data, records)?;
    put_longs(file, &[time, data.len() as u64 | flags])?;
    file.extend_from_slice(&data)
}

fn put_filled(alloc: Global, file: &mut Vec<u8>, page: &Page) -> Result<(), AllocError> {
    match page {
        Page::Empty => Ok(()),
        Page::Of(time, records) => put_data(alloc, file, *time, 0, records),
        Page::Lossy(time, None, records) => put_data(alloc, file, *time, 1 << 31, records),
        Page::Lossy(time, Some(count), records) => {
            put_data(alloc, file, *time, 3 << 30, records)?;
            put_longs(file, &[*count])
        }
        Page::Malformed => put_longs(file, &[0, 5000]),
    }
}

fn put_pages(alloc: Global, file: &mut Vec<u8>, pages: &[Page]) -> Result<(), AllocError> {
    for page in pages {
        let end = file.len().saturating_add(PAGE);
        put_filled(alloc, file, page)?;
        file.resize(end, 0)?;
    }
    Ok(())
}

fn add_processor(alloc: Global, trace: &mut TraceFile, pages: &[Page]) -> Result<(), AllocError> {
    let mut bytes = Vec::new(alloc);
    put_pages(alloc, &mut bytes, pages)?;
    trace.add_processor(&bytes)
}

fn add_processors(
    alloc: Global,
    trace: &mut TraceFile,
    processors: &[&[Page]],
) -> Result<(), AllocError> {
    for pages in processors {
        add_processor(alloc, trace, pages)?;
    }
    Ok(())
}

fn with_processors(
    alloc: Global,
    carried: &Carried,
    processors: &[&[Page]],
) -> Result<Vec<u8>, AllocError> {
    let mut trace = TraceFile::new(alloc);
    carry(alloc, &mut trace, carried)?;
    add_processors(alloc, &mut trace, processors)?;
    trace.bytes(alloc)
}

// A file of one processor with this header_page text, and this sub-buffer.
fn with_one(alloc: Global, page_text: &[u8], bytes: &[u8]) -> Result<Vec<u8>, AllocError> {
    let mut trace = TraceFile::new(alloc);
    trace.page_text.extend_from_slice(page_text)?;
    trace.add_processor(bytes)?;
    trace.bytes(alloc)
}

fn with_rising(alloc: Global, count: u32) -> Result<Vec<u8>, AllocError> {
    const RECORDS: &[Record] = &[Record::Event(0, 58, 1, 0, 0)];
    let mut trace = TraceFile::new(alloc);
    for place in 0..count {
        let mut bytes = Vec::new(alloc);
        put_data(alloc, &mut bytes, (u64::from(place) + 1) * 10, 0, RECORDS)?;
        bytes.resize(PAGE, 0)?;
        trace.add_processor(&bytes)?;
    }
    trace.bytes(alloc)
}

// The header of one processor with this header_page text, whose table has this part, up to the length of a sub-buffer.
pub(super) fn with_part(
    alloc: Global,
    page_text: &[u8],
    offset: u64,
    size: u64,
) -> Result<Vec<u8>, AllocError> {
    let mut file = with_one(alloc, page_text, &[])?;
    file.truncate(page_text.len().saturating_add(97));
    put_longs(&mut file, &[offset, size])?;
    file.resize(PAGE, 0)?;
    Ok(file)
}

fn put_apart(alloc: Global, folder: &mut MemFolder, count: usize) -> Result<(), AllocError> {
    let whole = with_one(alloc, b"", ONE_EVENT)?;
    let (header, pages) = whole.split_at_checked(PAGE).unwrap_or((&[], &[]));
    folder.put("p.dat", &header[..count.min(header.len())])?;
    folder.put("c0", pages)?;
    folder.put("c1", &[0; 100])
}

fn put_trace(
    alloc: Global,
    folder: &mut MemFolder,
    carried: &Carried,
    processors: &[&[Page]],
) -> Result<(), AllocError> {
    let bytes = with_processors(alloc, carried, processors)?;
    folder.put("trace.dat", &bytes)
}

fn put_input(alloc: Global, folder: &mut MemFolder, file: &Input) -> Result<(), AllocError> {
    match file {
        Input::Missing => Ok(()),
        Input::Bytes(bytes) => folder.put("trace.dat", bytes),
        Input::Processors(carried, processors) => put_trace(alloc, folder, carried, processors),
        Input::Rising(count) => folder.put("trace.dat", &with_rising(alloc, *count)?),
        Input::PartAt(offset, size) => {
            folder.put("trace.dat", &with_part(alloc, b"", *offset, *size)?)
        }
        Input::Apart(count) => put_apart(alloc, folder, *count),
    }
}

pub(super) fn folder_of(alloc: Global, file: &Input) -> Result<MemFolder, AllocError> {
    let mut folder = MemFolder::new(alloc);
    put_input(alloc, &mut folder, file)?;
    Ok(folder)
}
