// Sub-buffers from what is told of them.

use std::alloc::{AllocError, Global};
use trace_samples::PAGE;

/// The bytes of the sub-buffers of processors 0 and 1, and where those of processor 1 begin.
#[derive(Drop)]
pub(crate) struct Recorded {
    pub(crate) bytes: Vec<u8>,
    pub(crate) middle: u64,
}

fn number(word: &str) -> u64 {
    word.parse::<u64>().unwrap_or(0)
}

// Appends a number of four bytes, or of eight after an `l`.
fn put_number(payload: &mut Vec<u8>, word: &str) -> Result<(), AllocError> {
    match word.strip_prefix("l") {
        Some(long) => payload.extend_from_slice(&number(long).to_le_bytes()),
        None => payload.extend_from_slice(&number(word).to_le_bytes()[..4]),
    }
}

fn put_numbers(payload: &mut Vec<u8>, told: &str) -> Result<(), AllocError> {
    for word in told.split('.') {
        put_number(payload, word)?;
    }
    Ok(())
}

fn put_payload(payload: &mut Vec<u8>, event: &str) -> Result<(), AllocError> {
    let Some((id, task)) = event.split_once(":") else {
        return put_numbers(payload, event);
    };
    put_number(payload, id)?;
    payload.extend_from_slice(&[5, 0, 0, 0])?;
    payload.extend_from_slice(&number(task).to_le_bytes())
}

// Appends an event so many nanoseconds after the one before it.
fn put_event(alloc: Global, data: &mut Vec<u8>, delta: u64, event: &str) -> Result<(), AllocError> {
    let mut payload = Vec::new(alloc);
    put_payload(&mut payload, event)?;
    // The low five bits are the payload's length in words, of which they have room for 28.
    let words = (payload.len() / 4).min(28) as u64;
    let head = (delta % 134_217_728) * 32 | words;
    data.extend_from_slice(&head.to_le_bytes()[..4])?;
    data.extend_from_slice(&payload)
}

// The first time that is told.
fn start_of(words: &str) -> u64 {
    for word in words.split(' ') {
        if let Some((_, time)) = word.split_once("@") {
            return number(time);
        }
    }
    0
}

fn put_events(
    alloc: Global,
    data: &mut Vec<u8>,
    start: u64,
    words: &str,
) -> Result<(), AllocError> {
    let mut before = start;
    for word in words.split(' ') {
        let Some((event, time)) = word.split_once("@") else {
            continue;
        };
        if event == "!" {
            continue;
        }
        let time = number(time);
        put_event(alloc, data, time.saturating_sub(before), event)?;
        before = time;
    }
    Ok(())
}

// What the commit word has beside the length of the data: with a `!` that events were lost, and for a malformed sub-buffer
// more bytes than it has.
fn commit_of(words: &str) -> u64 {
    let mut commit = 0;
    for word in words.split(' ') {
        if word.starts_with("!") {
            commit = 1 << 31;
        }
        if word == "malformed" {
            commit = 5000;
        }
    }
    commit
}

fn put_sub_buffer(alloc: Global, file: &mut Vec<u8>, words: &str) -> Result<(), AllocError> {
    let end = file.len().saturating_add(PAGE);
    let start = start_of(words);
    let mut data = Vec::new(alloc);
    put_events(alloc, &mut data, start, words)?;
    let commit = (data.len() as u64).saturating_add(commit_of(words));
    file.extend_from_slice(&start.to_le_bytes())?;
    file.extend_from_slice(&commit.to_le_bytes())?;
    file.extend_from_slice(&data)?;
    file.resize(end, 0)
}

fn put_sub_buffers(alloc: Global, file: &mut Vec<u8>, told: &str) -> Result<(), AllocError> {
    for words in told.split('/') {
        if !words.is_empty() {
            put_sub_buffer(alloc, file, words)?;
        }
    }
    Ok(())
}

/// What is recorded: the sub-buffers of processor 0, and after a `&` those of processor 1, each parted by a `/`.
///
/// An event is told by its payload, after a `@` its time in nanoseconds. A payload is its numbers, each of four bytes, or of
/// eight after an `l`: its id, its pid, and its fields. `10:42` is `10.5.l42`. Among a sub-buffer's words a `!` says that
/// events were lost before it, where it has none with the time after a `@`, and `malformed` that it claims more data than it
/// has room for; `empty` is a sub-buffer of no events.
pub(crate) fn recording_of(alloc: Global, told: &str) -> Result<Recorded, AllocError> {
    let (first, second) = told.split_once("&").unwrap_or((told, ""));
    let mut bytes = Vec::new(alloc);
    put_sub_buffers(alloc, &mut bytes, first)?;
    let middle = bytes.len() as u64;
    put_sub_buffers(alloc, &mut bytes, second)?;
    Ok(Recorded { bytes, middle })
}
