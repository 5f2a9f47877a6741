// Folders in which a call fails, and files that give other bytes when their pieces are packed: the files before stand, and an
// older one of the next name stands as it was.

use super::splits::{put_end, put_file, split_into, split_under, words_of};
use super::traces::file_of;
use super::watched::{Then, WatchedFile};
use dat_header::read_header;
use split_tool::{End, IoFault};
use std::alloc::Global;
use std::test::Fail;
use trace_args::{Command, read_words};
use trace_outside::{MemFault, MemFolder};
use trace_samples::Page;
use trace_samples::Page::Of;

const FIVE: &[&[Page]] = &[&[Of(&[10_000, 20_000, 30_000, 40_000, 50_000])]];

/// Two events a piece: to measure the first one its first two sub-buffers are read, and to pack it both again; for the second one the
/// third, and then the second and the third again; for the third one the third again, since the lane is at its end by then.
const SIX: &[&[Page]] = &[&[
    Of(&[10_000, 20_000]),
    Of(&[30_000]),
    Of(&[40_000, 50_000, 60_000]),
]];

// What stands under the name of the second file before.
const OLDER: &[u8] = b"an older file";

fn put_name(alloc: Global, text: &mut String, folder: &MemFolder, name: &str) -> Result<(), Fail> {
    match folder.get(name) {
        None => text.push_str("-/")?,
        Some(OLDER) => text.push_str("older/")?,
        Some(bytes) => put_file(alloc, text, bytes)?,
    }
    Ok(())
}

// The files that stand after a split into three, how it ends, and how many were created.
fn text_left(alloc: Global, folder: &MemFolder, end: Result<End, IoFault>) -> Result<String, Fail> {
    let mut text = String::new(alloc);
    for name in ["part.1", "part.2", "part.3"] {
        put_name(alloc, &mut text, folder, name)?;
    }
    put_end(&mut text, end)?;
    let created = folder.counts().created;
    write!(text, " {created}")?;
    Ok(text)
}

// After a split in a folder where this fails. Each write takes so many bytes.
fn text_of(alloc: Global, most: u32, fault: MemFault) -> Result<String, Fail> {
    let mut folder = MemFolder::new(alloc);
    folder.put("part.2", OLDER)?;
    folder.short(most);
    folder.fail(fault);
    let words = words_of(alloc, "-e 2 -r")?;
    let Ok(Command::Split(words)) = read_words(alloc, &words) else {
        return Ok(String::new(alloc));
    };
    let bytes = file_of(alloc, FIVE)?;
    let end = split_into(alloc, &words, bytes, &mut folder)?;
    text_left(alloc, &folder, end)
}

// After a split of a file of which so many sub-buffers are read before it changes.
fn text_of_changed(alloc: Global, good: u64, then: Then) -> Result<String, Fail> {
    let mut folder = MemFolder::new(alloc);
    folder.put("part.2", OLDER)?;
    let words = words_of(alloc, "-e 2 -r")?;
    let Ok(Command::Split(words)) = read_words(alloc, &words) else {
        return Ok(String::new(alloc));
    };
    let mut file = WatchedFile::new(file_of(alloc, SIX)?, u64::MAX, then);
    let Ok(header) = read_header(alloc, &mut file) else {
        return Ok(String::new(alloc));
    };
    file.good = good;
    let end = split_under(alloc, &words, &header, &mut file, &mut folder)?;
    text_left(alloc, &folder, end)
}

fn leaves(alloc: Global, most: u32, fault: MemFault, told: &str) -> Result<bool, Fail> {
    Ok(text_of(alloc, most, fault)?.as_str() == told)
}

const FAULTS: &[(MemFault, &str)] = &[
    (MemFault::Create(1), "-/older/-/write 0"),
    (MemFault::Create(2), "10 20 |/older/-/write 1"),
    (MemFault::Create(3), "10 20 |/30 40 |/-/write 2"),
    (MemFault::Create(4), "10 20 |/30 40 |/50 |/done 3"),
    (MemFault::Finish(1), "-/older/-/write 1"),
    (MemFault::Finish(2), "10 20 |/older/-/write 2"),
    (MemFault::Finish(3), "10 20 |/30 40 |/-/write 3"),
];

/// How many sub-buffers are read before the file changes, and what comes then.
const CHANGES: &[(u64, Then, &str)] = &[
    (2, Then::Zeros, "-/older/-/malformed 0 1 1"),
    (2, Then::Fails, "-/older/-/read 1"),
    (5, Then::Zeros, "10 20 |/older/-/malformed 0 2 2"),
    (5, Then::Fails, "10 20 |/older/-/read 2"),
    (7, Then::Zeros, "10 20 |/30 40 |/-/malformed 0 2 3"),
    (8, Then::Zeros, "10 20 |/30 40 |/50 60 |/done 3"),
];

#[test]
fn an_older_file_stands_after_a_fault(rt: HostRuntime) -> Result<(), Fail> {
    for (fault, told) in FAULTS {
        assert!(rt; leaves(rt.alloc(), u32::MAX, *fault, told)?, "{told}");
    }
    for (good, then, told) in CHANGES {
        let text = text_of_changed(rt.alloc(), *good, *then)?;
        assert!(rt; text.as_str() == *told, "{good}: {text}");
    }
    Ok(())
}

// The bytes of the second file whose writes fail. It has 8,192, each of which is written by itself: the header's pieces, the zero
// bytes after it, and the sub-buffer.
const BYTES: [u64; 10] = [1, 2, 11, 21, 101, 118, 119, 4096, 4097, 8192];

#[test]
fn each_failed_write_leaves_the_files_before(rt: HostRuntime) -> Result<(), Fail> {
    for byte in BYTES {
        let fault = MemFault::Write(byte.saturating_add(8192));
        assert!(rt;
            leaves(rt.alloc(), 1, fault, "10 20 |/older/-/write 2")?,
            "{byte}"
        );
    }
    let fault = MemFault::Write(16_385);
    assert!(rt; leaves(rt.alloc(), 1, fault, "10 20 |/30 40 |/-/write 3")?);
    Ok(())
}
