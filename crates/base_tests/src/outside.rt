use std::alloc::{Alloc, AllocError, Global};
use std::io::{ErrorKind, Write};
use std::process::Abort;
use std::test::Fail;
use std::{fs, io};
use trace_base::ByteText;
use trace_outside::{
    Failed, File, Folder, MemFault, MemFile, MemFolder, MemSink, Pending, RealFolder, RealSink,
    Sink, read_all, read_bytes, write_all, write_parts,
};

// Writes a file of a folder and reads it back, by the traits alone.
fn comes_back<F: Folder>(rt: &impl Abort, folder: &mut F) -> Result<(), Failed> {
    let mut out = folder.create_file("made")?;
    let written = write_parts(&mut out, &[b"one ", b"", b"two"]);
    folder.finish_file(out)?;
    written?;
    let mut file = folder.open_file("made")?;
    let mut into = [0; 5];
    let size = file.len();
    let read = if size == 7 {
        read_all(&mut file, 2, &mut into)
    } else {
        Err(Failed)
    };
    folder.close_file(file);
    read?;
    let given_up = folder.create_file("never")?;
    folder.drop_file(given_up);
    assert!(rt; into == *b"e two" && !opens(folder, "never"));
    Ok(())
}

// Whether a file is there.
fn opens<F: Folder>(folder: &mut F, name: &str) -> bool {
    match folder.open_file(name) {
        Ok(file) => {
            folder.close_file(file);
            true
        }
        Err(Failed) => false,
    }
}

#[test]
fn in_memory(rt: HostRuntime) -> Result<(), Fail> {
    let mut folder = MemFolder::new(rt.alloc());
    folder.put("made", b"older")?;
    comes_back(&rt, &mut folder)?;
    let is_made = folder.get("made") == Some(b"one two".as_slice());
    assert!(rt; is_made && folder.get("never").is_none() && folder.wants() == 0);
    Ok(())
}

#[test]
fn over_the_system(rt: HostRuntime) -> Result<(), Fail> {
    let alloc = rt.alloc();
    let mut folder = RealFolder::new(rt.clone()?, alloc);
    comes_back(&rt, &mut folder)?;
    assert!(rt; !opens(&mut folder, "never.part"));
    Ok(())
}

// Whether the first byte of a file is read.
fn is_read<F: Folder>(folder: &mut F, name: &str) -> bool {
    let Ok(mut file) = folder.open_file(name) else {
        return false;
    };
    let mut into = [0; 1];
    let is_read = file.len() > 0 && file.read_at(0, &mut into).is_ok();
    folder.close_file(file);
    is_read
}

const UNREAD: [&str; 6] = ["missing", "", ".", "taken", "a\0b", "missing/a"];

const UNMADE: [&str; 3] = ["taken", "a\0b", "missing/a"];

fn none_is_read<F: Folder>(folder: &mut F) -> bool {
    for name in UNREAD {
        if is_read(folder, name) {
            return false;
        }
    }
    true
}

fn none_is_made<F: Folder>(folder: &mut F) -> bool {
    for name in UNMADE {
        if makes(folder, name, b"x").is_ok() {
            return false;
        }
    }
    !opens(folder, "taken.part") && !opens(folder, "a")
}

// A folder is no file, and no file gets its name: the part that was written goes.
#[test]
fn what_the_system_refuses(rt: HostRuntime) -> Result<(), Fail> {
    let mut folder = RealFolder::new(rt.clone()?, rt.alloc());
    fs::create_dir(&rt, "taken")?;
    assert!(rt; none_is_read(&mut folder) && none_is_made(&mut folder));
    assert!(rt; makes(&mut folder, "taken/a", b"x").is_ok() && is_read(&mut folder, "taken/a"));
    Ok(())
}

#[test]
fn a_pipe_without_a_reader(rt: HostRuntime) -> Result<(), Fail> {
    let (reader, writer) = io::pipe(&rt)?;
    drop(reader);
    let mut out = RealSink::new(writer);
    assert!(rt; out.write(b"") == Ok(0) && write_all(&mut out, b"x") == Err(Failed));
    Ok(())
}

// A writer of std that takes at most so many bytes a call, and errs after so many calls.
#[derive(Drop)]
struct Reluctant {
    most: usize,
    calls: u64,
    taken: Vec<u8>,
}

impl Write for Reluctant {
    fn write(&mut self, piece: &[u8]) -> io::Result<usize> {
        if self.calls == 0 {
            return Err(io::Error::from(ErrorKind::BrokenPipe));
        }
        self.calls -= 1;
        let count = piece.len().min(self.most);
        self.taken.extend_from_slice(&piece[..count])?;
        Ok(count)
    }

    fn flush(&mut self) -> io::Result<()> {
        Ok(())
    }
}

// How many bytes a call takes at most, how many calls do not err, and what was taken of `one two` then.
static WRITERS: [(usize, u64, &str); 6] = [
    (9, 1, "one two"),
    (1, 7, "one two"),
    (1, 6, "one tw"),
    (4, 1, "one "),
    (9, 0, ""),
    (0, 9, ""),
];

fn takes(
    rt: &(impl Alloc<A = Global> + Abort),
    most: usize,
    calls: u64,
    expected: &str,
) -> Result<(), Fail> {
    let mut writer = Reluctant {
        most,
        calls,
        taken: Vec::new(rt.alloc()),
    };
    let mut out = RealSink::new(&mut writer);
    let written = write_all(&mut out, b"one two");
    let is_whole = expected.len() == 7;
    assert!(rt; written.is_ok() == is_whole && writer.taken.as_slice() == expected.as_bytes());
    Ok(())
}

#[test]
fn reluctant_writers(rt: HostRuntime) -> Result<(), Fail> {
    for (most, calls, expected) in &WRITERS {
        takes(&rt, *most, *calls, expected)?;
    }
    Ok(())
}

fn put_large(out: &mut MemSink, pending: &mut Pending, large: &[u8]) -> Result<(), Failed> {
    pending.put_parts(out, &[large, b"b"])?;
    pending.flush(out)
}

#[test]
fn large_pieces(rt: HostRuntime) -> Result<(), Fail> {
    let large = vec![in rt.alloc(); b'x'; 100_000]?;
    let mut pending = Pending::new(rt.alloc())?;
    let mut out = MemSink::new(rt.alloc());
    let begun = write_all(&mut out, b"<").is_ok() && pending.put(&mut out, b"a").is_ok();
    assert!(rt; begun && out.bytes() == b"<".as_slice());
    let is_put = put_large(&mut out, &mut pending, &large).is_ok();
    assert!(rt;
        is_put && out.bytes().len() == 100_003 && out.bytes().ends_with(b"b") && out.wants() == 0
    );
    Ok(())
}

// Reads so many bytes of a file, and makes another of them.
fn copies(alloc: Global, folder: &mut MemFolder, count: u64) -> Result<(), Failed> {
    let mut file = folder.open_file("large")?;
    let read = read_bytes(alloc, &mut file, 0, count);
    folder.close_file(file);
    match read {
        Ok(text) => makes(folder, "copy", text.as_bytes()),
        Err(_) => Err(Failed),
    }
}

#[test]
fn large_files_in_memory(rt: HostRuntime) -> Result<(), Fail> {
    let large = vec![in rt.alloc(); b'x'; 100_000]?;
    let mut folder = MemFolder::new(rt.alloc());
    folder.put("large", &large)?;
    let is_made = copies(rt.alloc(), &mut folder, 100_000).is_ok();
    assert!(rt; is_made && folder.get("copy") == Some(large.as_slice()) && folder.wants() == 0);
    Ok(())
}

// What a read of so many bytes from a place on gives, of `abcde`.
fn read_of(file: &mut MemFile, at: u64, count: usize) -> Option<usize> {
    let mut into = [0; 8];
    let (asked, _) = into.split_at_mut(count.min(8).max(1));
    if at >= file.len() {
        return None;
    }
    file.read_at(at, asked).ok()
}

// The byte that fails, the place, how many bytes are asked for, and how many are given, or none.
static READS: [(u64, u64, usize, Option<usize>); 8] = [
    (3, 0, 3, Some(3)),
    (3, 0, 4, None),
    (3, 3, 1, None),
    (3, 4, 1, Some(1)),
    (3, 2, 8, None),
    (5, 0, 8, Some(5)),
    (5, 4, 8, Some(1)),
    (0, 1, 8, Some(4)),
];

fn reads_so(
    alloc: Global,
    byte: u64,
    at: u64,
    count: usize,
    given: Option<usize>,
) -> Result<bool, AllocError> {
    let mut file = MemFile::new(ByteText::copy(alloc, b"abcde")?);
    file.fail_at(byte);
    let found = read_of(&mut file, at, count);
    let read = given.unwrap_or(0) as u64;
    Ok(found == given && file.reads() == read && file.faults() == u64::from(given.is_none()))
}

#[test]
fn reads_fail_at_a_byte(rt: HostRuntime) -> Result<(), Fail> {
    for (byte, at, count, given) in &READS {
        assert!(rt;
            reads_so(rt.alloc(), *byte, *at, *count, *given)?,
            "{byte}: {at}"
        );
    }
    Ok(())
}

// The write from which on they fail, how many bytes one takes at most, and what is there of `ab`, nothing, `cde` then.
static WRITES: [(u64, u32, &str, u64, u64); 7] = [
    (9, 9, "abcde", 3, 0),
    (1, 9, "", 3, 2),
    (2, 9, "ab", 3, 1),
    (3, 9, "ab", 3, 1),
    (0, 9, "", 3, 2),
    (9, 1, "ac", 3, 0),
    (9, 0, "ac", 3, 0),
];

fn writes_so(alloc: Global, from: u64, most: u32, told: &str, writes: u64, faults: u64) -> bool {
    let mut out = MemSink::new(alloc);
    out.fail_from(from);
    out.short(most);
    let _ = out.write(b"ab");
    let nothing = out.write(b"");
    let _ = out.write(b"cde");
    nothing == Ok(0)
        && out.bytes() == told.as_bytes()
        && out.writes() == writes
        && out.faults() == faults
        && out.wants() == 0
}

#[test]
fn writes_fail_from_a_call_on(rt: HostRuntime) {
    for (from, most, told, writes, faults) in &WRITES {
        let is_so = writes_so(rt.alloc(), *from, *most, told, *writes, *faults);
        assert!(rt; is_so, "{from} {most}");
    }
}

// Makes a file of these bytes, or gives it up where a write fails.
fn makes<F: Folder>(folder: &mut F, name: &str, bytes: &[u8]) -> Result<(), Failed> {
    let mut out = folder.create_file(name)?;
    match write_all(&mut out, bytes) {
        Ok(()) => folder.finish_file(out),
        Err(Failed) => {
            folder.drop_file(out);
            Err(Failed)
        }
    }
}

fn reads_whole(folder: &mut MemFolder, name: &str) -> Result<(), Failed> {
    let mut file = folder.open_file(name)?;
    let mut into = [0; 4];
    let read = if file.len() == 4 {
        read_all(&mut file, 0, &mut into)
    } else {
        Err(Failed)
    };
    folder.close_file(file);
    read
}

// A mark for each of two files that are made, and for each of two reads of them: `.`, or `!` where it failed.
fn put_marks(marks: &mut String, folder: &mut MemFolder) -> Result<(), Fail> {
    for made in [
        makes(folder, "a", b"1234"),
        makes(folder, "b", b"5678"),
        reads_whole(folder, "a"),
        reads_whole(folder, "b"),
    ] {
        marks.push_str(if made.is_ok() { "." } else { "!" })?;
    }
    Ok(())
}

static FAULTS: [(MemFault, &str, u64, u64, u64); 12] = [
    (MemFault::Open(1), "..!.", 1, 0, 0),
    (MemFault::Open(2), "...!", 1, 0, 0),
    (MemFault::Open(3), "....", 0, 0, 0),
    (MemFault::ReadAt(0), "..!!", 2, 0, 0),
    (MemFault::ReadAt(3), "..!!", 2, 0, 0),
    (MemFault::ReadAt(4), "....", 0, 0, 0),
    (MemFault::Create(2), ".!.!", 1, 1, 0),
    (MemFault::Finish(1), "!.!.", 1, 1, 1),
    (MemFault::Write(1), "!.!.", 1, 1, 0),
    (MemFault::Write(4), "!.!.", 1, 1, 0),
    (MemFault::Write(5), ".!.!", 1, 1, 0),
    (MemFault::Write(9), "....", 0, 0, 0),
];

// Each write takes a byte, so that a file is four of them.
fn fails_so(
    alloc: Global,
    fault: MemFault,
    told: &str,
    (reading, writing, unfinished): (u64, u64, u64),
) -> Result<bool, Fail> {
    let mut folder = MemFolder::new(alloc);
    folder.fail(MemFault::Open(1));
    folder.fail(fault);
    folder.short(1);
    let mut marks = String::new(alloc);
    put_marks(&mut marks, &mut folder)?;
    let counts = folder.counts();
    Ok(
        marks.as_str() == told
            && counts.reading == reading
            && counts.writing == writing
            && counts.unfinished == unfinished
            && folder.wants() == 0,
    )
}

#[test]
fn a_call_of_a_folder_fails(rt: HostRuntime) -> Result<(), Fail> {
    for (fault, told, reading, writing, unfinished) in &FAULTS {
        let counts = (*reading, *writing, *unfinished);
        assert!(rt; fails_so(rt.alloc(), *fault, told, counts)?, "{fault:?}");
    }
    Ok(())
}
