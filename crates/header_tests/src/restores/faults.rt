// Restorings in folders where a call fails: nothing stands under the new name then, and every file is closed.

use crate::restores::told::{ALL, Data, Partial, Row, text_of};
use std::test::Fail;
use trace_outside::MemFault;

const DONE: &str = "done 8292 4096+4096 8192+100";

const TWO: Row = Row {
    partial: Partial::Cut(83),
    files: &[("c0", Data::Event), ("c1", Data::Zeros(100))],
    output: "out.dat",
    told: DONE,
};

/// What fails where a call takes at most so many bytes, and what comes of it.
const FAULTS: &[(MemFault, u32, &str)] = &[
    (MemFault::Open(1), ALL, "read partial"),
    (MemFault::Open(2), ALL, "read 0"),
    (MemFault::Open(3), ALL, "read 1"),
    // a place in the partial file, one that only the first data file has, and one that none has
    (MemFault::ReadAt(40), ALL, "read partial"),
    (MemFault::ReadAt(4000), ALL, "read 0"),
    (MemFault::ReadAt(4096), ALL, DONE),
    (MemFault::Create(1), ALL, "write"),
    (MemFault::Finish(1), ALL, "write"),
    // of as many bytes as may be
    (MemFault::Write(1), ALL, "write"),
    (MemFault::Write(2), ALL, "write"),
    (MemFault::Write(3), ALL, "write"),
    // by a byte a write: inside the header, the table, the zero bytes after it, and each data file
    (MemFault::Write(1), 1, "write"),
    (MemFault::Write(41), 1, "write"),
    (MemFault::Write(129), 1, "write"),
    (MemFault::Write(130), 1, "write"),
    (MemFault::Write(4096), 1, "write"),
    (MemFault::Write(4097), 1, "write"),
    (MemFault::Write(8192), 1, "write"),
    (MemFault::Write(8193), 1, "write"),
    (MemFault::Write(8292), 1, "write"),
    (MemFault::Write(8293), 1, DONE),
];

#[test]
fn nothing_stands_after_a_fault(rt: HostRuntime) -> Result<(), Fail> {
    for (fault, most, told) in FAULTS {
        let text = text_of(rt.alloc(), &TWO, Some(*fault), *most)?;
        assert!(rt; text.as_str() == *told, "{fault:?}: {text}");
    }
    Ok(())
}

#[test]
fn each_ninety_seventh_byte_of_the_new_file(rt: HostRuntime) -> Result<(), Fail> {
    for i in 0..87_u64 {
        let place = i * 97;
        let told = if place < 8292 { "write" } else { DONE };
        let text = text_of(rt.alloc(), &TWO, Some(MemFault::Write(place + 1)), 1)?;
        assert!(rt; text.as_str() == told, "{place}: {text}");
    }
    Ok(())
}

const OVER: Row = Row {
    partial: Partial::Cut(83),
    files: &[("c0", Data::Rising(3)), ("c1", Data::Rising(3))],
    output: "c1",
    told: "",
};

/// What fails where a file of the new name stands.
const OLDER: &[(MemFault, u32)] = &[
    (MemFault::ReadAt(2), ALL),
    (MemFault::Create(1), ALL),
    (MemFault::Write(5001), 1),
    (MemFault::Finish(1), ALL),
];

// An older file of that name stands as it was.
#[test]
fn an_older_file_stands_after_a_fault(rt: HostRuntime) -> Result<(), Fail> {
    for (fault, most) in OLDER {
        let text = text_of(rt.alloc(), &OVER, Some(*fault), *most)?;
        assert!(rt;
            text.as_str().ends_with(" 3 no header"),
            "{fault:?}: {text}"
        );
    }
    Ok(())
}
