// What is read of the files: of the partial one no more than its header, and each data file once.

use crate::restores::told::{ALL, Data, Partial, Row, bytes_read};
use std::test::Fail;
use trace_outside::MemFault;

const fn of(partial: Partial) -> Row {
    Row {
        partial,
        files: &[("c0", Data::Event), ("c1", Data::Zeros(100))],
        output: "out.dat",
        told: "",
    }
}

/// A partial file, and how many bytes its header and the data files have.
const READ: &[(Partial, u64)] = &[
    (Partial::Cut(83), 83 + 4096 + 100),
    // without command lines
    (Partial::Cut(75), 75 + 4096 + 100),
    // the command lines of 20 bytes begin at byte 83, and nothing after them is read
    (Partial::Longer(20), 103 + 4096 + 100),
];

#[test]
fn each_byte_is_read_once(rt: HostRuntime) -> Result<(), Fail> {
    for (partial, sum) in READ {
        for most in [ALL, 1] {
            let read = bytes_read(rt.alloc(), &of(*partial), None, most)?;
            assert!(rt; read == *sum, "{read} of {sum}");
        }
    }
    Ok(())
}

/// A write that fails: of the header, of the zero bytes after it, of each data file; and the making and finishing of the file.
const FAULTS: &[MemFault] = &[
    MemFault::Write(1),
    MemFault::Write(1000),
    MemFault::Write(5000),
    MemFault::Write(8292),
    MemFault::Create(1),
    MemFault::Finish(1),
];

#[test]
fn no_more_is_read_where_the_file_cannot_be_made(rt: HostRuntime) -> Result<(), Fail> {
    for (partial, sum) in READ {
        for fault in FAULTS {
            let read = bytes_read(rt.alloc(), &of(*partial), Some(*fault), 1)?;
            assert!(rt; read <= *sum, "{fault:?}: {read} of {sum}");
        }
    }
    Ok(())
}
