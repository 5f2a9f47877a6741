//! Names, and fronts of files against headers that were written out.

ghost use Rattle.std.specs.Prelude.{IfOk};
ghost use Rattle.dat_header.specs.Allowed.{IsHeader};

use dat_header::{Body, Header, OpenFault, read_header, text_before_table};
use split_tool::{FileName, data_place, put_name, write_front};
use std::alloc::Global;
use std::test::Fail;
use trace_base::ByteText;
use trace_outside::{Failed, MemFile, MemSink, Sink};

const LITTLE: &[u8] =
    b"\x17\x08\x44tracing6\0\0\x08\0\x10\0\0header_page\0\0\0\0\0\0\0\0\0header_event\0\0\0\0\0\0\0\0\0\
\0\0\0\0\0\0\0\0\0\0\0\0\0\0\0\0\0\0\0\0\0\0\0\0\x01\0\0\0flyrecord\0\0\x10\0\0\0\0\0\0\0\x20\0\0\0\0\0\0";

const BIG: &[u8] =
    b"\x17\x08\x44tracing6\0\x01\x04\0\x01\0\0header_page\0\0\0\0\0\0\0\0\0header_event\0\0\0\0\0\0\0\0\0\
\0\0\0\0\0\0\0\0\0\0\0\0\0\0\0\0\0\0\0\0\0\0\0\0\0\0\0\0flyrecord\0";

fn open(alloc: Global, bytes: &[u8]) -> Result<Header, OpenFault>
    ensures { IfOk result IsHeader }
{
    let Ok(bytes) = ByteText::copy(alloc, bytes) else {
        return Err(OpenFault::Memory);
    };
    read_header(alloc, &mut MemFile::new(bytes))
}

// Writes the front of a file with this header, and tells where the sub-buffers stand.
fn place_behind<O: Sink>(alloc: Global, bytes: &[u8], out: &mut O) -> Option<u64> {
    let Ok(header) = open(alloc, bytes) else {
        return None;
    };
    let Body::Fly(parts) = &header.body else {
        return None;
    };
    let Ok(before) = text_before_table(alloc, &header) else {
        return None;
    };
    match write_front(&header, &before, parts.as_slice(), out) {
        Ok(()) => Some(data_place(&header)),
        Err(Failed) => None,
    }
}

#[test]
fn zero_bytes_stand_behind_the_header(rt: HostRuntime) -> Result<(), Fail> {
    let alloc = rt.alloc();
    // A write each for what stands in front of the table, for a table with a part, and for up to 4,096 zero bytes.
    for (bytes, page, writes) in [(LITTLE, 4096, 3), (BIG, 65_536, 17)] {
        let mut out = MemSink::new(alloc);
        assert_eq!(rt; place_behind(alloc, bytes, &mut out), Some(page));
        assert_eq!(rt; out.writes(), writes);
        let front = out.bytes();
        assert_eq!(rt; front.len() as u64, page);
        assert!(rt; front.starts_with(bytes), "header");
        assert!(rt;
            front.iter().skip(bytes.len()).all(|byte| *byte == 0),
            "zero bytes"
        );
    }
    Ok(())
}

#[test]
fn names_and_faults(rt: HostRuntime) -> Result<(), Fail> {
    let alloc = rt.alloc();
    let mut made = FileName::new();
    for (base, number, name) in [
        ("trace.dat", 1, "trace.dat.1"),
        ("part", 10, "part.10"),
        ("", u128::MAX, ".340282366920938463463374607431768211455"),
    ] {
        put_name(base, number, &mut made);
        assert_eq!(rt; made.as_str(), name);
    }
    let mut out = MemSink::new(alloc);
    out.fail_from(1);
    assert_eq!(rt; place_behind(alloc, BIG, &mut out), None);
    assert_eq!(rt; out.faults(), 1);
    Ok(())
}
