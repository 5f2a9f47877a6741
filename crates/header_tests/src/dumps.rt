// Dumps into memory. What they print was written down by hand.

use crate::headers::open;
use dat_header::Header;
use dump_tool::dump;
use std::alloc::{AllocError, Global};
use std::process::Abort;
use std::test::Fail;
use trace_outside::{MemSink, Pending};
use word_values::Section;

/// Dumps of a little-endian file with one processor and nothing else.
const PLAIN: &[(&[Section], &str)] = &[
    (
        &[Section::Summary],
        "file trace.dat\nversion 6\norder little\nlong 8\npage 4096\nheader_page 0\nheader_event 0\nftrace formats 0\nsystems 0\nevents 0\nkallsyms 0\nprintk formats 0\ncommand lines 0\nprocessors 1\noptions 0\nbody flyrecord\n",
    ),
    (
        &[Section::Validate, Section::Flyrecord],
        "[flyrecord 1]\ncpu 0 offset 4096 size 4096\nvalid\n",
    ),
    (&[Section::Options], "[options 0]\n"),
    (&[], ""),
];

/// Each section of a big-endian latency file that has something in every part.
const FULL: &[(Section, &str)] = &[
    (
        Section::Summary,
        "file trace.dat\nversion 6\norder big\nlong 4\npage 8192\nheader_page 154\nheader_event 5\nftrace formats 2\nsystems 3\nevents 3\nkallsyms 0\nprintk formats 9\ncommand lines 11\nprocessors 2\noptions 2\nbody latency\n",
    ),
    (
        Section::HeadPage,
        "[header_page 154 bytes]\n\tfield: u64 timestamp;\toffset:0;\tsize:8;\tsigned:0;\n\tfield: local_t commit;\toffset:8;\tsize:4;\tsigned:1;\n\tfield: char data;\toffset:12;\tsize:8180;\tsigned:0;\n",
    ),
    (Section::HeadEvent, "[header_event 5 bytes]\nevent\n"),
    (
        Section::FtraceEvents,
        "[ftrace formats 2]\n[format 15 bytes]\nname: function\n[format 0 bytes]\n",
    ),
    (Section::Systems, "[systems 3]\nsched 2\nirq 0\ntimer 1\n"),
    (
        Section::Events,
        "[events 3]\n[sched 7 bytes]\nwakeup\n[sched 6 bytes]\nswitch\n[timer 5 bytes]\nstart\n",
    ),
    (Section::Kallsyms, "[kallsyms 0 bytes]\n"),
    (Section::Printk, "[printk formats 9 bytes]\n0x1 : \"a\"\n"),
    (
        Section::CmdLines,
        "[command lines 11 bytes]\n1 init\n2 sh\n",
    ),
    (
        Section::Options,
        "[options 2]\noption 1 3 bytes\noption 65535 0 bytes\n",
    ),
    (Section::Flyrecord, "[latency]\n"),
    (Section::Validate, "valid\n"),
];

/// The header of the first of these files.
const PLAIN_FILE: &[u8] =
    b"\x17\x08\x44tracing6\0\0\x08\0\x10\0\0header_page\0\0\0\0\0\0\0\0\0header_event\0\
\0\0\0\0\0\0\0\0\0\0\0\0\0\0\0\0\0\0\0\0\0\0\0\0\0\0\0\0\0\0\0\0\x01\0\0\0flyrecord\0\0\x10\0\0\0\0\0\0\0\x10\0\0\0\0\0\0";

/// The header of the second.
const FULL_FILE: &[u8] = b"\x17\x08\x44tracing6\0\x01\x04\0\0\x20\0header_page\0\0\0\0\0\0\0\0\x9a\
\tfield: u64 timestamp;\toffset:0;\tsize:8;\tsigned:0;\n\tfield: local_t commit;\toffset:8;\tsize:4;\tsigned:1;\n\tfield: char data;\toffset:12;\tsize:8180;\tsigned:0;\n\
header_event\0\0\0\0\0\0\0\0\x05event\
\0\0\0\x02\0\0\0\0\0\0\0\x0fname: function\n\0\0\0\0\0\0\0\0\
\0\0\0\x03sched\0\0\0\0\x02\0\0\0\0\0\0\0\x07wakeup\n\0\0\0\0\0\0\0\x06switch\
irq\0\0\0\0\0timer\0\0\0\0\x01\0\0\0\0\0\0\0\x05start\
\0\0\0\0\0\0\0\x090x1 : \"a\"\0\0\0\0\0\0\0\x0b1 init\n2 sh\
\0\0\0\x02options  \0\0\x01\0\0\0\x03abc\xff\xff\0\0\0\0\0\0latency  \0";

fn choose(chosen: &mut [bool; 12], sections: &[Section]) {
    for section in sections {
        if let Some(slot) = chosen.get_mut(section.place()) {
            *slot = true;
        }
    }
}

/// A dump of these sections prints this.
fn prints(
    rt: &impl Abort,
    alloc: Global,
    header: &Header,
    sections: &[Section],
    expected: &[u8],
) -> Result<(), AllocError> {
    let mut chosen = [false; 12];
    choose(&mut chosen, sections);
    let mut pending = Pending::new(alloc)?;
    let mut out = MemSink::new(alloc);
    let dumped = dump("trace.dat", &chosen, header, &mut pending, &mut out);
    assert!(rt; dumped.is_ok() && out.bytes() == expected);
    Ok(())
}

fn prints_plain(rt: &impl Abort, alloc: Global, header: &Header) -> Result<(), AllocError> {
    for (sections, expected) in PLAIN {
        prints(rt, alloc, header, sections, expected.as_bytes())?;
    }
    Ok(())
}

fn prints_full(rt: &impl Abort, alloc: Global, header: &Header) -> Result<(), AllocError> {
    for (section, expected) in FULL {
        prints(rt, alloc, header, &[*section], expected.as_bytes())?;
    }
    Ok(())
}

#[test]
fn dumps_print_their_sections(rt: HostRuntime) -> Result<(), Fail> {
    let header = open(rt.alloc(), PLAIN_FILE)?;
    prints_plain(&rt, rt.alloc(), &header)?;
    Ok(())
}

/// What all sections print, one after another.
fn put_all_texts(all: &mut Vec<u8>) -> Result<(), AllocError> {
    for (_, expected) in FULL {
        all.extend_from_slice(expected.as_bytes())?;
    }
    Ok(())
}

fn prints_all(rt: &impl Abort, alloc: Global, header: &Header) -> Result<(), AllocError> {
    let mut all = Vec::new(alloc);
    put_all_texts(&mut all)?;
    prints(rt, alloc, header, &Section::ALL, &all)
}

#[test]
fn all_sections_stand_in_their_order(rt: HostRuntime) -> Result<(), Fail> {
    let header = open(rt.alloc(), FULL_FILE)?;
    prints_full(&rt, rt.alloc(), &header)?;
    prints_all(&rt, rt.alloc(), &header)?;
    Ok(())
}
