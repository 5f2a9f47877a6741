// Texts of a header that are long in every way: one part again and again.

use super::long::{Long, put_long, text_of};
use super::runs::{EVENT, file_of, prints, run_line_over};
use std::alloc::{Alloc, AllocError, Global};
use std::process::Abort;
use std::test::Fail;
use std::thread::Threads;
use trace_run::Status;
use trace_samples::TraceFile;

const HEAD: &str = "name: sum\nID: 7\nformat:\n\tfield:int a;\toffset:4;\tsize:4;\tsigned:1;\n\n";

// A file with an event, whose format begins so and has this print fmt.
fn file_with(alloc: Global, head: &str, print: &Long) -> Result<Vec<u8>, AllocError> {
    let mut format = String::new(alloc);
    format.push_str(head)?;
    put_long(alloc, &mut format, print)?;
    file_of(alloc, format.as_bytes(), EVENT)
}

// The report of an event, whose format has this print fmt, is this text.
fn print_fmt_gives<R: Alloc<A = Global> + Abort + Threads + Sync>(
    rt: &R,
    print: &Long,
    text: &str,
) -> Result<(), AllocError> {
    let file = file_with(rt.alloc(), HEAD, print)?;
    let out = format!(in rt.alloc();
        "cpus=1\n           <...>-1     [000]     0.000001: sum:                  {text}\n"
    )?;
    prints(rt, "report", &file, out.as_bytes())
}

/// Print fmts and their texts. A row of operators nests nothing; the 65th prefix or bracket is too deep.
const PRINTS: &[(Long, &str)] = &[
    (
        Long {
            begin: "print fmt: \"%d\", 1",
            part: " + 1",
            count: 100_000,
            end: "\n",
        },
        "100001",
    ),
    (
        Long {
            begin: "print fmt: \"%d\", REC->a",
            part: " - -REC->a * 1",
            count: 100_000,
            end: "\n",
        },
        "100001",
    ),
    (
        Long {
            begin: "print fmt: \"%d\", ",
            part: "!",
            count: 64,
            end: "7\n",
        },
        "1",
    ),
    (
        Long {
            begin: "print fmt: \"%d\", ",
            part: "!",
            count: 100_000,
            end: "7\n",
        },
        "[FAILED TO PARSE] a=1",
    ),
    (
        Long {
            begin: "print fmt: \"%d\", ",
            part: "(",
            count: 100_000,
            end: "7\n",
        },
        "[FAILED TO PARSE] a=1",
    ),
    (
        Long {
            begin: "print fmt: \"%d\", 1",
            part: " ? 1",
            count: 100_000,
            end: "\n",
        },
        "[FAILED TO PARSE] a=1",
    ),
    (
        Long {
            begin: "print fmt: \"",
            part: "%%",
            count: 5,
            end: "\"\n",
        },
        "%%%%%",
    ),
    (
        Long {
            begin: "print fmt: \"%s\", __print_symbolic(REC->a",
            part: ", { 2, \"x\" }",
            count: 100_000,
            end: ", { 1, \"found\" })\n",
        },
        "found",
    ),
    (
        Long {
            begin: "print fmt: \"%d\", 7",
            part: ", 7",
            count: 100_000,
            end: "\n",
        },
        "7",
    ),
    (
        Long {
            begin: "print fmt: \"\"",
            part: " \"\"",
            count: 300_000,
            end: " \"joined\"\n",
        },
        "joined",
    ),
];

#[test]
fn long_print_fmts(rt: HostRuntime) -> Result<(), Fail> {
    for (print, text) in PRINTS {
        print_fmt_gives(&rt, print, text)?;
    }
    Ok(())
}

/// Format texts of 16 MB: field lines, lines of no meaning, and a print fmt of one text.
const LARGE: &[Long] = &[
    Long {
        begin: "name: sum\nID: 7\nformat:\n",
        part: "\tfield:int a;\toffset:4;\tsize:4;\tsigned:1;\n",
        count: 381_300,
        end: "\nprint fmt: \"%d\", REC->a\n",
    },
    Long {
        begin: "name: sum\nID: 7\nformat:\n\tfield:int a;\toffset:4;\tsize:4;\tsigned:1;\n",
        part: "\n",
        count: 16_777_216,
        end: "print fmt: \"%d\", REC->a\n",
    },
    Long {
        begin: "name: sum\nID: 7\nformat:\n\tfield:int a;\toffset:4;\tsize:4;\tsigned:1;\nprint fmt: \"%d\", REC->a",
        part: " ",
        count: 16_777_216,
        end: "\n",
    },
];

const ONE: &[u8] = b"cpus=1\n           <...>-1     [000]     0.000001: sum:                  1\n";

fn is_one<R: Alloc<A = Global> + Abort + Threads + Sync>(
    rt: &R,
    format: &Long,
) -> Result<(), AllocError> {
    let file = file_with(rt.alloc(), "", format)?;
    prints(rt, "report", &file, ONE)
}

#[test]
fn format_texts_of_sixteen_megabytes(rt: HostRuntime) -> Result<(), Fail> {
    for long in LARGE {
        is_one(&rt, long)?;
    }
    Ok(())
}

const LONGER_THAN_A_LINE: Long = Long {
    begin: "print fmt: \"",
    part: "x",
    count: 16_777_216,
    end: "%d\", REC->a\n",
};

// A line of more than 65,536 bytes is its first 65,533 and an ellipsis.
#[test]
fn a_text_longer_than_a_line(rt: HostRuntime) -> Result<(), Fail> {
    let file = file_with(rt.alloc(), HEAD, &LONGER_THAN_A_LINE)?;
    let (ran, _) = run_line_over(&rt, "report", &file)?;
    let out = ran.out.bytes();
    assert!(rt;
        ran.status == Status::Done && out.len() == 7 + 65_537 && out.ends_with(b"xxx...\n")
    );
    Ok(())
}

// Of equal ids the first counts; the others are there for nothing.
fn add_formats_of_one_id(trace: &mut TraceFile) -> Result<(), AllocError> {
    trace.add_ftrace(b"name: first\nID: 7\nprint fmt: \"one\"\n")?;
    for _ in 1..100_000_u32 {
        trace.add_ftrace(b"name: other\nID: 7\nprint fmt: \"two\"\n")?;
    }
    trace.add_processor(EVENT)
}

fn formats_of_one_id(alloc: Global) -> Result<Vec<u8>, AllocError> {
    let mut trace = TraceFile::new(alloc);
    add_formats_of_one_id(&mut trace)?;
    trace.bytes(alloc)
}

const FIRST: &[u8] =
    b"cpus=1\n           <...>-1     [000]     0.000001: first:                one\n";

#[test]
fn many_formats_of_one_id(rt: HostRuntime) -> Result<(), Fail> {
    let file = formats_of_one_id(rt.alloc())?;
    prints(&rt, "report", &file, FIRST)?;
    prints(&rt, "report -E", &file, b"ftrace/first\n")?;
    Ok(())
}

fn with_symbols(alloc: Global, kallsyms: &[u8]) -> Result<Vec<u8>, AllocError> {
    let mut trace = TraceFile::new(alloc);
    trace.kallsyms.extend_from_slice(kallsyms)?;
    trace.bytes(alloc)
}

fn lists_symbols<R: Alloc<A = Global> + Abort + Threads + Sync>(
    rt: &R,
    kallsyms: &[u8],
    out: &[u8],
) -> Result<(), AllocError> {
    let file = with_symbols(rt.alloc(), kallsyms)?;
    prints(rt, "report -f", &file, out)
}

// Their addresses fall from a hundred thousand to 1, and rise in the list.
fn put_falling(text: &mut String) -> Result<(), AllocError> {
    for i in 0..100_000_u32 {
        let address = 100_000 - i;
        write!(text, "{address:x} T s\n")?;
    }
    Ok(())
}

fn put_rising(text: &mut String) -> Result<(), AllocError> {
    for i in 1..100_001_u32 {
        write!(text, "{i:016x} s\n")?;
    }
    Ok(())
}

#[test]
fn symbols_by_falling_addresses(rt: HostRuntime) -> Result<(), Fail> {
    let mut kallsyms = String::new(rt.alloc());
    put_falling(&mut kallsyms)?;
    let mut out = String::new(rt.alloc());
    put_rising(&mut out)?;
    lists_symbols(&rt, kallsyms.as_bytes(), out.as_bytes())?;
    Ok(())
}

/// Symbols, and the list of them: a million of one address, a name of a megabyte, and an address of a million digits, which is
/// none.
const SYMBOLS: &[(Long, Long)] = &[
    (
        Long {
            begin: "ffffffff81000000 T first\n",
            part: "ffffffff81000000 T s\n",
            count: 1_000_000,
            end: "",
        },
        Long {
            begin: "ffffffff81000000 first\n",
            part: "",
            count: 0,
            end: "",
        },
    ),
    (
        Long {
            begin: "1 T ",
            part: "x",
            count: 1_048_576,
            end: "\n",
        },
        Long {
            begin: "0000000000000001 ",
            part: "x",
            count: 1_048_576,
            end: "\n",
        },
    ),
    (
        Long {
            begin: "",
            part: "f",
            count: 1_048_576,
            end: " T s\n",
        },
        Long {
            begin: "",
            part: "",
            count: 0,
            end: "",
        },
    ),
];

fn lists_long<R: Alloc<A = Global> + Abort + Threads + Sync>(
    rt: &R,
    kallsyms: &Long,
    listed: &Long,
) -> Result<(), AllocError> {
    let kallsyms = text_of(rt.alloc(), kallsyms)?;
    let out = text_of(rt.alloc(), listed)?;
    lists_symbols(rt, kallsyms.as_bytes(), out.as_bytes())
}

#[test]
fn long_lists_of_symbols(rt: HostRuntime) -> Result<(), Fail> {
    for (kallsyms, listed) in SYMBOLS {
        lists_long(&rt, kallsyms, listed)?;
    }
    Ok(())
}

const NAMES: Long = Long {
    begin: "",
    part: "1 sh\n",
    count: 1_000_000,
    end: "1 last\n",
};

const NAMED: &[u8] = b"cpus=1\n            last-1     [000]     0.000001: [UNKNOWN EVENT 7]\n";

fn with_names(alloc: Global, names: &[u8]) -> Result<Vec<u8>, AllocError> {
    let mut trace = TraceFile::new(alloc);
    trace.command_lines.extend_from_slice(names)?;
    trace.add_processor(EVENT)?;
    trace.bytes(alloc)
}

// A million saved names, of which the last one of the pid counts.
#[test]
fn a_million_names_of_one_task(rt: HostRuntime) -> Result<(), Fail> {
    let names = text_of(rt.alloc(), &NAMES)?;
    let file = with_names(rt.alloc(), names.as_bytes())?;
    prints(&rt, "report", &file, NAMED)?;
    Ok(())
}
