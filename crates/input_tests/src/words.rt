// Command lines and filters of a megabyte.

use super::long::{Long, text_of};
use super::runs::{EVENT, answers, file_of, run_over};
use std::alloc::{Alloc, AllocError, Global};
use std::process::Abort;
use std::test::Fail;
use std::thread::Threads;
use trace_base::Words;
use trace_run::Status;

const FORMAT: &[u8] =
    b"name: sum\nID: 7\nformat:\n\tfield:int a;\toffset:4;\tsize:4;\tsigned:1;\n\nprint fmt: \"x\"\n";

const SHOWN: &str = "cpus=1\n           <...>-1     [000]     0.000001: sum:                  x\n";

const RAW: &str = "cpus=1\n           <...>-1     [000]     0.000001: sum:                  a=1\n";

/// Filters after `report -F`, what is printed, and the place at which the filter goes wrong, if it does.
const FILTERS: &[(Long, &str, &str)] = &[
    // the 65th bracket, after a blank on each side of the colon; and the 65th prefix
    (
        Long {
            begin: "sched : ",
            part: "(",
            count: 65,
            end: "",
        },
        "",
        "trace-cmd: word 3: bad filter at byte 72\n",
    ),
    (
        Long {
            begin: "a:",
            part: "!",
            count: 100_000,
            end: "1",
        },
        "",
        "trace-cmd: word 3: bad filter at byte 66\n",
    ),
    (
        Long {
            begin: "sum:",
            part: "!",
            count: 64,
            end: "a",
        },
        SHOWN,
        "",
    ),
    // a megabyte of conditions, of events, of blanks, and of digits
    (
        Long {
            begin: "sum:",
            part: "CPU == 9 || ",
            count: 87_400,
            end: "a == 1",
        },
        SHOWN,
        "",
    ),
    (
        Long {
            begin: "sum:a",
            part: " + 1",
            count: 262_144,
            end: " == 262145",
        },
        SHOWN,
        "",
    ),
    (
        Long {
            begin: "",
            part: "none,",
            count: 209_716,
            end: "sum",
        },
        SHOWN,
        "",
    ),
    (
        Long {
            begin: "sum:",
            part: " ",
            count: 1_048_576,
            end: "a",
        },
        SHOWN,
        "",
    ),
    (
        Long {
            begin: "sum:",
            part: "0",
            count: 1_048_576,
            end: "1",
        },
        SHOWN,
        "",
    ),
    (
        Long {
            begin: "sum:",
            part: "9",
            count: 1_048_576,
            end: "",
        },
        "",
        "trace-cmd: word 3: bad filter at byte 4\n",
    ),
    (
        Long {
            begin: "sum:",
            part: "a||",
            count: 349_525,
            end: "",
        },
        "",
        "trace-cmd: word 3: bad filter at byte 1048579\n",
    ),
];

fn push_filter(words: &mut Words, filter: &str) -> Result<(), AllocError> {
    words.push("report")?;
    words.push("-F")?;
    words.push(filter)
}

fn is_filtered<R: Alloc<A = Global> + Abort + Threads + Sync>(
    rt: &R,
    file: &[u8],
    filter: &str,
    out: &str,
    err: &str,
) -> Result<(), AllocError> {
    let mut words = Words::new(rt.alloc());
    push_filter(&mut words, filter)?;
    let status = if err.is_empty() {
        Status::Done
    } else {
        Status::Usage
    };
    let (ran, _) = run_over(rt, &words, file)?;
    assert!(rt;
        ran.status == status
            && ran.err.bytes() == err.as_bytes()
            && ran.out.bytes() == out.as_bytes(),
        "{err}"
    );
    Ok(())
}

fn is_long_filtered<R: Alloc<A = Global> + Abort + Threads + Sync>(
    rt: &R,
    file: &[u8],
    (long, out, err): &(Long, &str, &str),
) -> Result<(), AllocError> {
    let filter = text_of(rt.alloc(), long)?;
    is_filtered(rt, file, filter.as_str(), out, err)
}

fn all_are_filtered<R: Alloc<A = Global> + Abort + Threads + Sync>(
    rt: &R,
    file: &[u8],
) -> Result<(), AllocError> {
    for row in FILTERS {
        is_long_filtered(rt, file, row)?;
    }
    Ok(())
}

#[test]
fn filters_of_a_megabyte(rt: HostRuntime) -> Result<(), Fail> {
    let file = file_of(rt.alloc(), FORMAT, EVENT)?;
    all_are_filtered(&rt, &file)?;
    Ok(())
}

/// Lines that begin so, have words again and again, and end so; the status, the output and the message.
const LINES: &[(Long, Status, &str, &str)] = &[
    (
        Long {
            begin: "report",
            part: " -r no",
            count: 174_762,
            end: "",
        },
        Status::Done,
        SHOWN,
        "",
    ),
    (
        Long {
            begin: "report",
            part: " -r no",
            count: 174_762,
            end: " -r sum",
        },
        Status::Done,
        RAW,
        "",
    ),
    (
        Long {
            begin: "report",
            part: " -t",
            count: 349_526,
            end: " -x",
        },
        Status::Usage,
        "",
        "trace-cmd: word 349528: unknown word\n",
    ),
    (
        Long {
            begin: "report",
            part: " -F no",
            count: 174_762,
            end: " -F sum",
        },
        Status::Done,
        SHOWN,
        "",
    ),
    (
        Long {
            begin: "report -",
            part: "R",
            count: 1_048_576,
            end: "",
        },
        Status::Done,
        RAW,
        "",
    ),
    (
        Long {
            begin: "report",
            part: " -i a",
            count: 209_715,
            end: "",
        },
        Status::Usage,
        "",
        "trace-cmd: word 18: given twice\n",
    ),
    (
        Long {
            begin: "report trace.dat",
            part: " a",
            count: 524_288,
            end: "",
        },
        Status::Usage,
        "",
        "trace-cmd: word 3: given twice\n",
    ),
    (
        Long {
            begin: "report --cpu 0",
            part: ",0",
            count: 524_288,
            end: "",
        },
        Status::Done,
        SHOWN,
        "",
    ),
    (
        Long {
            begin: "dump",
            part: " --validate",
            count: 95_326,
            end: "",
        },
        Status::Done,
        "valid\n",
        "",
    ),
    (
        Long {
            begin: "x",
            part: "x",
            count: 1_048_576,
            end: "",
        },
        Status::Usage,
        "",
        "trace-cmd: word 1: unknown word\n",
    ),
];

fn is_answered<R: Alloc<A = Global> + Abort + Threads + Sync>(
    rt: &R,
    file: &[u8],
    long: &Long,
    status: Status,
    (out, err): (&str, &str),
) -> Result<(), AllocError> {
    let line = text_of(rt.alloc(), long)?;
    answers(
        rt,
        line.as_str(),
        file,
        status,
        out.as_bytes(),
        err.as_bytes(),
    )
}

fn all_are_answered<R: Alloc<A = Global> + Abort + Threads + Sync>(
    rt: &R,
    file: &[u8],
) -> Result<(), AllocError> {
    for (long, status, out, err) in LINES {
        is_answered(rt, file, long, *status, (*out, *err))?;
    }
    Ok(())
}

#[test]
fn command_lines_of_a_megabyte(rt: HostRuntime) -> Result<(), Fail> {
    let file = file_of(rt.alloc(), FORMAT, EVENT)?;
    all_are_answered(&rt, &file)?;
    Ok(())
}
