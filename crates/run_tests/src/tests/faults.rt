// Runs over folders in which a call fails. No new file stands then, and an older one is as it was.

use super::calls::LONE;
use super::inputs::{Input, ONE, folder_of};
use super::waits::WAITS;
use super::{ONE_REPORT, ends_of};
use std::alloc::{AllocError, Global};
use std::process::Abort;
use std::test::Fail;
use std::thread::Threads;
use trace_outside::{MemFault, MemFolder};
use trace_run::Status;

/// What fails, and how a run ends then: its status, what it prints and what it says.
type Failing = (MemFault, Status, &'static str, &'static str);

struct Row {
    words: &'static [&'static str],
    file: Input,
    faults: &'static [Failing],
}

const READ_FAILED: &str = "trace-cmd: trace.dat: read failed\n";

const WRITE_FAILED: &str = "trace-cmd: write failed\n";

const ROWS: &[Row] = &[
    Row {
        words: &["report"],
        file: ONE,
        faults: &[
            (MemFault::ReadAt(40), Status::ReadFault, "", READ_FAILED),
            (
                MemFault::ReadAt(4096),
                Status::ReadFault,
                "cpus=1\n",
                READ_FAILED,
            ),
            // past the end of the file
            (MemFault::ReadAt(8192), Status::Done, ONE_REPORT, ""),
        ],
    },
    // of calls and of wake-ups all is read before the first byte is printed
    Row {
        words: &["report", "--calls"],
        file: LONE,
        faults: &[
            (MemFault::ReadAt(4096), Status::ReadFault, "", READ_FAILED),
            (
                MemFault::ReadAt(8192),
                Status::Done,
                "cpus=1\n              sh-7     [000]     0.000001:              |   } /* inner */\n",
                "",
            ),
        ],
    },
    Row {
        words: &["report", "-w"],
        file: WAITS,
        faults: &[(MemFault::ReadAt(4096), Status::ReadFault, "", READ_FAILED)],
    },
    Row {
        words: &["split"],
        file: ONE,
        faults: &[
            (MemFault::ReadAt(4096), Status::ReadFault, "", READ_FAILED),
            (MemFault::Create(1), Status::WriteFault, "", WRITE_FAILED),
            (MemFault::Finish(1), Status::WriteFault, "", WRITE_FAILED),
        ],
    },
    // a restore names the file that cannot be read
    Row {
        words: &["restore", "-i", "p.dat", "-o", "out.dat", "c0"],
        file: Input::Apart(83),
        faults: &[
            (
                MemFault::ReadAt(40),
                Status::ReadFault,
                "",
                "trace-cmd: p.dat: read failed\n",
            ),
            (
                MemFault::ReadAt(4000),
                Status::ReadFault,
                "",
                "trace-cmd: c0: read failed\n",
            ),
            (
                MemFault::Open(2),
                Status::ReadFault,
                "",
                "trace-cmd: c0: read failed\n",
            ),
            (MemFault::Create(1), Status::WriteFault, "", WRITE_FAILED),
            (MemFault::Write(2), Status::WriteFault, "", WRITE_FAILED),
            (MemFault::Finish(1), Status::WriteFault, "", WRITE_FAILED),
        ],
    },
];

// No new file stands, and an older one is as it was. A report makes none.
fn stays(folder: &MemFolder, is_report: bool) -> bool {
    folder.get("trace.dat.1").is_none()
        && folder.get("out.dat") == Some(b"older".as_slice())
        && (!is_report || folder.counts().created == 0)
}

fn fails_as<R: Alloc<A = Global> + Abort + Threads + Sync>(
    rt: &R,
    row: &Row,
    failing: &Failing,
) -> Result<(), AllocError> {
    let (fault, status, out, err) = *failing;
    let mut folder = folder_of(rt.alloc(), &row.file)?;
    folder.put("out.dat", b"older")?;
    folder.fail(fault);
    ends_of(rt, row.words, &mut folder, (status, out, err))?;
    let is_report = !row.words.is_empty() && row.words[0] == "report";
    assert!(rt; stays(&folder, is_report), "{fault:?}");
    Ok(())
}

fn all_fail<R: Alloc<A = Global> + Abort + Threads + Sync>(
    rt: &R,
    row: &Row,
) -> Result<(), AllocError> {
    for failing in row.faults {
        fails_as(rt, row, failing)?;
    }
    Ok(())
}

#[test]
fn failing_runs(rt: HostRuntime) -> Result<(), Fail> {
    for row in ROWS {
        all_fail(&rt, row)?;
    }
    Ok(())
}
