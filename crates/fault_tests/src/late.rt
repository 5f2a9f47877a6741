// A sub-buffer that cannot be read, after 2,720 lines of its processor.

use super::world::{run_in, world_of};
use sample_runs::is_first_lines;
use std::alloc::{Alloc, AllocError, Global};
use std::process::Abort;
use std::test::Fail;
use std::thread::Threads;
use trace_outside::MemFault;
use trace_run::Status;
use trace_samples::{many_events, many_events_report};

fn prints_all<R: Alloc<A = Global> + Abort + Threads + Sync>(
    rt: &R,
    line: &str,
    file: &[u8],
    whole: &[u8],
) -> Result<(), AllocError> {
    let mut world = world_of(rt.alloc(), file)?;
    let status = run_in(rt, line, &mut world)?;
    assert!(rt;
        status == Status::Done && world.out.bytes() == whole,
        "{line}"
    );
    Ok(())
}

// More than 2,000 of the first lines.
fn is_long_front(text: &[u8], whole: &[u8]) -> bool {
    is_first_lines(text, whole) && text.iter().filter(|byte| **byte == b'\n').count() > 2000
}

fn prints_front<R: Alloc<A = Global> + Abort + Threads + Sync>(
    rt: &R,
    line: &str,
    file: &[u8],
    whole: &[u8],
) -> Result<(), AllocError> {
    let mut world = world_of(rt.alloc(), file)?;
    world.folder.fail(MemFault::ReadAt(40_959));
    let status = run_in(rt, line, &mut world)?;
    assert!(rt;
        status == Status::ReadFault && is_long_front(world.out.bytes(), whole),
        "{line}"
    );
    Ok(())
}

fn all_print<R: Alloc<A = Global> + Abort + Threads + Sync>(
    rt: &R,
    file: &[u8],
    whole: &[u8],
) -> Result<(), AllocError> {
    for line in ["report -t", "report -t --workers 3"] {
        prints_all(rt, line, file, whole)?;
        prints_front(rt, line, file, whole)?;
    }
    Ok(())
}

#[test]
fn two_thousand_lines_before_a_failed_read(rt: HostRuntime) -> Result<(), Fail> {
    let file = many_events(rt.alloc())?;
    let whole = many_events_report(rt.alloc())?;
    all_print(&rt, &file, whole.as_bytes())?;
    Ok(())
}
