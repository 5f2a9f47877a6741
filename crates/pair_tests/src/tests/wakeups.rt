// Sections of latencies: the items of two processors, and the text that comes of them.

mod formats;
mod sections;

use crate::tests::contexts::context_of;
use crate::tests::sub_buffers::recording_of;
use formats::formats;
use item_pass::PassFault;
use report_print::Context;
use sections::{IN_FULL, ROWS};
use std::alloc::{AllocError, Global};
use std::test::Fail;
use trace_base::{ByteText, Part};
use trace_outside::{File, MemFile, MemSink, Pending, Sink};
use trace_samples::layout;
use wakeup_lat::{gather, put_wakeups};
use wakeup_pairs::Wakeups;

fn gather_from<F: File>(
    alloc: Global,
    context: &Context,
    file: &mut F,
    middle: u64,
) -> Result<Wakeups, PassFault> {
    let size = file.len().saturating_sub(middle);
    let first = Part {
        offset: 0,
        size: middle,
    };
    let second = Part {
        offset: middle,
        size,
    };
    gather(alloc, context, &layout(), file, &[(0, first), (1, second)])
}

// Writes the section, and answers whether it was written.
fn write_section<O: Sink>(
    alloc: Global,
    context: &Context,
    wakeups: &Wakeups,
    out: &mut O,
) -> Result<bool, AllocError> {
    let mut buffer = vec![in alloc; 0; 65_537]?;
    let mut pending = Pending::new(alloc)?;
    if put_wakeups(context, wakeups, &mut buffer, &mut pending, out).is_err() {
        return Ok(false);
    }
    Ok(pending.flush(out).is_ok())
}

fn wakeups_of(alloc: Global, context: &Context, items: &str) -> Result<Wakeups, Fail> {
    let recorded = recording_of(alloc, items)?;
    let mut file = MemFile::new(ByteText::from_vec(recorded.bytes));
    match gather_from(alloc, context, &mut file, recorded.middle) {
        Ok(wakeups) => Ok(wakeups),
        Err(_) => Err("wake-ups are gathered".into()),
    }
}

// Whether wake-ups have this section.
fn are_written(
    alloc: Global,
    context: &Context,
    wakeups: &Wakeups,
    section: &str,
) -> Result<bool, AllocError> {
    let mut out = MemSink::new(alloc);
    let whole = write_section(alloc, context, wakeups, &mut out)?;
    Ok(whole && out.bytes() == section.as_bytes())
}

// Whether a read fails where the file's bytes from this one cannot be read.
fn is_unread(alloc: Global, context: &Context, items: &str, from: u64) -> Result<bool, Fail> {
    let recorded = recording_of(alloc, items)?;
    let mut file = MemFile::new(ByteText::from_vec(recorded.bytes));
    file.fail_at(from);
    match gather_from(alloc, context, &mut file, recorded.middle) {
        Ok(_) => Ok(false),
        Err(fault) => Ok(fault == PassFault::Read),
    }
}

// Whether a sink that has room for 12 bytes has this front of the section.
fn have_front(
    alloc: Global,
    context: &Context,
    wakeups: &Wakeups,
    front: &str,
) -> Result<bool, AllocError> {
    let mut out = MemSink::new(alloc);
    out.short(12);
    out.fail_from(2);
    let whole = write_section(alloc, context, wakeups, &mut out)?;
    Ok(!whole && out.bytes() == front.as_bytes())
}

// Whether items have this section, or this front of it.
fn is_told(
    alloc: Global,
    context: &Context,
    items: &str,
    section: &str,
    whole: bool,
) -> Result<bool, Fail> {
    let wakeups = wakeups_of(alloc, context, items)?;
    if whole {
        return Ok(are_written(alloc, context, &wakeups, section)?);
    }
    Ok(have_front(alloc, context, &wakeups, section)?)
}

fn is_right(alloc: Global, context: &Context, row: &str) -> Result<bool, Fail> {
    let (title, told) = row.split_once("\n").ok_or("what a row shows")?;
    let (items, section) = told.split_once("\n").ok_or("a section")?;
    if let Some((_, from)) = title.split_once("no read from ") {
        return is_unread(alloc, context, items, from.parse()?);
    }
    is_told(alloc, context, items, section, title != "a full sink")
}

// The first row that is not right; none is the empty text.
fn wrong_of(alloc: Global, context: &Context, rows: &'static str) -> Result<&'static str, Fail> {
    for row in rows.split('#') {
        if !is_right(alloc, context, row)? {
            return Ok(row);
        }
    }
    Ok("")
}

// The same where the columns of latencies and all digits of times are shown, or not.
fn wrong_row(alloc: Global, all: bool, rows: &'static str) -> Result<&'static str, Fail> {
    let context = context_of(alloc, formats(alloc)?, b"", all)?;
    wrong_of(alloc, &context, rows)
}

#[test]
fn wake_ups_are_paired_with_switches(rt: HostRuntime) -> Result<(), Fail> {
    assert_eq!(rt; wrong_row(rt.alloc(), false, ROWS)?, "");
    Ok(())
}

#[test]
fn columns_of_latencies_and_all_digits_of_times(rt: HostRuntime) -> Result<(), Fail> {
    assert_eq!(rt; wrong_row(rt.alloc(), true, IN_FULL)?, "");
    Ok(())
}
