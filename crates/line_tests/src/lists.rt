// The lists of a report.

use crate::formats::with_texts;
use format_parse::FormatTable;
use report_lists::{put_event_formats, put_event_names, put_printk_formats, put_symbols};
use std::alloc::{AllocError, Global};
use std::test::Fail;
use symbols::Symbols;
use trace_base::ByteText;
use trace_outside::{Failed, MemSink, Pending};

const KALLSYMS: &[u8] = b"ffffffff81000100 t do_idle\nffffffff81000000 T schedule\n";

const PRINTK: &[u8] = b"0x1f : \"Rescheduling\\n\"\n";

const EVENTS: &[u8] =
    b"ftrace/function\nsched/sched_switch\nname: function\nID: 1\nname: sched_switch\nID: 316\n";

const NAMES: &[u8] =
    b"ffffffff81000000 schedule\nffffffff81000100 do_idle\n0x000000000000001f : Rescheduling\\n\n";

fn formats(alloc: Global) -> Result<FormatTable, AllocError> {
    let formats = FormatTable::new(alloc);
    let formats = with_texts(alloc, formats, b"ftrace", "name: function\nID: 1\n")?;
    with_texts(alloc, formats, b"sched", "name: sched_switch\nID: 316")
}

fn put_events(
    pending: &mut Pending,
    out: &mut MemSink,
    formats: &FormatTable,
) -> Result<(), Failed> {
    put_event_names(pending, out, formats)?;
    put_event_formats(pending, out, formats)?;
    pending.flush(out)
}

fn put_names(pending: &mut Pending, out: &mut MemSink, symbols: &Symbols) -> Result<(), Failed> {
    put_symbols(pending, out, symbols)?;
    put_printk_formats(pending, out, symbols)?;
    pending.flush(out)
}

#[test]
fn the_events_of_a_file(rt: HostRuntime) -> Result<(), Fail> {
    let formats = formats(rt.alloc())?;
    let mut pending = Pending::new(rt.alloc())?;
    let mut out = MemSink::new(rt.alloc());
    let is_put = put_events(&mut pending, &mut out, &formats).is_ok();
    assert!(rt; is_put && out.bytes() == EVENTS);
    Ok(())
}

#[test]
fn the_names_of_a_file(rt: HostRuntime) -> Result<(), Fail> {
    let symbols = Symbols::read(
        rt.alloc(),
        ByteText::copy(rt.alloc(), KALLSYMS)?,
        ByteText::copy(rt.alloc(), PRINTK)?,
        ByteText::copy(rt.alloc(), b"")?,
    )?;
    let mut pending = Pending::new(rt.alloc())?;
    let mut out = MemSink::new(rt.alloc());
    let is_put = put_names(&mut pending, &mut out, &symbols).is_ok();
    assert!(rt; is_put && out.bytes() == NAMES);
    Ok(())
}
