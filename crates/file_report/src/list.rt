// The lists that a report prints in place of the events.

ghost use Rattle.std.specs.Prelude.{Some, ◌≡◌, []};
ghost use Rattle.trace_outside.specs.Pending.{PutsText, on_way};
ghost use Rattle.run_endings.specs.Ending.{Prints};
ghost use Rattle.file_report.specs.Lists.{list_text};
ghost use Rattle.file_report.specs.Meaning.{list_report};
ghost use Rattle.run_endings.specs.Outside.{sink_seen};
ghost use Rattle.run_endings.specs.Output.{WritesText};

use dat_header::Header;
use format_parse::FormatTable;
use report_context::{read_formats, read_symbols};
use report_lists::{put_event_formats, put_event_names, put_printk_formats, put_symbols};
use run_endings::Status;
use std::alloc::Global;
use symbols::Symbols;
use trace_outside::{Failed, Pending, Sink};
use word_values::Listing;

/// Prints a list of a header's. No file is read.
pub(crate) fn print_list<O: Sink>(
    alloc: Global,
    list: Listing,
    header: Header,
    out: &mut O,
) -> Status
    ensures { Prints ⊥ (Some (list_report header list)) result (sink_seen O.Sink out.old) (sink_seen O.Sink out.new) }
{
    let Ok(formats) = read_formats(alloc, &header) else {
        return Status::NoMemory;
    };
    let Ok(symbols) = read_symbols(alloc, header) else {
        return Status::NoMemory;
    };
    let Ok(mut pending) = Pending::new(alloc) else {
        return Status::NoMemory;
    };
    match put_whole(list, &formats, &symbols, &mut pending, out) {
        Ok(()) => Status::Done,
        Err(Failed) => Status::WriteFault,
    }
}

// Puts a list and writes all of it.
fn put_whole<O: Sink>(
    list: Listing,
    formats: &FormatTable,
    symbols: &Symbols,
    pending: &mut Pending,
    out: &mut O,
) -> Result<(), Failed>
    requires { pending.old ≡ [] }
    ensures { WritesText (list_text formats.now symbols.now list) (sink_seen O.Sink out.old) (sink_seen O.Sink out.new) result }
{
    put_list(list, formats, symbols, pending, out)?;
    pending.flush(out)
}

fn put_list<O: Sink>(
    list: Listing,
    formats: &FormatTable,
    symbols: &Symbols,
    pending: &mut Pending,
    out: &mut O,
) -> Result<(), Failed>
    ensures { PutsText (list_text formats.now symbols.now list) (on_way O.written O.name O.faults out.old pending.old) (on_way O.written O.name O.faults out.new pending.new) result }
{
    match list {
        Listing::Names => put_event_names(pending, out, formats),
        Listing::Formats => put_event_formats(pending, out, formats),
        Listing::Symbols => put_symbols(pending, out, symbols),
        Listing::Printk => put_printk_formats(pending, out, symbols),
    }
}
