ghost use Rattle.std.specs.Prelude.{Some};
ghost use Rattle.trace_args.specs.Command.{dump_view};
ghost use Rattle.run_endings.specs.Ending.{Prints};
ghost use Rattle.trace_run.specs.Meaning.{dump_of};
ghost use Rattle.run_endings.specs.Outside.{sink_seen};

use dat_header::Header;
use run_endings::Status;
use std::alloc::Global;
use trace_args::DumpWords;
use trace_outside::{Failed, Pending, Sink};

/// Prints the sections of a header that the words choose. No file is read.
pub(crate) fn print_dump<O: Sink>(
    alloc: Global,
    words: &DumpWords<'_>,
    header: &Header,
    out: &mut O,
) -> Status
    ensures { Prints ⊥ (Some (dump_of (dump_view words.now) header.now)) result (sink_seen O.Sink out.old) (sink_seen O.Sink out.new) }
{
    let Ok(mut pending) = Pending::new(alloc) else {
        return Status::NoMemory;
    };
    match dump_tool::dump(words.input, &words.sections, header, &mut pending, out) {
        Ok(()) => Status::Done,
        Err(Failed) => Status::WriteFault,
    }
}
