// What the program tells of itself.

ghost use Rattle.std.specs.Prelude.{Some};
ghost use Rattle.run_endings.specs.Ending.{Prints};
ghost use Rattle.run_endings.specs.Outside.{sink_seen};
ghost use Rattle.trace_run.specs.Meaning.{topic_means};

use run_endings::Status;
use trace_args::Topic;
use trace_outside::{Failed, Sink, write_all};

/// Prints the text of a topic. No file of a folder is opened.
pub(crate) fn print_topic<O: Sink>(topic: Topic, out: &mut O) -> Status
    ensures { Prints ⊥ (Some (topic_means topic)) result (sink_seen O.Sink out.old) (sink_seen O.Sink out.new) }
{
    match write_all(out, topic.text().as_bytes()) {
        Ok(()) => Status::Done,
        Err(Failed) => Status::WriteFault,
    }
}
