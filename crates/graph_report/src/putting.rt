// Lines of calls on their way to a sink.

ghost use Rattle.std.specs.Prelude.{◌≡◌, ◌≤◌, length, take};
ghost use Rattle.std.specs.List.{flat_map};
ghost use Rattle.trace_outside.specs.Pending.{PutsText, on_way};
ghost use Rattle.graph_report.specs.CallText.{call_line};

use crate::text::put_line;
use call_pairs::Call;
use report_print::Context;
use trace_base::Tail;
use trace_outside::{Failed, Pending, Sink};

/// Forms the line of a call at the front of a slice, and answers its length.
#[tactic(auto, using(crate::proofs::LineEnds::line_most))]
fn line_into(context: &Context, call: &Call, into: &mut [u8]) -> u32
    requires room { 65537 ≤ length into.old }
    ensures long { length into.new ≡ length into.old }
    ensures within { result ≤ length into.new }
    ensures line { take result into.new ≡ call_line context.now call.now }
{
    let mut tail = Tail::new(into);
    put_line(context, call, &mut tail)
}

fn put_one<O: Sink>(
    context: &Context,
    call: &Call,
    buffer: &mut [u8],
    pending: &mut Pending,
    out: &mut O,
) -> Result<(), Failed>
    requires room { 65537 ≤ length buffer.old }
    ensures room { length buffer.new ≡ length buffer.old }
    ensures puts { PutsText (call_line context.now call.now) (on_way O.written O.name O.faults out.old pending.old) (on_way O.written O.name O.faults out.new pending.new) result }
{
    let len = line_into(context, call, buffer) as usize;
    pending.put(out, &buffer[..len])
}

/// Puts the lines of calls, one after another, in their order. After `Failed` the sink has a prefix of all that was put. It
/// takes no memory: each line is formed in the buffer, which must have room for the longest.
pub fn put_calls<O: Sink>(
    context: &Context,
    calls: &[Call],
    buffer: &mut [u8],
    pending: &mut Pending,
    out: &mut O,
) -> Result<(), Failed>
    requires room { 65537 ≤ length buffer.old }
    ensures { PutsText (flat_map (call_line context.now) calls.now) (on_way O.written O.name O.faults out.old pending.old) (on_way O.written O.name O.faults out.new pending.new) result }
{
    for call in calls {
        put_one(context, call, buffer, pending, out)?;
    }
    Ok(())
}
