// The section of the latencies.

ghost use Rattle.std.specs.Prelude.{◌≡◌, ◌≤◌, ◌++◌, codes, length, take, flat_map};
ghost use Rattle.trace_outside.specs.Pending.{PutsText, on_way};
ghost use Rattle.wakeup_pairs.specs.Figures.{longest, shortest};
ghost use Rattle.wakeup_lat.specs.Section as spec;

use crate::lines::pair_line;
use itoa::Buffer;
use line_columns::Front;
use report_print::Context;
use trace_base::Tail;
use trace_outside::{Failed, Pending, Sink};
use wakeup_pairs::{Pair, Wakeups, average, latency, longest, shortest};

/// Puts the number of pairs, a line for each in the order of their switches, and, where there is one, the average, the
/// longest and the shortest latency. It takes no memory: a line is formed in the buffer.
pub fn put_wakeups<O: Sink>(
    context: &Context,
    wakeups: &Wakeups,
    buffer: &mut [u8],
    pending: &mut Pending,
    out: &mut O,
) -> Result<(), Failed>
    requires { 65537 ≤ length buffer.old }
    ensures { PutsText (spec.section context.now wakeups.now.pairs)
        (on_way O.written O.name O.faults out.old pending.old) (on_way O.written O.name O.faults out.new pending.new) result }
{
    put_section(
        context,
        context.show().line.full,
        wakeups.pairs(),
        buffer,
        pending,
        out,
    )
}

fn put_section<O: Sink>(
    context: &Context,
    full: bool,
    pairs: &[Pair],
    buffer: &mut [u8],
    pending: &mut Pending,
    out: &mut O,
) -> Result<(), Failed>
    requires { 65537 ≤ length buffer.old }
    ensures { PutsText (spec.section_by (spec.pair_line context.now) full pairs.now)
        (on_way O.written O.name O.faults out.old pending.old) (on_way O.written O.name O.faults out.new pending.new) result }
{
    put_count(pairs.len() as u64, pending, out)?;
    put_lines(context, pairs, buffer, pending, out)?;
    put_figures(full, pairs, pending, out)
}

fn put_count<O: Sink>(count: u64, pending: &mut Pending, out: &mut O) -> Result<(), Failed>
    ensures { PutsText (spec.count_line count)
        (on_way O.written O.name O.faults out.old pending.old) (on_way O.written O.name O.faults out.new pending.new) result }
{
    let mut digits = Buffer::new();
    pending.put_parts(out, &[b"wakeups=", digits.format(count).as_bytes(), b"\n"])
}

fn put_lines<O: Sink>(
    context: &Context,
    pairs: &[Pair],
    buffer: &mut [u8],
    pending: &mut Pending,
    out: &mut O,
) -> Result<(), Failed>
    requires { 65537 ≤ length buffer.old }
    ensures { PutsText (flat_map (spec.pair_line context.now) pairs.now)
        (on_way O.written O.name O.faults out.old pending.old) (on_way O.written O.name O.faults out.new pending.new) result }
{
    for pair in pairs {
        put_line(context, pair, buffer, pending, out)?;
    }
    Ok(())
}

fn put_line<O: Sink>(
    context: &Context,
    pair: &Pair,
    buffer: &mut [u8],
    pending: &mut Pending,
    out: &mut O,
) -> Result<(), Failed>
    requires { 65537 ≤ length buffer.old }
    ensures puts { PutsText (spec.pair_line context.now pair.now)
        (on_way O.written O.name O.faults out.old pending.old) (on_way O.written O.name O.faults out.new pending.new) result }
    ensures long { length buffer.new ≡ length buffer.old }
{
    let len = line_into(context, pair, buffer);
    pending.put(out, &buffer[..len as usize])
}

// Forms the line of a pair at the front of a slice.
fn line_into(context: &Context, pair: &Pair, into: &mut [u8]) -> u32
    ensures length { result ≡ length (spec.pair_line context.now pair.now) }
    ensures short { result ≤ 65537 }
    ensures long { length into.new ≡ length into.old }
    ensures line { result ≤ length into.old → take result into.new ≡ spec.pair_line context.now pair.now }
{
    let mut tail = Tail::new(into);
    pair_line(context, pair, &mut tail)
}

fn put_figures<O: Sink>(
    full: bool,
    pairs: &[Pair],
    pending: &mut Pending,
    out: &mut O,
) -> Result<(), Failed>
    ensures { PutsText (spec.figures full pairs.now)
        (on_way O.written O.name O.faults out.old pending.old) (on_way O.written O.name O.faults out.new pending.new) result }
{
    let Some((first, rest)) = pairs.split_first() else {
        return pending.put(out, b"");
    };
    put_average(average(pairs), pending, out)?;
    put_extremes(full, *first, rest, pending, out)
}

fn put_extremes<O: Sink>(
    full: bool,
    first: Pair,
    rest: &[Pair],
    pending: &mut Pending,
    out: &mut O,
) -> Result<(), Failed>
    ensures { PutsText (spec.extreme_line (codes "maximum ") full (longest first rest.now)
        ++ spec.extreme_line (codes "minimum ") full (shortest first rest.now))
        (on_way O.written O.name O.faults out.old pending.old) (on_way O.written O.name O.faults out.new pending.new) result }
{
    let most = longest(first, rest);
    let least = shortest(first, rest);
    put_extreme(b"maximum ", full, most, pending, out)?;
    put_extreme(b"minimum ", full, least, pending, out)
}

#[tactic(auto, unfolding(crate::specs::Section::average_line))]
fn put_average<O: Sink>(nanos: u64, pending: &mut Pending, out: &mut O) -> Result<(), Failed>
    ensures { PutsText (spec.average_line nanos)
        (on_way O.written O.name O.faults out.old pending.old) (on_way O.written O.name O.faults out.new pending.new) result }
{
    let mut text = Front::new();
    text.prepend_byte(b'\n');
    text.prepend_duration(nanos);
    pending.put_parts(out, &[b"average ", text.as_bytes()])
}

#[tactic(auto, unfolding(crate::specs::Section::extreme_line))]
fn put_extreme<O: Sink>(
    name: &[u8],
    full: bool,
    pair: Pair,
    pending: &mut Pending,
    out: &mut O,
) -> Result<(), Failed>
    ensures { PutsText (spec.extreme_line name.now full pair)
        (on_way O.written O.name O.faults out.old pending.old) (on_way O.written O.name O.faults out.new pending.new) result }
{
    let mut time = Front::new();
    time.prepend_byte(b'\n');
    time.prepend_bare_time(full, pair.time);
    let mut waited = Front::new();
    waited.prepend_duration(latency(&pair));
    pending.put_parts(out, &[name, waited.as_bytes(), b" at ", time.as_bytes()])
}
