ghost use Rattle.std.specs.Prelude.{◌≡◌, ◌≤◌, ◌<◌, ◌+◌, [], length, take, slice_index_or, unwrap_or, option_map, IfSome};
ghost use Rattle.std.specs.List.{flat_map};
ghost use Rattle.trace_outside.specs.Causes.{HasCause};
ghost use Rattle.trace_outside.specs.Keeping.{KeepsSink};
ghost use Rattle.trace_outside.specs.Pending.{PutsText, on_way};
ghost use Rattle.subpage.specs.ItemView.{item_view};
ghost use Rattle.event_cursor.specs.Keys.{first_of};
ghost use Rattle.event_cursor.specs.Standing.{keyed_held};
ghost use Rattle.page_pool.specs.declared.lane.Lane.{Lane};
ghost use Rattle.multi_report.specs.Reports.{head_line, label, labelled, line_of};
ghost use Rattle.multi_report.specs.Sources.{HasRoom, shown_of, seen};

use crate::source::Source;
use itoa::Buffer;
use line_holes::LineFormat;
use subpage::Item;
use trace_base::Tail;
use trace_outside::{Failed, File, Pending, Sink};

/// Puts the first line of a file.
fn put_head<F: File, L: LineFormat, O: Sink>(
    source: &Source<'_, F, L>,
    pending: &mut Pending,
    out: &mut O,
) -> Result<(), Failed>
    ensures { PutsText (head_line (shown_of (seen F.File L.text source.now)))
        (on_way O.written O.name O.faults out.old pending.old)
        (on_way O.written O.name O.faults out.new pending.new) result }
{
    let name = source.name.as_bytes();
    pending.put_parts(out, &[name, b": "])?;
    let mut digits = Buffer::new();
    let cpus = digits.format(source.cpus).as_bytes();
    pending.put_parts(out, &[b"cpus=", cpus, b"\n"])
}

/// Puts the first lines of all files.
pub(crate) fn put_heads<F: File, L: LineFormat, O: Sink>(
    sources: &[Source<'_, F, L>],
    pending: &mut Pending,
    out: &mut O,
) -> Result<(), Failed>
    ensures { PutsText (flat_map (λ source. head_line (shown_of (seen F.File L.text source))) sources.now)
        (on_way O.written O.name O.faults out.old pending.old)
        (on_way O.written O.name O.faults out.new pending.new) result }
{
    for source in sources {
        put_head(source, pending, out)?;
    }
    Ok(())
}

/// Forms the line of an item at the front of a slice, as far as there is room, and answers its length. Its hole is let go.
fn line_into<L: LineFormat>(form: &L, cpu: u32, item: &Item<'_>, into: &mut [u8]) -> u32
    ensures long { length into.new ≡ length into.old }
    ensures length { result ≡ length (L.text form.now cpu (item_view item.now)).bytes }
    ensures line { result ≤ length into.old → take result into.new ≡ (L.text form.now cpu (item_view item.now)).bytes }
{
    let mut tail = Tail::new(into);
    let (len, _) = form.line(cpu, item, &mut tail);
    len
}

/// Writes a file's name and what follows it.
fn label_into(name: &[u8], into: &mut [u8])
    requires { length into.old ≡ length name.now + 2 }
    ensures { into.new ≡ label name.now }
{
    let (front, behind) = into.split_at_mut(name.len());
    front.copy_from_slice(name);
    behind.copy_from_slice(b": ");
}

/// Forms the line of an item with a file's name before it at the front of a slice, and answers the length of both: 0 of an
/// empty line, which has no name. `None` where they have no room.
fn labelled_into<L: LineFormat>(
    name: &[u8],
    form: &L,
    cpu: u32,
    item: &Item<'_>,
    into: &mut [u8],
) -> Option<usize>
    ensures long { length into.new ≡ length into.old }
    ensures inside { IfSome result (λ len. len ≤ length into.old) }
    ensures text { IfSome result (λ len. take len into.new ≡ labelled name.now (L.text form.now cpu (item_view item.now)).bytes) }
{
    let front = name.len() + 2;
    if front > into.len() {
        return None;
    }
    let (before, behind) = into.split_at_mut(front);
    let len = line_into(form, cpu, item, behind) as usize;
    if len > behind.len() {
        return None;
    }
    if len == 0 {
        return Some(0);
    }
    label_into(name, before);
    Some(front + len)
}

/// Puts a line with a file's name before it. An empty one is left out.
fn put_labelled<O: Sink>(
    name: &[u8],
    line: &[u8],
    pending: &mut Pending,
    out: &mut O,
) -> Result<(), Failed>
    ensures { PutsText (labelled name.now line.now) (on_way O.written O.name O.faults out.old pending.old)
        (on_way O.written O.name O.faults out.new pending.new) result }
{
    if line.is_empty() {
        return Ok(());
    }
    pending.put_parts(out, &[name, b": ", line])
}

/// Puts the line of an item with a file's name before it. The line has room in the buffer. Where its name has room too, both
/// are put as one piece, for what a piece costs.
fn put_line<L: LineFormat, O: Sink>(
    name: &[u8],
    form: &L,
    cpu: u32,
    item: &Item<'_>,
    buffer: &mut [u8],
    pending: &mut Pending,
    out: &mut O,
) -> Result<(), Failed>
    requires room { length (L.text form.now cpu (item_view item.now)).bytes ≤ length buffer.old }
    ensures long { length buffer.new ≡ length buffer.old }
    ensures puts { PutsText (labelled name.now (L.text form.now cpu (item_view item.now)).bytes)
        (on_way O.written O.name O.faults out.old pending.old)
        (on_way O.written O.name O.faults out.new pending.new) result }
{
    match labelled_into(name, form, cpu, item, buffer) {
        Some(0) => Ok(()),
        Some(len) => pending.put(out, &buffer[..len]),
        None => {
            let len = line_into(form, cpu, item, buffer) as usize;
            put_labelled(name, &buffer[..len], pending, out)
        }
    }
}

/// Puts the line of the item that a lane of a file holds.
pub(crate) fn put_item<F: File, L: LineFormat, O: Sink>(
    source: &Source<'_, F, L>,
    i: usize,
    buffer: &mut [u8],
    pending: &mut Pending,
    out: &mut O,
) -> Result<(), Failed>
    requires inside { i < length source.now.lanes.all }
    requires room { HasRoom (length buffer.old) (seen F.File L.text source.now) }
    ensures long { length buffer.new ≡ length buffer.old }
    ensures cause { HasCause (O.faults out.old) (O.faults out.new) result }
    ensures keeps_out { KeepsSink O.Sink out.old out.new }
    ensures puts { (d : Lane) → PutsText (unwrap_or (option_map (line_of (shown_of (seen F.File L.text source.now)))
        (first_of (keyed_held (slice_index_or source.now.lanes.all i d)))) [])
        (on_way O.written O.name O.faults out.old pending.old)
        (on_way O.written O.name O.faults out.new pending.new) result }
{
    let cpu = source.lanes.all()[i].cpu;
    match source.lanes.head(i) {
        Some((_, item)) => {
            let name = source.name.as_bytes();
            put_line(name, &source.form, cpu, &item, buffer, pending, out)
        }
        None => Ok(()),
    }
}
