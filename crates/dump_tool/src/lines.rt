// The lines that sections are made of.

ghost use Rattle.std.specs.Prelude.{◌≡◌};
ghost use Rattle.trace_outside.specs.Pending.{PutsText, on_way};
ghost use Rattle.dump_tool.specs.Texts as spec;

use itoa::Buffer;
use text_lines::line_end;
use trace_outside::{Failed, Pending, Sink};

/// Puts a name and what it stands for on a line of their own.
pub(crate) fn put_value<'a, O: Sink>(
    pending: &mut Pending,
    out: &mut O,
    name: &'a [u8],
    value: &'a [u8],
) -> Result<(), Failed>
    ensures { PutsText (spec.value_line name.now value.now) (on_way O.written O.name O.faults out.old pending.old) (on_way O.written O.name O.faults out.new pending.new) result }
{
    pending.put_parts(out, &[name, b" ", value, b"\n"])
}

/// Puts a name and a count on a line of their own.
pub(crate) fn put_count<O: Sink>(
    pending: &mut Pending,
    out: &mut O,
    name: &[u8],
    count: u128,
) -> Result<(), Failed>
    ensures { PutsText (spec.count_line name.now count) (on_way O.written O.name O.faults out.old pending.old) (on_way O.written O.name O.faults out.new pending.new) result }
{
    let mut digits = Buffer::new();
    put_value(pending, out, name, digits.format(count).as_bytes())
}

/// Puts the line above a list of so many entries.
pub(crate) fn put_heading<O: Sink>(
    pending: &mut Pending,
    out: &mut O,
    name: &'static str,
    count: u128,
) -> Result<(), Failed>
    ensures { PutsText (spec.heading name.now count) (on_way O.written O.name O.faults out.old pending.old) (on_way O.written O.name O.faults out.new pending.new) result }
{
    let mut digits = Buffer::new();
    let count = digits.format(count).as_bytes();
    pending.put_parts(out, &[b"[", name.as_bytes(), b" ", count, b"]\n"])
}

/// Puts a stored text below a line with its name and its size.
pub(crate) fn put_text<O: Sink>(
    pending: &mut Pending,
    out: &mut O,
    name: &[u8],
    text: &[u8],
) -> Result<(), Failed>
    ensures { PutsText (spec.stored_text name.now text.now) (on_way O.written O.name O.faults out.old pending.old) (on_way O.written O.name O.faults out.new pending.new) result }
{
    let mut digits = Buffer::new();
    let size = digits.format(text.len()).as_bytes();
    put_sized(pending, out, name, size, text)
}

fn put_sized<'a, O: Sink>(
    pending: &mut Pending,
    out: &mut O,
    name: &'a [u8],
    size: &'a [u8],
    text: &'a [u8],
) -> Result<(), Failed>
    ensures { PutsText (spec.sized_text name.now size.now text.now) (on_way O.written O.name O.faults out.old pending.old) (on_way O.written O.name O.faults out.new pending.new) result }
{
    let end: &'a [u8] = line_end(text);
    let parts: [&'a [u8]; 7] = [b"[", name, b" ", size, b" bytes]\n", text, end];
    pending.put_parts(out, &parts)
}
