// The sections that show a list.

ghost use Rattle.std.specs.Prelude.{◌≡◌};
ghost use Rattle.trace_outside.specs.Pending.{PutsText, on_way};
ghost use Rattle.dump_tool.specs.Lists as spec;

use crate::entries::{put_each, put_list};
use crate::lines::{put_count, put_heading, put_text};
use dat_header::{Body, Header, System};
use dat_options::Opt;
use itoa::Buffer;
use trace_base::Part;
use trace_outside::{Failed, Pending, Sink};

/// Puts a system's name and the number of its events.
pub(crate) fn put_system<O: Sink>(
    pending: &mut Pending,
    out: &mut O,
    system: &System,
) -> Result<(), Failed>
    ensures { PutsText (spec.system_line system.now) (on_way O.written O.name O.faults out.old pending.old) (on_way O.written O.name O.faults out.new pending.new) result }
{
    let events = system.formats.as_slice().len() as u128;
    put_count(pending, out, system.name.as_bytes(), events)
}

/// Puts the formats of all systems' events.
pub(crate) fn put_events<O: Sink>(
    pending: &mut Pending,
    out: &mut O,
    systems: &[System],
) -> Result<(), Failed>
    ensures { PutsText (spec.events_text systems.now) (on_way O.written O.name O.faults out.old pending.old) (on_way O.written O.name O.faults out.new pending.new) result }
{
    put_heading(pending, out, "events", event_count(systems))?;
    put_each(pending, out, systems.iter(), put_system_formats)
}

/// Puts an option's number and its size.
pub(crate) fn put_option<O: Sink>(
    pending: &mut Pending,
    out: &mut O,
    option: &Opt,
) -> Result<(), Failed>
    ensures { PutsText (spec.option_line option.now) (on_way O.written O.name O.faults out.old pending.old) (on_way O.written O.name O.faults out.new pending.new) result }
{
    let mut id_digits = Buffer::new();
    let mut size_digits = Buffer::new();
    let id = id_digits.format(option.id).as_bytes();
    let size = size_digits.format(option.bytes.as_bytes().len()).as_bytes();
    pending.put_parts(out, &[b"option ", id, b" ", size, b" bytes\n"])
}

/// Puts where the processors' data stand.
pub(crate) fn put_body<O: Sink>(
    pending: &mut Pending,
    out: &mut O,
    body: &Body,
) -> Result<(), Failed>
    ensures { PutsText (spec.body_text body.now) (on_way O.written O.name O.faults out.old pending.old) (on_way O.written O.name O.faults out.new pending.new) result }
{
    match body {
        Body::Latency => pending.put(out, b"[latency]\n"),
        Body::Fly(parts) => {
            let parts = parts.as_slice().iter().enumerate();
            put_list(
                pending,
                out,
                "flyrecord",
                parts,
                |pending, out, (cpu, part)| put_part(pending, out, cpu, *part),
            )
        }
    }
}

/// How many events the systems have. In 128 bits the sum of any lengths fits.
pub(crate) fn event_count(systems: &[System]) -> u128
    ensures { result ≡ spec.event_count systems.now }
{
    systems
        .iter()
        .map(|system| system.formats.as_slice().len() as u128)
        .sum()
}

/// The options; a file without that section has none.
pub(crate) fn options_of(header: &Header) -> &[Opt]
    ensures { result.now ≡ spec.options_of header.now.options }
{
    match &header.options {
        None => &[],
        Some(options) => options.as_slice(),
    }
}

fn put_system_formats<O: Sink>(
    pending: &mut Pending,
    out: &mut O,
    system: &System,
) -> Result<(), Failed>
    ensures { PutsText (spec.system_formats system.now) (on_way O.written O.name O.faults out.old pending.old) (on_way O.written O.name O.faults out.new pending.new) result }
{
    let name = system.name.as_bytes();
    let formats = system.formats.as_slice();
    put_each(pending, out, formats.iter(), |pending, out, format| {
        put_text(pending, out, name, format.as_bytes())
    })
}

fn put_part<O: Sink>(
    pending: &mut Pending,
    out: &mut O,
    cpu: usize,
    part: Part,
) -> Result<(), Failed>
    ensures { PutsText (spec.part_line (cpu, part)) (on_way O.written O.name O.faults out.old pending.old) (on_way O.written O.name O.faults out.new pending.new) result }
{
    let mut cpu_digits = Buffer::new();
    let mut offset_digits = Buffer::new();
    let mut size_digits = Buffer::new();
    let cpu = cpu_digits.format(cpu).as_bytes();
    let offset = offset_digits.format(part.offset).as_bytes();
    let size = size_digits.format(part.size).as_bytes();
    pending.put_parts(
        out,
        &[b"cpu ", cpu, b" offset ", offset, b" size ", size, b"\n"],
    )
}
