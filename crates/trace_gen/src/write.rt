// The generated events on their way to a sink, in sub-buffers.

ghost use Rattle.std.specs.Prelude.{◌≡◌, ◌+◌, [], ◌++◌, length, Some, IfOk, IfSome, OnOk};
ghost use Rattle.trace_outside.specs.Writing.{Gained};
ghost use Rattle.page_write.specs.Pack.{pack};
ghost use Rattle.page_write.specs.Placed.{data_of};
ghost use Rattle.trace_gen.specs.Generated.{events_of, lists_of};
ghost use Rattle.trace_gen.specs.GeneratedHeader.{generated_layout};
ghost use Rattle.trace_gen.specs.GeneratedFile.{front_len, generated_parts};

use crate::generator::Generator;
use crate::header::{FRONT_LEN, layout};
use page_write::{Packer, write_item, write_last};
use subpage::Item;
use trace_base::Part;
use trace_outside::{Failed, MemSink, Sink};

// Writes the sub-buffers of a processor's events, of so many of all processors.
fn write_processor<O: Sink>(
    seed: u64,
    events: u32,
    cpu: u32,
    packer: &mut Packer<'_>,
    out: &mut O,
) -> Result<(), Failed>
    requires layout { packer.old.layout ≡ generated_layout }
    requires empty { packer.old.held ≡ [] }
    ensures gained { OnOk result (Gained (O.written out.old) (O.written out.new) (pack generated_layout (events_of seed cpu events))) }
    ensures layout { OnOk result (packer.new.layout ≡ generated_layout) }
    ensures empty { OnOk result (packer.new.held ≡ []) }
{
    let mut generator = Generator::new(seed);
    for _number in 0..events {
        let event = generator.make();
        if event.cpu != cpu {
            continue;
        }
        let item = Item::Event {
            time: event.time,
            payload: &event.payload,
        };
        write_item(packer, &item, out)?;
    }
    write_last(packer, out)
}

// The same, after other data, with the part of the file that they are.
fn append_processor(
    seed: u64,
    events: u32,
    cpu: u32,
    packer: &mut Packer<'_>,
    sub_buffers: &mut MemSink,
) -> Result<Part, Failed>
    requires layout { packer.old.layout ≡ generated_layout }
    requires empty { packer.old.held ≡ [] }
    ensures gained { OnOk result (Gained (⟦<MemSink as Sink>⟧.written sub_buffers.old) (⟦<MemSink as Sink>⟧.written sub_buffers.new) (pack generated_layout (events_of seed cpu events))) }
    ensures offset { IfOk result (λ part. IfSome (⟦<MemSink as Sink>⟧.written sub_buffers.old) (λ before. part.offset ≡ front_len + length before)) }
    ensures size { IfOk result (λ part. part.size ≡ length (pack generated_layout (events_of seed cpu events))) }
    ensures layout { OnOk result (packer.new.layout ≡ generated_layout) }
    ensures empty { OnOk result (packer.new.held ≡ []) }
{
    let before = sub_buffers.bytes().len() as u64;
    write_processor(seed, events, cpu, packer, sub_buffers)?;
    let after = sub_buffers.bytes().len() as u64;
    Ok(Part {
        offset: FRONT_LEN + before,
        size: after - before,
    })
}

/// Writes the sub-buffers of all processors, and gives the parts of the file that they are.
pub(crate) fn write_data(
    seed: u64,
    events: u32,
    sub_buffers: &mut MemSink,
) -> Result<[Part; 4], Failed>
    requires { ⟦<MemSink as Sink>⟧.written sub_buffers.old ≡ Some [] }
    ensures written { OnOk result (⟦<MemSink as Sink>⟧.written sub_buffers.new ≡ Some (data_of generated_layout (lists_of seed events))) }
    ensures parts { IfOk result (λ parts. parts ≡ generated_parts seed events) }
{
    let layout = layout();
    let mut page = [0; 4096];
    let mut packer = Packer::new(&layout, &mut page);
    let first = append_processor(seed, events, 0, &mut packer, sub_buffers)?;
    let second = append_processor(seed, events, 1, &mut packer, sub_buffers)?;
    let third = append_processor(seed, events, 2, &mut packer, sub_buffers)?;
    let fourth = append_processor(seed, events, 3, &mut packer, sub_buffers)?;
    Ok([first, second, third, fourth])
}
