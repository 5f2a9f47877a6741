// The pieces of a header, each written to its end.

ghost use Rattle.std.specs.Prelude.{◌≡◌, ◌^◌, ◌<◌, [], take, drop, length};
ghost use Rattle.std.specs.List.{All, flat_map};
ghost use Rattle.trace_base.specs.Number.{bytes_of};
ghost use Rattle.dat_header.specs.Allowed.{AreFormats, AreSystems, IsHeader, IsSystem};
ghost use Rattle.dat_header.specs.Items.{items, text, sized, sized_texts, formats_text, system_text, systems_text, order_byte};
ghost use Rattle.dat_header.specs.Written.{Writes, options_section, with_parts};

use crate::header::{Header, System};
use dat_options::write_options;
use trace_base::{ByteText, ListOf, Order, put_u32, put_u64};
use trace_outside::{Failed, Sink, write_all, write_parts};

// From the magic bytes to the header_page text.
pub(crate) fn write_front<O: Sink>(header: &Header, out: &mut O) -> Result<(), Failed>
    requires { IsHeader header.now }
    ensures { Writes (text (take 7 (items header.now))) O.Sink out.old out.new result }
{
    let order = header.order;
    write_parts(
        out,
        &[
            b"\x17\x08\x44tracing6\0",
            &[order_byte(order), header.long as u8],
            &number_bytes(order, header.page),
            b"header_page\0",
        ],
    )?;
    write_long_text(order, &header.page_text, out)
}

fn order_byte(order: Order) -> u8
    ensures { result ≡ order_byte order }
{
    match order {
        Order::Little => 0,
        Order::Big => 1,
    }
}

fn number_bytes(order: Order, number: u32) -> [u8; 4]
    ensures { result ≡ bytes_of order 4 number }
{
    let mut bytes = [0; 4];
    put_u32(order, number, &mut bytes);
    bytes
}

// From the header_event word to the command lines.
pub(crate) fn write_texts<O: Sink>(header: &Header, out: &mut O) -> Result<(), Failed>
    requires { IsHeader header.now }
    ensures { Writes (text (take 7 (drop 7 (items header.now)))) O.Sink out.old out.new result }
{
    let order = header.order;
    write_all(out, b"header_event\0")?;
    write_long_text(order, &header.event_text, out)?;
    write_formats(order, &header.ftrace, out)?;
    write_systems(order, &header.systems, out)?;
    write_text(order, &header.kallsyms, out)?;
    write_text(order, &header.printk, out)?;
    write_long_text(order, &header.cmdlines, out)
}

// From the number of processors to the word in front of the table.
pub(crate) fn write_sections<O: Sink>(header: &Header, out: &mut O) -> Result<(), Failed>
    requires { IsHeader header.now }
    ensures { Writes (text (drop 14 (items (with_parts header.now [])))) O.Sink out.old out.new result }
{
    write_number(header.order, header.cpus, out)?;
    write_options_section(header, out)?;
    write_all(out, b"flyrecord\0")
}

// The section of options, where the header has one.
fn write_options_section<O: Sink>(header: &Header, out: &mut O) -> Result<(), Failed>
    requires { IsHeader header.now }
    ensures { Writes (options_section header.now.order header.now.options) O.Sink out.old out.new result }
{
    match &header.options {
        Some(options) => {
            write_all(out, b"options  \0")?;
            write_options(header.order, options.as_slice(), out)
        }
        None => Ok(()),
    }
}

fn write_number<O: Sink>(order: Order, number: u32, out: &mut O) -> Result<(), Failed>
    ensures { Writes (bytes_of order 4 number) O.Sink out.old out.new result }
{
    write_all(out, &number_bytes(order, number))
}

// A text, preceded by its 32-bit size.
fn write_text<O: Sink>(order: Order, content: &ByteText, out: &mut O) -> Result<(), Failed>
    requires { length content.now < 2 ^ 32 }
    ensures { Writes (sized 4 order content.now) O.Sink out.old out.new result }
{
    let bytes = content.as_bytes();
    write_parts(out, &[&number_bytes(order, bytes.len() as u32), bytes])
}

// A text, preceded by its 64-bit size.
fn write_long_text<O: Sink>(order: Order, content: &ByteText, out: &mut O) -> Result<(), Failed>
    ensures { Writes (sized 8 order content.now) O.Sink out.old out.new result }
{
    let bytes = content.as_bytes();
    let mut size = [0; 8];
    put_u64(order, bytes.len() as u64, &mut size);
    write_parts(out, &[&size, bytes])
}

// Texts, preceded by their number.
fn write_formats<O: Sink>(
    order: Order,
    formats: &ListOf<ByteText>,
    out: &mut O,
) -> Result<(), Failed>
    requires { AreFormats formats.now }
    ensures { Writes (formats_text order formats.now) O.Sink out.old out.new result }
{
    let formats = formats.as_slice();
    write_number(order, formats.len() as u32, out)?;
    write_each_text(order, formats, out)
}

fn write_each_text<O: Sink>(order: Order, texts: &[ByteText], out: &mut O) -> Result<(), Failed>
    ensures { Writes (sized_texts order texts.now) O.Sink out.old out.new result }
{
    for content in texts {
        write_long_text(order, content, out)?;
    }
    Ok(())
}

fn write_systems<O: Sink>(order: Order, systems: &ListOf<System>, out: &mut O) -> Result<(), Failed>
    requires { AreSystems systems.now }
    ensures { Writes (systems_text order systems.now) O.Sink out.old out.new result }
{
    let systems = systems.as_slice();
    write_number(order, systems.len() as u32, out)?;
    write_each_system(order, systems, out)
}

fn write_each_system<O: Sink>(order: Order, systems: &[System], out: &mut O) -> Result<(), Failed>
    requires { All IsSystem systems.now }
    ensures { Writes (flat_map (system_text order) systems.now) O.Sink out.old out.new result }
{
    for system in systems {
        write_system(order, system, out)?;
    }
    Ok(())
}

fn write_system<O: Sink>(order: Order, system: &System, out: &mut O) -> Result<(), Failed>
    requires { IsSystem system.now }
    ensures { Writes (system_text order system.now) O.Sink out.old out.new result }
{
    write_parts(out, &[system.name.as_bytes(), b"\0"])?;
    write_formats(order, &system.formats, out)
}
