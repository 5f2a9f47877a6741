// The whole header, written piece after piece, or with a text in front of its table that is held.

ghost use Rattle.std.specs.Prelude.{◌≡◌, ◌%◌, ◌^◌, ◌++◌, List, length, IfOk, OnOk, OnErr};
ghost use Rattle.trace_base.specs.declared.part.Part.{Part};
ghost use Rattle.trace_outside.specs.Causes.{HasCause};
ghost use Rattle.trace_outside.specs.Writing.{Gained, GainedPrefix};
ghost use Rattle.dat_options.specs.Table.{table_text};
ghost use Rattle.dat_header.specs.Allowed.{IsHeader};
ghost use Rattle.dat_header.specs.Spelling.{SpellsHeader};
ghost use Rattle.dat_header.specs.Written.{Writes, header_text, text_before_table, written};

use crate::header::Header;
use crate::lengths::{header_len, len_with_table};
use crate::put::{write_front, write_sections, write_texts};
use dat_options::write_table;
use std::alloc::{AllocError, Global};
use trace_base::{ByteText, Part};
use trace_outside::{Failed, MemSink, Sink, write_all};

/// Writes the header with a table of these parts, and answers how many bytes that are, modulo 2^64 (trace-cmd.dat.v6(5)).
///
/// What is written is read as this header again, with these parts, whatever follows it.
///
/// # Errors
/// `Failed` where a write failed; a prefix of the header was written then.
pub fn write_header<O: Sink>(header: &Header, parts: &[Part], out: &mut O) -> Result<u64, Failed>
    requires allowed { IsHeader header.now }
    requires each { length parts.now ≡ header.now.cpus }
    ensures gained { OnOk result (Gained (O.written out.old) (O.written out.new) (header_text header.now parts.now)) }
    ensures prefix { OnErr result (GainedPrefix (O.written out.old) (O.written out.new) (header_text header.now parts.now)) }
    ensures spelled { SpellsHeader (written header.now parts.now) (header_text header.now parts.now) }
    ensures len { IfOk result (λ len. len ≡ length (header_text header.now parts.now) % 2 ^ 64) }
    ensures name { O.name out.new ≡ O.name out.old }
    ensures cause { HasCause (O.faults out.old) (O.faults out.new) result }
{
    write_pieces(header, parts, out)?;
    Ok(header_len(header))
}

fn write_pieces<O: Sink>(header: &Header, parts: &[Part], out: &mut O) -> Result<(), Failed>
    requires allowed { IsHeader header.now }
    ensures { Writes (header_text header.now parts.now) O.Sink out.old out.new result }
{
    write_before_table(header, out)?;
    write_table(header.order, parts, out)
}

fn write_before_table<O: Sink>(header: &Header, out: &mut O) -> Result<(), Failed>
    requires { IsHeader header.now }
    ensures { Writes (text_before_table header.now) O.Sink out.old out.new result }
{
    write_front(header, out)?;
    write_texts(header, out)?;
    write_sections(header, out)
}

/// All that a header writes in front of its table of parts, for files that have the header and differ in their tables.
///
/// # Errors
/// `AllocError` where there was no memory.
pub fn text_before_table(alloc: Global, header: &Header) -> Result<ByteText, AllocError>
    requires { IsHeader header.now }
    ensures text { IfOk result (λ before. before ≡ text_before_table header.now) }
    ensures whole { (parts : List Part) → header_text header.now parts ≡ text_before_table header.now ++ table_text header.now.order parts }
{
    let mut out = MemSink::with_capacity(alloc, header_len(header) as usize)?;
    let Ok(()) = write_before_table(header, &mut out) else {
        return Err(AllocError);
    };
    Ok(out.into_text())
}

/// Writes the same header as [`write_header`], of which `before` is the text in front of the table, and answers the same.
///
/// # Errors
/// `Failed` where a write failed; a prefix of the header was written then.
pub fn write_with_table<O: Sink>(
    header: &Header,
    before: &ByteText,
    parts: &[Part],
    out: &mut O,
) -> Result<u64, Failed>
    requires before { before.now ≡ text_before_table header.now }
    requires each { length parts.now ≡ header.now.cpus }
    ensures gained { OnOk result (Gained (O.written out.old) (O.written out.new) (header_text header.now parts.now)) }
    ensures prefix { OnErr result (GainedPrefix (O.written out.old) (O.written out.new) (header_text header.now parts.now)) }
    ensures len { IfOk result (λ len. len ≡ length (header_text header.now parts.now) % 2 ^ 64) }
    ensures name { O.name out.new ≡ O.name out.old }
    ensures cause { HasCause (O.faults out.old) (O.faults out.new) result }
{
    write_both(header, before, parts, out)?;
    Ok(len_with_table(header, before))
}

fn write_both<O: Sink>(
    header: &Header,
    before: &ByteText,
    parts: &[Part],
    out: &mut O,
) -> Result<(), Failed>
    requires { before.now ≡ text_before_table header.now }
    ensures { Writes (header_text header.now parts.now) O.Sink out.old out.new result }
{
    write_all(out, before.as_bytes())?;
    write_table(header.order, parts, out)
}
