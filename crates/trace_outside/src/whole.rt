// A whole text written, and a whole range read, however little each call of the outside does.

ghost use Rattle.std.specs.Prelude.{◌≡◌, ◌+◌, ◌≤◌, length, OnOk, OnErr};
ghost use Rattle.std.specs.List.{flat_map};
ghost use Rattle.trace_outside.specs.Causes.{HasCause, raised};
ghost use Rattle.trace_outside.specs.Keeping.{KeepsFile};
ghost use Rattle.trace_outside.specs.Reading.{GivesBytesAt};
ghost use Rattle.trace_outside.specs.Writing.{Gained, GainedPrefix};

use crate::outside::{Failed, File, Sink};

/// Fills the buffer with the file's bytes from `at` on. Each byte is read once.
pub fn read_all<I: File>(file: &mut I, at: u64, into: &mut [u8]) -> Result<(), Failed>
    requires inside { at + length into.old ≤ I.size file.old }
    ensures given { OnOk result (GivesBytesAt (I.bytes file.old) at (length into.new) into.new) }
    ensures reads { OnOk result (I.reads file.new ≡ raised (I.reads file.old) (length into.new)) }
    ensures most { I.reads file.new ≤ raised (I.reads file.old) (length into.new) }
    ensures keeps { KeepsFile I.File file.old file.new }
    ensures cause { HasCause (I.faults file.old) (I.faults file.new) result }
{
    let mut done = 0;
    while done < into.len() {
        let place = at + done as u64;
        done += file.read_at(place, &mut into[done..])?;
    }
    Ok(())
}

/// Writes the whole text. After `Failed` a prefix of it was written.
pub fn write_all<O: Sink>(out: &mut O, text: &[u8]) -> Result<(), Failed>
    ensures gained { OnOk result (Gained (O.written out.old) (O.written out.new) text.now) }
    ensures prefix { OnErr result (GainedPrefix (O.written out.old) (O.written out.new) text.now) }
    ensures name { O.name out.new ≡ O.name out.old }
    ensures cause { HasCause (O.faults out.old) (O.faults out.new) result }
{
    let mut done = 0;
    while done < text.len() {
        done += out.write(&text[done..])?;
    }
    Ok(())
}

/// Writes the pieces one after another. After `Failed` a prefix of them was written.
pub fn write_parts<O: Sink>(out: &mut O, parts: &[&[u8]]) -> Result<(), Failed>
    ensures gained { OnOk result (Gained (O.written out.old) (O.written out.new) (flat_map (λ part. part.now) parts.now)) }
    ensures prefix { OnErr result (GainedPrefix (O.written out.old) (O.written out.new) (flat_map (λ part. part.now) parts.now)) }
    ensures name { O.name out.new ≡ O.name out.old }
    ensures cause { HasCause (O.faults out.old) (O.faults out.new) result }
{
    for part in parts {
        write_all(out, part)?;
    }
    Ok(())
}
