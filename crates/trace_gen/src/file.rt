// The whole generated file, in memory.

ghost use Rattle.std.specs.Prelude.{◌≡◌, ◌<◌, ◌≤◌, ◌^◌, ◌-◌, ◌++◌, length, None, Some, IfOk, IfSome, OnOk};
ghost use Rattle.trace_outside.specs.Memory.{file_fault};
ghost use Rattle.trace_outside.specs.Writing.{Gained};
ghost use Rattle.dat_header.specs.Spelling.{SpellsHeader};
ghost use Rattle.dat_header.specs.Written.{header_text, written};
ghost use Rattle.page_write.specs.Record.{zeros};
ghost use Rattle.trace_gen.specs.GeneratedHeader.{header_but_parts};
ghost use Rattle.trace_gen.specs.GeneratedFile.{IsGenerated, front_len, file_text};

use crate::header::{FRONT_LEN, header};
use crate::write::write_data;
use dat_header::{Header, write_header};
use std::alloc::{AllocError, Global};
use trace_base::{ByteText, Part};
use trace_outside::{Failed, File, MemFile, MemSink, Sink, write_all};

/// The file of a seed, with so many events of its four processors: the same for the same seed and number, byte for
/// byte.
///
/// It has the generated header, each processor has just its generated events, and no sub-buffer is malformed. No read
/// of it fails.
///
/// # Errors
/// `AllocError` where there was no memory.
pub fn generate(alloc: Global, seed: u64, events: u32) -> Result<MemFile, AllocError>
    ensures generated { IfOk result (λ file. IfSome (⟦<MemFile as File>⟧.bytes file) (IsGenerated seed events)) }
    ensures bytes { IfOk result (λ file. ⟦<MemFile as File>⟧.bytes file ≡ Some (file_text seed events)) }
    ensures no_faults { IfOk result (λ file. ⟦<MemFile as File>⟧.faults file ≡ 0) }
    ensures no_reads { IfOk result (λ file. ⟦<MemFile as File>⟧.reads file ≡ 0) }
    ensures no_fault_set { IfOk result (λ file. file_fault file ≡ None) }
{
    let header = header(alloc)?;
    let mut sub_buffers = MemSink::new(alloc);
    let Ok(parts) = write_data(seed, events, &mut sub_buffers) else {
        return Err(AllocError);
    };
    let mut file = MemSink::new(alloc);
    let Ok(()) = write_file(&header, &parts, sub_buffers.bytes(), &mut file) else {
        return Err(AllocError);
    };
    let bytes = ByteText::copy(alloc, file.bytes())?;
    Ok(MemFile::new(bytes))
}

// Writes the header with these parts, zero bytes up to the first sub-buffer, and the sub-buffers.
fn write_file<O: Sink>(
    header: &Header,
    parts: &[Part],
    sub_buffers: &[u8],
    out: &mut O,
) -> Result<(), Failed>
    requires value { header.now ≡ header_but_parts }
    requires four { length parts.now ≡ 4 }
    ensures spelled { SpellsHeader (written header_but_parts parts.now) (header_text header_but_parts parts.now) }
    ensures gained { OnOk result (Gained (O.written out.old) (O.written out.new)
        (header_text header_but_parts parts.now ++ (zeros (front_len - length (header_text header_but_parts parts.now)) ++ sub_buffers.now))) }
{
    let len = write_header(header, parts, out)?;
    write_zeros((FRONT_LEN - len) as usize, out)?;
    write_all(out, sub_buffers)
}

fn write_zeros<O: Sink>(count: usize, out: &mut O) -> Result<(), Failed>
    requires { count ≤ front_len }
    ensures { OnOk result (Gained (O.written out.old) (O.written out.new) (zeros count)) }
{
    let padding = [0; FRONT_LEN as usize];
    write_all(out, &padding[..count])
}
