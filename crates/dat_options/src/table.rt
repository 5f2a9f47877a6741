// The table of a trace file: where each processor's data stand (trace-cmd.dat.v6(5), after `flyrecord`).

ghost use Rattle.std.specs.Prelude.{◌≡◌, ◌+◌, ◌-◌, ◌*◌, ◌%◌, ◌≤◌, length, IfOk, IfErr, OnOk, OnErr, IsErrOf};
ghost use Rattle.trace_outside.specs.Causes.{HasCause, Rose, raised};
ghost use Rattle.trace_outside.specs.Keeping.{KeepsFile};
ghost use Rattle.trace_outside.specs.Writing.{Gained, GainedPrefix};
ghost use Rattle.dat_options.specs.Answer.{AnswersTold, IsEnd, KeptUnlessRead};
ghost use Rattle.dat_options.specs.Table.{FindsTable, part_text, table_text, table_from};

use crate::fault::OpenFault;
use std::alloc::Global;
use trace_base::{ListOf, Order, Part, put_u64, read_u64};
use trace_outside::{Failed, File, Sink, read_bytes, write_all};

// How many parts one write takes.
const BLOCK: usize = 64;

/// The parts of so many processors that stand in a file from `at` on, and the place after them. Each of their bytes is read
/// once, and no other byte.
///
/// # Errors
/// `Truncated` with the file's length exactly where the file ends before the table does; no memory is taken and nothing
/// is read then. `Read` where a read failed, `Memory` where there was no memory, only where the table stands inside the file.
#[tactic(auto, using(crate::proofs::Pieces::read_of_piece))]
pub fn read_table<F: File>(
    alloc: Global,
    order: Order,
    cpus: u32,
    file: &mut F,
    at: u64,
) -> Result<(ListOf<Part>, u64), OpenFault>
    ensures found { FindsTable order cpus at (F.bytes file.old) result }
    ensures exact { AnswersTold (table_from order cpus at) (F.bytes file.old) result }
    ensures count { IfOk result (λ found. length found.0 ≡ cpus) }
    ensures behind { IfOk result (λ found. found.1 ≡ at + 16 * cpus) }
    ensures inside { IfOk result (λ found. found.1 ≤ F.size file.old) }
    ensures fault { IfErr result (IsEnd (F.size file.old)) }
    ensures memory { IsErrOf result OpenFault.Memory → at + 16 * cpus ≤ F.size file.old }
    ensures reads { IfOk result (λ found. F.reads file.new ≡ raised (F.reads file.old) (found.1 - at)) }
    ensures unread { IsErrOf result (OpenFault.Truncated (F.size file.old)) → F.reads file.new ≡ F.reads file.old }
    ensures most { F.reads file.new ≤ raised (F.reads file.old) (F.size file.old - at) }
    ensures cause { IsErrOf result OpenFault.Read → Rose (F.faults file.old) (F.faults file.new) }
    ensures kept { KeptUnlessRead (F.faults file.old) (F.faults file.new) result }
    ensures keeps { KeepsFile F.File file.old file.new }
{
    let size = 16 * cpus as u64;
    let text = read_bytes(alloc, file, at, size)?;
    let parts = parts_of(alloc, order, text.as_bytes())?;
    Ok((parts, at + size))
}

// The parts whose spelling the text is.
fn parts_of(alloc: Global, order: Order, text: &[u8]) -> Result<ListOf<Part>, OpenFault>
    requires { length text.now % 16 ≡ 0 }
    ensures spelled { IfOk result (λ parts. table_text order parts ≡ text.now) }
    ensures memory { IfErr result (λ fault. fault ≡ OpenFault.Memory) }
{
    let Ok(mut parts) = Vec::with_capacity(alloc, text.len() / 16) else {
        return Err(OpenFault::Memory);
    };
    let mut rest = text;
    while rest.len() >= 16 {
        let (entry, behind) = rest.split_at(16);
        let Ok(()) = parts.push(part_of(order, entry)) else {
            return Err(OpenFault::Memory);
        };
        rest = behind;
    }
    Ok(ListOf::from_vec(parts))
}

fn part_of(order: Order, bytes: &[u8]) -> Part
    requires { length bytes.now ≡ 16 }
    ensures { part_text order result ≡ bytes.now }
{
    Part {
        offset: read_u64(order, bytes),
        size: read_u64(order, &bytes[8..]),
    }
}

/// Writes the parts, a block at a time.
///
/// # Errors
/// `Failed` where a write failed; a prefix of them was written then.
pub fn write_table<O: Sink>(order: Order, parts: &[Part], out: &mut O) -> Result<(), Failed>
    ensures gained { OnOk result (Gained (O.written out.old) (O.written out.new) (table_text order parts.now)) }
    ensures prefix { OnErr result (GainedPrefix (O.written out.old) (O.written out.new) (table_text order parts.now)) }
    ensures name { O.name out.new ≡ O.name out.old }
    ensures cause { HasCause (O.faults out.old) (O.faults out.new) result }
{
    let mut rest = parts;
    while !rest.is_empty() {
        let (block, behind) = rest.split_at(rest.len().min(BLOCK));
        write_block(order, block, out)?;
        rest = behind;
    }
    Ok(())
}

fn write_block<O: Sink>(order: Order, parts: &[Part], out: &mut O) -> Result<(), Failed>
    requires { length parts.now ≤ BLOCK }
    ensures gained { OnOk result (Gained (O.written out.old) (O.written out.new) (table_text order parts.now)) }
    ensures prefix { OnErr result (GainedPrefix (O.written out.old) (O.written out.new) (table_text order parts.now)) }
    ensures name { O.name out.new ≡ O.name out.old }
    ensures cause { HasCause (O.faults out.old) (O.faults out.new) result }
{
    let mut text = [0; 16 * BLOCK];
    let text = &mut text[..16 * parts.len()];
    put_parts(order, parts, text);
    write_all(out, text)
}

fn put_parts(order: Order, parts: &[Part], into: &mut [u8])
    requires { length into.old ≡ 16 * length parts.now }
    ensures { into.new ≡ table_text order parts.now }
{
    for (i, part) in parts.iter().enumerate() {
        into[16 * i..16 * i + 16].copy_from_slice(&entry_of(order, part));
    }
}

fn entry_of(order: Order, part: &Part) -> [u8; 16]
    ensures { result ≡ part_text order part.now }
{
    let mut entry = [0; 16];
    put_u64(order, part.offset, &mut entry);
    put_u64(order, part.size, &mut entry[8..]);
    entry
}
