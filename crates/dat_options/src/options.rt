// The options of a trace file (trace-cmd.dat.v6(5), `options`).

ghost use Rattle.std.specs.Prelude.{◌≡◌, ◌+◌, ◌-◌, ◌≤◌, length, IfOk, IfErr, OnOk, OnErr, IsErrOf};
ghost use Rattle.std.specs.List.{All};
ghost use Rattle.trace_outside.specs.Causes.{HasCause, Rose, raised};
ghost use Rattle.trace_outside.specs.Keeping.{KeepsFile};
ghost use Rattle.trace_base.specs.Number.{bytes_of};
ghost use Rattle.trace_outside.specs.Writing.{Gained, GainedPrefix};
ghost use Rattle.dat_options.specs.Answer.{AnswersTold, IsEnd, KeptUnlessRead};
ghost use Rattle.dat_options.specs.OneOption.{ReadsFirst};
ghost use Rattle.dat_options.specs.Options.{IsOption, MayBeWritten, FindsOptions, option_text, options_text, options_from};

use crate::fault::OpenFault;
use crate::option::Opt;
use std::alloc::Global;
use trace_base::{ListOf, Order, put_u16, put_u32, read_u16, read_u32};
use trace_outside::{Failed, File, Sink, read_bytes, read_piece, write_all, write_parts};

/// The options that stand in a file from `at` on, and the place after the id that ends them. Each of their bytes is read
/// once, and no other byte.
///
/// # Errors
/// `Truncated` with the file's length exactly where the file ends before the list does, `Read` where a read failed,
/// `Memory` where there was no memory, only where the file has room for an option. No memory is taken for a size that runs
/// past the file's end.
pub fn read_options<F: File>(
    alloc: Global,
    order: Order,
    file: &mut F,
    at: u64,
) -> Result<(ListOf<Opt>, u64), OpenFault>
    ensures found { FindsOptions order at (F.bytes file.old) result }
    ensures exact { AnswersTold (options_from order at) (F.bytes file.old) result }
    ensures allowed { IfOk result (λ found. All IsOption found.0) }
    ensures behind { IfOk result (λ found. found.1 ≡ at + length (options_text order found.0)) }
    ensures inside { IfOk result (λ found. found.1 ≤ F.size file.old) }
    ensures fault { IfErr result (IsEnd (F.size file.old)) }
    ensures memory { IsErrOf result OpenFault.Memory → at + 6 ≤ F.size file.old }
    ensures reads { IfOk result (λ found. F.reads file.new ≡ raised (F.reads file.old) (found.1 - at)) }
    ensures most { F.reads file.new ≤ raised (F.reads file.old) (F.size file.old - at) }
    ensures cause { IsErrOf result OpenFault.Read → Rose (F.faults file.old) (F.faults file.new) }
    ensures kept { KeptUnlessRead (F.faults file.old) (F.faults file.new) result }
    ensures keeps { KeepsFile F.File file.old file.new }
{
    let mut options = Vec::new(alloc);
    let mut place = at;
    loop {
        let (option, behind) = read_option(alloc, order, file, place)?;
        place = behind;
        let Some(option) = option else {
            return Ok((ListOf::from_vec(options), place));
        };
        let Ok(()) = options.push(option) else {
            return Err(OpenFault::Memory);
        };
    }
}

// The option at a place, or none where the list ends there, and the place after it.
#[tactic(auto, using(crate::proofs::Pieces::read_of_piece))]
fn read_option<F: File>(
    alloc: Global,
    order: Order,
    file: &mut F,
    at: u64,
) -> Result<(Option<Opt>, u64), OpenFault>
    ensures first { ReadsFirst order (F.bytes file.old) (F.size file.old) at result }
    ensures memory { IsErrOf result OpenFault.Memory → at + 6 ≤ F.size file.old }
    ensures reads { IfOk result (λ found. F.reads file.new ≡ raised (F.reads file.old) (found.1 - at)) }
    ensures most { F.reads file.new ≤ raised (F.reads file.old) (F.size file.old - at) }
    ensures cause { IsErrOf result OpenFault.Read → Rose (F.faults file.old) (F.faults file.new) }
    ensures kept { KeptUnlessRead (F.faults file.old) (F.faults file.new) result }
    ensures keeps { KeepsFile F.File file.old file.new }
{
    let mut id = [0; 2];
    read_piece(file, at, &mut id)?;
    let id = id_of(order, &id);
    if id == 0 {
        return Ok((None, at + 2));
    }
    let mut size = [0; 4];
    read_piece(file, at + 2, &mut size)?;
    let size = size_of(order, &size) as u64;
    let bytes = read_bytes(alloc, file, at + 6, size)?;
    Ok((Some(Opt { id, bytes }), at + 6 + size))
}

fn id_of(order: Order, bytes: &[u8; 2]) -> u16
    ensures { bytes_of order 2 result ≡ bytes.now }
{
    read_u16(order, bytes)
}

fn size_of(order: Order, bytes: &[u8; 4]) -> u32
    ensures { bytes_of order 4 result ≡ bytes.now }
{
    read_u32(order, bytes)
}

/// Writes the options and the id that ends them.
///
/// # Errors
/// `Failed` where a write failed; a prefix of them was written then.
pub fn write_options<O: Sink>(order: Order, options: &[Opt], out: &mut O) -> Result<(), Failed>
    requires { All MayBeWritten options.now }
    ensures gained { OnOk result (Gained (O.written out.old) (O.written out.new) (options_text order options.now)) }
    ensures prefix { OnErr result (GainedPrefix (O.written out.old) (O.written out.new) (options_text order options.now)) }
    ensures name { O.name out.new ≡ O.name out.old }
    ensures cause { HasCause (O.faults out.old) (O.faults out.new) result }
{
    for option in options {
        write_option(order, option, out)?;
    }
    write_all(out, &[0, 0])
}

fn write_option<O: Sink>(order: Order, option: &Opt, out: &mut O) -> Result<(), Failed>
    requires { MayBeWritten option.now }
    ensures gained { OnOk result (Gained (O.written out.old) (O.written out.new) (option_text order option.now)) }
    ensures prefix { OnErr result (GainedPrefix (O.written out.old) (O.written out.new) (option_text order option.now)) }
    ensures name { O.name out.new ≡ O.name out.old }
    ensures cause { HasCause (O.faults out.old) (O.faults out.new) result }
{
    let bytes = option.bytes.as_bytes();
    let mut head = [0; 6];
    put_u16(order, option.id, &mut head);
    put_u32(order, bytes.len() as u32, &mut head[2..]);
    write_parts(out, &[&head, bytes])
}
