// The texts that are carried unread: formats of events, symbols and command lines.

ghost use Rattle.std.specs.Prelude.{◌≡◌, ◌^◌, ◌<◌, ◌≤◌, length, IfOk};
ghost use Rattle.std.specs.List.{All};
ghost use Rattle.dat_header.specs.Allowed.{AreFormats, IsSystem, AreSystems};
ghost use Rattle.dat_header.specs.Pieces.{IsCarried, IsDescribed};
ghost use Rattle.dat_header.specs.Header.{carried_at};
ghost use Rattle.dat_header.specs.Opening.{described_at};
ghost use Rattle.dat_header.specs.Steps.{Finds};
ghost use Rattle.dat_header.specs.ItemsAt.{texts_at, formats_at, system_at, each_system_at, systems_at};

use crate::header::System;
use crate::items::{read_long_text, read_name, read_number, read_text};
use crate::pieces::{Carried, Described};
use dat_options::OpenFault;
use std::alloc::Global;
use trace_base::{ByteText, ListOf, Order};
use trace_outside::File;

pub(crate) fn read_carried<F: File>(
    alloc: Global,
    order: Order,
    file: &mut F,
    at: u64,
) -> Result<(Carried, u64), OpenFault>
    requires inside { at ≤ F.size file.old }
    ensures allowed { IfOk result (λ found. IsCarried found.0) }
    ensures steps { Finds (carried_at order) at F.File file.old file.new result }
{
    let (described, after) = read_described(alloc, order, file, at)?;
    let (cmdlines, after) = read_long_text(alloc, order, file, after)?;
    let carried = Carried {
        described,
        cmdlines,
    };
    Ok((carried, after))
}

// The texts up to the command lines.
pub(crate) fn read_described<F: File>(
    alloc: Global,
    order: Order,
    file: &mut F,
    at: u64,
) -> Result<(Described, u64), OpenFault>
    requires inside { at ≤ F.size file.old }
    ensures allowed { IfOk result (λ found. IsDescribed found.0) }
    ensures steps { Finds (described_at order) at F.File file.old file.new result }
{
    let (event_text, after) = read_long_text(alloc, order, file, at)?;
    let (ftrace, after) = read_formats(alloc, order, file, after)?;
    let (systems, after) = read_systems(alloc, order, file, after)?;
    let (kallsyms, after) = read_text(alloc, order, file, after)?;
    let (printk, after) = read_text(alloc, order, file, after)?;
    let described = Described {
        event_text,
        ftrace,
        systems,
        kallsyms,
        printk,
    };
    Ok((described, after))
}

// Format texts, preceded by their number.
fn read_formats<F: File>(
    alloc: Global,
    order: Order,
    file: &mut F,
    at: u64,
) -> Result<(ListOf<ByteText>, u64), OpenFault>
    requires inside { at ≤ F.size file.old }
    ensures allowed { IfOk result (λ found. AreFormats found.0) }
    ensures steps { Finds (formats_at order) at F.File file.old file.new result }
{
    let (count, after) = read_number(order, file, at)?;
    read_texts(alloc, order, count, file, after)
}

// So many texts, each preceded by its 64-bit size. Memory is taken only for those that are there.
fn read_texts<F: File>(
    alloc: Global,
    order: Order,
    count: u32,
    file: &mut F,
    at: u64,
) -> Result<(ListOf<ByteText>, u64), OpenFault>
    requires inside { at ≤ F.size file.old }
    ensures allowed { IfOk result (λ found. (length found.0 ≡ count) × All (λ text. length text < 2 ^ 64) found.0) }
    ensures steps { Finds (texts_at count order) at F.File file.old file.new result }
{
    let mut texts = Vec::new(alloc);
    let mut place = at;
    for _done in 0..count {
        let (text, after) = read_long_text(alloc, order, file, place)?;
        place = after;
        let Ok(()) = texts.push(text) else {
            return Err(OpenFault::Memory);
        };
    }
    Ok((ListOf::from_vec(texts), place))
}

fn read_system<F: File>(
    alloc: Global,
    order: Order,
    file: &mut F,
    at: u64,
) -> Result<(System, u64), OpenFault>
    requires inside { at ≤ F.size file.old }
    ensures allowed { IfOk result (λ found. IsSystem found.0) }
    ensures steps { Finds (system_at order) at F.File file.old file.new result }
{
    let (name, after) = read_name(alloc, file, at)?;
    let (formats, after) = read_formats(alloc, order, file, after)?;
    Ok((System { name, formats }, after))
}

// Systems, preceded by their number. Memory is taken only for those that are there.
fn read_systems<F: File>(
    alloc: Global,
    order: Order,
    file: &mut F,
    at: u64,
) -> Result<(ListOf<System>, u64), OpenFault>
    requires inside { at ≤ F.size file.old }
    ensures allowed { IfOk result (λ found. AreSystems found.0) }
    ensures steps { Finds (systems_at order) at F.File file.old file.new result }
{
    let (count, after) = read_number(order, file, at)?;
    read_each_system(alloc, order, count, file, after)
}

fn read_each_system<F: File>(
    alloc: Global,
    order: Order,
    count: u32,
    file: &mut F,
    at: u64,
) -> Result<(ListOf<System>, u64), OpenFault>
    requires inside { at ≤ F.size file.old }
    ensures allowed { IfOk result (λ found. (length found.0 ≡ count) × All IsSystem found.0) }
    ensures steps { Finds (each_system_at count order) at F.File file.old file.new result }
{
    let mut systems = Vec::new(alloc);
    let mut place = at;
    for _done in 0..count {
        let (system, after) = read_system(alloc, order, file, place)?;
        place = after;
        let Ok(()) = systems.push(system) else {
            return Err(OpenFault::Memory);
        };
    }
    Ok((ListOf::from_vec(systems), place))
}
