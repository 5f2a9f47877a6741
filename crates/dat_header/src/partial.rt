// The header of a partial file, which stops before the command lines or after them.

ghost use Rattle.std.specs.Prelude.{◌≡◌, ◌^◌, ◌<◌, ◌≤◌, [], length, IfOk};
ghost use Rattle.trace_outside.specs.Keeping.{KeepsFile};
ghost use Rattle.trace_outside.specs.Seen.{file_seen};
ghost use Rattle.dat_header.specs.Partial.{IsPartial, ReadsPartial, cmdlines_at, partial_header, partial_of};
ghost use Rattle.dat_header.specs.HeaderReads.{HeaderReads};
ghost use Rattle.dat_header.specs.Steps.{Finds, Steps};

use crate::carried::read_described;
use crate::header::{Body, Header};
use crate::items::read_long_text;
use crate::opening::read_opening;
use crate::pieces::{Carried, Opening, Sections, joined};
use dat_options::OpenFault;
use std::alloc::Global;
use trace_base::{ByteText, ListOf, Order, Part};
use trace_outside::File;

/// Reads the header of a partial file, which has the descriptions of a recording and no data (trace-cmd-restore(1)): the items of
/// a header up to the command lines, or up to those in front of them where the file ends there. What follows is not read, so
/// that a whole trace file serves too.
///
/// The header has no processor, no options and an empty table, and ends after the last of these items that is there.
///
/// # Errors
/// As those of `read_header`, for these items.
pub fn read_partial<F: File>(alloc: Global, file: &mut F) -> Result<Header, OpenFault>
    ensures answer { ReadsPartial (F.bytes file.old) result }
    ensures file { HeaderReads (file_seen F.File file.old) (file_seen F.File file.new) result }
    ensures partial { IfOk result IsPartial }
    ensures keeps { KeepsFile F.File file.old file.new }
{
    read_partial_pieces(alloc, file)
}

// The header, as one step of reading.
fn read_partial_pieces<F: File>(alloc: Global, file: &mut F) -> Result<Header, OpenFault>
    ensures partial { IfOk result IsPartial }
    ensures steps { Steps (λ header. header.end) partial_of 0 (file_seen F.File file.old) (file_seen F.File file.new) result }
{
    let (opening, at_event) = read_opening(alloc, file)?;
    let order = opening.machine.order;
    let (described, at_cmdlines) = read_described(alloc, order, file, at_event)?;
    let (cmdlines, end) = read_cmdlines(alloc, order, file, at_cmdlines)?;
    let carried = Carried {
        described,
        cmdlines,
    };
    Ok(partial_header(alloc, opening, carried, end))
}

// The command lines, which are empty where the file ends in front of them.
fn read_cmdlines<F: File>(
    alloc: Global,
    order: Order,
    file: &mut F,
    at: u64,
) -> Result<(ByteText, u64), OpenFault>
    requires inside { at ≤ F.size file.old }
    ensures short { IfOk result (λ found. length found.0 < 2 ^ 64) }
    ensures steps { Finds (cmdlines_at order) at F.File file.old file.new result }
{
    let size = file.len();
    if at == size {
        Ok((no_text(alloc), at))
    } else {
        read_long_text(alloc, order, file, at)
    }
}

fn no_text(alloc: Global) -> ByteText
    ensures { result ≡ [] }
{
    ByteText::from_vec(Vec::new(alloc))
}

fn no_parts(alloc: Global) -> ListOf<Part>
    ensures { result ≡ [] }
{
    ListOf::from_vec(Vec::new(alloc))
}

// The header of these pieces, with no processor, no options and an empty table.
fn partial_header(alloc: Global, opening: Opening, carried: Carried, end: u64) -> Header
    ensures { result ≡ partial_header opening carried end }
{
    let sections = Sections {
        options: None,
        body: Body::Fly(no_parts(alloc)),
    };
    joined(opening, carried, 0, sections, end)
}
