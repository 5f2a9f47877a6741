// The whole header, read piece after piece.

ghost use Rattle.std.specs.Prelude.{◌≤◌, IfOk};
ghost use Rattle.trace_outside.specs.Keeping.{KeepsFile};
ghost use Rattle.trace_outside.specs.Seen.{file_seen};
ghost use Rattle.dat_header.specs.Header.{ReadsHeader, header_of};
ghost use Rattle.dat_header.specs.Allowed.{IsHeader, IsBody};
ghost use Rattle.dat_header.specs.HeaderReads.{HeaderReads};
ghost use Rattle.dat_header.specs.Steps.{Steps};

use crate::carried::read_carried;
use crate::header::Header;
use crate::machine::read_cpus;
use crate::opening::read_opening;
use crate::pieces::joined;
use crate::sections::read_sections;
use dat_options::OpenFault;
use std::alloc::Global;
use trace_outside::File;

/// Reads the header that a file begins with (trace-cmd.dat.v6(5)). Each byte of the header is read once, and no other byte; of a
/// file without a header no byte is read more than once.
///
/// # Errors
/// Every fault but the last two says what is wrong with the file, and where: the place of the first byte of the first item
/// that is wrong (for `BadHeaderPage` that of the text), or the file's length where the file ends inside an item. `Read` comes
/// only where a read failed, and `Memory` only where there was no memory; no memory is taken for what is not there.
pub fn read_header<F: File>(alloc: Global, file: &mut F) -> Result<Header, OpenFault>
    ensures answer { ReadsHeader (F.bytes file.old) result }
    ensures file { HeaderReads (file_seen F.File file.old) (file_seen F.File file.new) result }
    ensures allowed { IfOk result IsHeader }
    ensures cpus { IfOk result (λ header. header.cpus ≤ 1024) }
    ensures parts { IfOk result (λ header. IsBody header.cpus header.body) }
    ensures keeps { KeepsFile F.File file.old file.new }
{
    read_pieces(alloc, file)
}

// The header, as one step of reading.
fn read_pieces<F: File>(alloc: Global, file: &mut F) -> Result<Header, OpenFault>
    ensures allowed { IfOk result IsHeader }
    ensures steps { Steps (λ header. header.end) header_of 0 (file_seen F.File file.old) (file_seen F.File file.new) result }
{
    let (opening, at_event) = read_opening(alloc, file)?;
    let order = opening.machine.order;
    let (carried, at_cpus) = read_carried(alloc, order, file, at_event)?;
    let (cpus, after) = read_cpus(order, file, at_cpus)?;
    let (sections, end) = read_sections(alloc, order, cpus, file, after)?;
    Ok(joined(opening, carried, cpus, sections, end))
}
