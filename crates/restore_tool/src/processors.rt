// The header of a partial file, with a table for the processors of a new one.

ghost use Rattle.std.specs.Prelude.{◌≡◌, ◌≤◌, IfOk};
ghost use Rattle.dat_header.specs.Allowed.{IsHeader};
ghost use Rattle.dat_header.specs.Tables.{blank};
ghost use Rattle.restore_tool.specs.Restored.{for_processors};

use dat_header::{Body, Header};
use std::alloc::{AllocError, Global};
use trace_base::{ListOf, Part};

/// The header for so many processors, with a table whose parts are not known yet.
///
/// # Errors
/// `AllocError` where there is no memory for the table.
pub fn for_processors(alloc: Global, header: Header, cpus: u32) -> Result<Header, AllocError>
    requires few { cpus ≤ 1024 }
    requires allowed { IsHeader header }
    ensures header { IfOk result (λ new. new ≡ for_processors header cpus) }
    ensures allowed { IfOk result IsHeader }
{
    let parts = blank_parts(alloc, cpus)?;
    let body = Body::Fly(ListOf::from_vec(parts));
    let mut header = header;
    header.cpus = cpus;
    header.body = body;
    Ok(header)
}

/// So many parts that are not known yet.
pub fn blank_parts(alloc: Global, cpus: u32) -> Result<Vec<Part>, AllocError>
    ensures { IfOk result (λ parts. parts.items ≡ blank cpus) }
{
    let none = Part { offset: 0, size: 0 };
    vec![in alloc; none; cpus as usize]
}
