// Pieces of a file, each read whole or refused before a byte is read.

ghost use Rattle.std.specs.Prelude.{◌≡◌, ◌-◌, ◌^◌, ◌<◌, ◌≤◌, length, OnOk, IsErrOf};
ghost use Rattle.trace_outside.specs.Causes.{Rose, raised};
ghost use Rattle.trace_outside.specs.Keeping.{KeepsFile};
ghost use Rattle.trace_outside.specs.Piece.{FillsFrom, GivesPiece, KeptUnlessRead};
ghost use Rattle.trace_outside.specs.declared.piece.PieceFault.TheVariants.{Read};

use crate::outside::{Failed, File};
use crate::whole::read_all;
use std::alloc::Global;
use thiserror::Error;
use trace_base::ByteText;

/// Why a piece of a file was not read.
#[derive(Clone, Copy, Debug, PartialEq, Eq, Error)]
pub enum PieceFault {
    /// The file ends before the piece does. It has this many bytes, and none of them was read.
    #[error("file ends early at byte {0}")]
    EndsEarly(u64),
    /// A read failed.
    #[error("read failed")]
    Read,
    /// There was no memory for the piece.
    #[error("out of memory")]
    Memory,
}

impl From<Failed> for PieceFault {
    ghost from_gives = { λ failed fault. fault ≡ Read };

    fn from(_failed: Failed) -> PieceFault {
        PieceFault::Read
    }
}

/// Fills the buffer with the file's bytes from `at` on, each of which is read once.
///
/// # Errors
/// `EndsEarly` with the file's length exactly where the file ends before the buffer is full; nothing is read then. `Read`
/// where a read failed.
pub fn read_piece<F: File>(file: &mut F, at: u64, into: &mut [u8]) -> Result<(), PieceFault>
    ensures filled { FillsFrom (F.bytes file.old) (F.size file.old) at result into.new }
    ensures reads { OnOk result (F.reads file.new ≡ raised (F.reads file.old) (length into.new)) }
    ensures unread { IsErrOf result (PieceFault.EndsEarly (F.size file.old)) → F.reads file.new ≡ F.reads file.old }
    ensures most { F.reads file.new ≤ raised (F.reads file.old) (F.size file.old - at) }
    ensures cause { IsErrOf result PieceFault.Read → Rose (F.faults file.old) (F.faults file.new) }
    ensures kept { KeptUnlessRead (F.faults file.old) (F.faults file.new) result }
    ensures keeps { KeepsFile F.File file.old file.new }
    ensures fits { F.size file.old < 2 ^ 64 }
{
    let size = file.len();
    match at.checked_add(into.len() as u64) {
        Some(end) if end <= size => {}
        _ => return Err(PieceFault::EndsEarly(size)),
    }
    read_all(file, at, into)?;
    Ok(())
}

/// The `size` bytes of the file from `at` on, each of which is read once.
///
/// # Errors
/// `EndsEarly` with the file's length exactly where the file ends before; no memory is taken and nothing is read then.
/// `Read` where a read failed, `Memory` where there was no memory for the bytes.
pub fn read_bytes<F: File>(
    alloc: Global,
    file: &mut F,
    at: u64,
    size: u64,
) -> Result<ByteText, PieceFault>
    ensures given { GivesPiece (F.bytes file.old) (F.size file.old) at size result }
    ensures reads { OnOk result (F.reads file.new ≡ raised (F.reads file.old) size) }
    ensures unread { IsErrOf result (PieceFault.EndsEarly (F.size file.old)) → F.reads file.new ≡ F.reads file.old }
    ensures most { F.reads file.new ≤ raised (F.reads file.old) (F.size file.old - at) }
    ensures cause { IsErrOf result PieceFault.Read → Rose (F.faults file.old) (F.faults file.new) }
    ensures kept { KeptUnlessRead (F.faults file.old) (F.faults file.new) result }
    ensures keeps { KeepsFile F.File file.old file.new }
    ensures fits { F.size file.old < 2 ^ 64 }
{
    let len = file.len();
    match at.checked_add(size) {
        Some(end) if end <= len => {}
        _ => return Err(PieceFault::EndsEarly(len)),
    }
    let Ok(mut bytes) = vec![in alloc; 0u8; size as usize] else {
        return Err(PieceFault::Memory);
    };
    read_piece(file, at, bytes.as_mut_slice())?;
    Ok(ByteText::from_vec(bytes))
}
