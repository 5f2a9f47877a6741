// A file's bytes, copied a buffer at a time.

ghost use Rattle.std.specs.Prelude.{◌≡◌, ◌≤◌, ◌<◌, ◌+◌, ◌-◌, length, IsErrOf};
ghost use Rattle.trace_outside.specs.Causes.{Rose, raised};
ghost use Rattle.trace_outside.specs.Keeping.{KeepsFile, KeepsSink};
ghost use Rattle.trace_outside.specs.Copies.{Copies};

use crate::outside::{Failed, File, Sink};
use crate::whole::{read_all, write_all};
use thiserror::Error;

/// Why a copy stopped.
#[derive(Clone, Copy, Debug, PartialEq, Eq, Error)]
pub enum CopyFault {
    /// A read failed.
    #[error("read failed")]
    Read,
    /// A write failed.
    #[error("write failed")]
    Write,
}

/// Copies the file's bytes from `at` on, a buffer at a time. Each is read once. After a fault a prefix of them was written.
pub fn copy_rest<F: File, O: Sink>(
    file: &mut F,
    at: u64,
    buffer: &mut [u8],
    out: &mut O,
) -> Result<(), CopyFault>
    requires inside { at ≤ F.size file.old }
    requires room { 0 < length buffer.old }
    ensures copies { Copies (F.bytes file.old) at (F.size file.old - at) (O.written out.old) (O.written out.new) result }
    ensures read { IsErrOf result CopyFault.Read → Rose (F.faults file.old) (F.faults file.new) }
    ensures write { IsErrOf result CopyFault.Write → Rose (O.faults out.old) (O.faults out.new) }
    ensures reads { F.reads file.new ≤ raised (F.reads file.old) (F.size file.old - at) }
    ensures keeps_out { KeepsSink O.Sink out.old out.new }
    ensures keeps { KeepsFile F.File file.old file.new }
{
    let size = file.len();
    let mut place = at;
    while place < size {
        let count = (size - place).min(buffer.len() as u64) as usize;
        copy_piece(file, place, &mut buffer[..count], out)?;
        place += count as u64;
    }
    Ok(())
}

// Copies as many bytes as the piece has room for.
fn copy_piece<F: File, O: Sink>(
    file: &mut F,
    at: u64,
    piece: &mut [u8],
    out: &mut O,
) -> Result<(), CopyFault>
    requires { at + length piece.old ≤ F.size file.old }
    ensures copies { Copies (F.bytes file.old) at (length piece.new) (O.written out.old) (O.written out.new) result }
    ensures read { IsErrOf result CopyFault.Read → Rose (F.faults file.old) (F.faults file.new) }
    ensures write { IsErrOf result CopyFault.Write → Rose (O.faults out.old) (O.faults out.new) }
    ensures reads { F.reads file.new ≤ raised (F.reads file.old) (length piece.new) }
    ensures keeps_out { KeepsSink O.Sink out.old out.new }
    ensures keeps { KeepsFile F.File file.old file.new }
{
    match read_all(file, at, piece) {
        Ok(()) => {}
        Err(Failed) => return Err(CopyFault::Read),
    }
    match write_all(out, piece) {
        Ok(()) => Ok(()),
        Err(Failed) => Err(CopyFault::Write),
    }
}
