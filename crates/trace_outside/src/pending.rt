ghost use Rattle.std.specs.Prelude.{◌≡◌, ◌≤◌, ◌+◌, ◌++◌, ◌&&◌, not, [], List, ℕ, length, nat_le, IfOk, vec_len, vec_capacity, if◌then◌else◌};
ghost use Rattle.std.specs.List.{flat_map};
ghost use Rattle.trace_outside.specs.Causes.{HasCause};
ghost use Rattle.trace_outside.specs.Pending.{PutsText, Flushes, is_written_at_once, on_way};

use crate::outside::{Failed, Sink};
use crate::whole::write_all;
use std::alloc::{AllocError, Global};
use std::marker::Model;

/// Text on its way to a sink, which gets it in large pieces. Contracts see what still waits.
///
/// Memory is taken at the start alone: from then on pieces go to room that is there, or past it to the sink, as large ones
/// do where nothing waits. After a fault the sink has a prefix of all that was put, and nothing is said of what waits: it is
/// not to be used again.
#[derive(Drop)]
pub struct Pending {
    bytes: Vec<u8>,
}

impl Model for Pending {
    ghost Value = { List ℕ };

    ghost view = { λ pending. pending.bytes.items };

    // No more than `ROOM` bytes wait, and there is memory for as many.
    ghost invariant = { λ pending. (vec_len pending.bytes ≤ 65536) × (65536 ≤ vec_capacity pending.bytes) };
}

/// From so many bytes on a piece is worth a write of its own.
const LARGE: usize = 8_192;

/// Whether a piece goes to the sink without a copy: it is large, and nothing waits that could be written with it.
fn is_written_at_once(waiting: usize, len: usize) -> bool
    ensures { result ≡ is_written_at_once waiting len }
{
    waiting == 0 && len >= LARGE
}

impl Pending {
    /// How many bytes may wait.
    pub const ROOM: usize = 65_536;

    /// Nothing waits.
    pub fn new(alloc: Global) -> Result<Pending, AllocError>
        ensures { IfOk result (λ pending. pending ≡ []) }
    {
        let bytes = Vec::with_capacity(alloc, Pending::ROOM)?;
        Ok(Pending { bytes })
    }

    /// Puts a piece after what waits. After `Failed` the sink has a prefix of all that was put.
    pub fn put<O: Sink>(&mut self, out: &mut O, piece: &[u8]) -> Result<(), Failed>
        ensures { PutsText piece.now (on_way O.written O.name O.faults out.old self.old) (on_way O.written O.name O.faults out.new self.new) result }
    {
        if self.append(piece) {
            return Ok(());
        }
        self.flush(out)?;
        if self.append(piece) {
            return Ok(());
        }
        write_all(out, piece)
    }

    // Lets the piece wait, just where there is room for it and it is not to be written at once. It takes no memory.
    fn append(&mut self, piece: &[u8]) -> bool
        ensures fits { result ≡ (nat_le (length self.old + length piece.now) Pending.ROOM && not (is_written_at_once (length self.old) (length piece.now))) }
        ensures waits { self.new ≡ (if result then self.old ++ piece.now else self.old) }
    {
        if piece.len() > Pending::ROOM - self.bytes.len() {
            return false;
        }
        if is_written_at_once(self.bytes.len(), piece.len()) {
            return false;
        }
        self.bytes.extend_from_slice(piece).is_ok()
    }

    /// Puts pieces, one after another.
    pub fn put_parts<O: Sink>(&mut self, out: &mut O, parts: &[&[u8]]) -> Result<(), Failed>
        ensures { PutsText (flat_map (λ part. part.now) parts.now) (on_way O.written O.name O.faults out.old self.old) (on_way O.written O.name O.faults out.new self.new) result }
    {
        for part in parts {
            self.put(out, part)?;
        }
        Ok(())
    }

    /// Writes all that waits. After `Failed` the sink has a prefix of it.
    pub fn flush<O: Sink>(&mut self, out: &mut O) -> Result<(), Failed>
        ensures flushes { Flushes (O.written out.old) self.old (O.written out.new) self.new result }
        ensures name { O.name out.new ≡ O.name out.old }
        ensures cause { HasCause (O.faults out.old) (O.faults out.new) result }
    {
        write_all(out, &self.bytes)?;
        self.bytes.clear();
        Ok(())
    }
}
