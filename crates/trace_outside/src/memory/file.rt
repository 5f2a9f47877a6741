ghost use Rattle.std.specs.Prelude.{◌≡◌, ◌<◌, ◌^◌, length};

use crate::memory::faults::{asks_for, at_limit};
use crate::outside::{Failed, File};
use trace_base::ByteText;

/// A file in memory, which tells its bytes. Its reads fail just where they ask for a byte that was set to fail.
#[derive(Drop)]
pub struct MemFile {
    text: ByteText,
    size: u64,
    pub(super) reads: u64,
    pub(super) faults: u64,
    fault: Option<u64>,
    limit: Option<u32>,
    ghost size_is: { length text ≡ size },
    ghost size_fits: { size < 2 ^ 64 },
}

impl MemFile {
    ghost use Rattle.std.specs.Prelude.{None, Some};
    ghost use Rattle.trace_outside.specs.Memory.{file_fault, file_limit};

    /// A file of these bytes, just opened. None of its reads fails.
    pub fn new(bytes: ByteText) -> MemFile
        ensures bytes { ⟦<MemFile as File>⟧.bytes result ≡ Some bytes }
        ensures no_faults { ⟦<MemFile as File>⟧.faults result ≡ 0 }
        ensures no_reads { ⟦<MemFile as File>⟧.reads result ≡ 0 }
        ensures no_fault_set { file_fault result ≡ None }
        ensures unlimited { file_limit result ≡ None }
    {
        MemFile::opened(bytes, None, None)
    }

    pub(super) fn opened(bytes: ByteText, fault: Option<u64>, limit: Option<u32>) -> MemFile
        ensures bytes { ⟦<MemFile as File>⟧.bytes result ≡ Some bytes }
        ensures no_faults { ⟦<MemFile as File>⟧.faults result ≡ 0 }
        ensures no_reads { ⟦<MemFile as File>⟧.reads result ≡ 0 }
        ensures fault { file_fault result ≡ fault }
        ensures limit { file_limit result ≡ limit }
    {
        let size = bytes.as_bytes().len() as u64;
        MemFile {
            text: bytes,
            size,
            reads: 0,
            faults: 0,
            fault,
            limit,
        }
    }

    /// From now on each read that asks for the byte at this place fails, and no other. A byte past the end is asked for by
    /// none.
    pub fn fail_at(&mut self, byte: u64)
        ensures set { file_fault self.new ≡ Some byte }
        ensures limit { file_limit self.new ≡ file_limit self.old }
        ensures bytes { ⟦<MemFile as File>⟧.bytes self.new ≡ ⟦<MemFile as File>⟧.bytes self.old }
        ensures faults { ⟦<MemFile as File>⟧.faults self.new ≡ ⟦<MemFile as File>⟧.faults self.old }
        ensures reads { ⟦<MemFile as File>⟧.reads self.new ≡ ⟦<MemFile as File>⟧.reads self.old }
    {
        self.fault = Some(byte);
    }

    /// How many of its bytes were read.
    pub fn reads(&self) -> u64
        ensures { result ≡ ⟦<MemFile as File>⟧.reads self.now }
    {
        self.reads
    }

    /// How many of its reads failed.
    pub fn faults(&self) -> u64
        ensures { result ≡ ⟦<MemFile as File>⟧.faults self.now }
    {
        self.faults
    }
}

impl File for MemFile {
    ghost use Rattle.std.specs.Prelude.{◌-◌, min, Some, IfOk, IsOk, IsErr, OnErr, MatchBool};
    ghost use Rattle.trace_outside.specs.Causes.{HasCause, FailsJustThere, raised};
    ghost use Rattle.trace_outside.specs.Reading.{ReadsAt};
    ghost use Rattle.trace_outside.specs.Faults.{asks_for, at_limit};
    ghost use Rattle.trace_outside.specs.Memory.{file_fault, file_limit};

    ghost bytes = { λ f. Some f.text };

    ghost size = { λ f. f.size };

    ghost faults = { λ f. f.faults };

    ghost reads = { λ f. f.reads };

    ghost size_is = { λ f. f.size_is };

    ghost size_fits = { λ f. f.size_fits };

    fn len(&self) -> u64 {
        self.size
    }

    fn read_at(&mut self, at: u64, into: &mut [u8]) -> Result<usize, Failed>
        requires inside { at < ⟦<MemFile as File>⟧.size self.old }
        requires room { 0 < length into.old }
        ensures given { ReadsAt (⟦<MemFile as File>⟧.bytes self.old) at result into.new }
        ensures reads { IfOk result (λ count. ⟦<MemFile as File>⟧.reads self.new ≡ raised (⟦<MemFile as File>⟧.reads self.old) count) }
        ensures no_reads { OnErr result (⟦<MemFile as File>⟧.reads self.new ≡ ⟦<MemFile as File>⟧.reads self.old) }
        ensures bytes { ⟦<MemFile as File>⟧.bytes self.new ≡ ⟦<MemFile as File>⟧.bytes self.old }
        ensures size { ⟦<MemFile as File>⟧.size self.new ≡ ⟦<MemFile as File>⟧.size self.old }
        ensures cause { HasCause (⟦<MemFile as File>⟧.faults self.old) (⟦<MemFile as File>⟧.faults self.new) result }
        ensures just_there { FailsJustThere (⟦<MemFile as File>⟧.faults self.old) (⟦<MemFile as File>⟧.faults self.new) result }
        ensures fails { MatchBool (asks_for (file_fault self.old) (⟦<MemFile as File>⟧.size self.old) at (length into.old)) (IsErr result) (IsOk result) }
        ensures count { IfOk result (λ count. count ≡ at_limit (file_limit self.old) (min (⟦<MemFile as File>⟧.size self.old - at) (length into.old))) }
        ensures fault { file_fault self.new ≡ file_fault self.old }
        ensures limit { file_limit self.new ≡ file_limit self.old }
    {
        if asks_for(self.fault, self.size, at, into.len() as u64) {
            self.faults = self.faults.saturating_add(1);
            return Err(Failed);
        }
        let rest = &self.text.as_bytes()[at as usize..];
        let count = at_limit(self.limit, rest.len().min(into.len()));
        into[..count].copy_from_slice(&rest[..count]);
        self.reads = self.reads.saturating_add(count as u64);
        Ok(count)
    }
}
