ghost use Rattle.std.specs.Prelude.{◌≡◌, [], None, Some, length, IfOk};
ghost use Rattle.trace_outside.specs.Causes.{HasCause, FailsJustThere, raised};
ghost use Rattle.trace_outside.specs.Writing.{Takes};
ghost use Rattle.trace_outside.specs.Faults.{at_limit};
ghost use Rattle.trace_outside.specs.Memory.{sink_wants, sink_writes, sink_limit, sink_from, sink_due, write_fails, SetAsBefore, FailsAsSet};

use crate::memory::faults::{at_limit, is_failing, is_from, next_number};
use crate::outside::{Failed, Sink};
use std::alloc::{AllocError, Global};
use trace_base::ByteText;

/// A sink in memory, which tells what was written to it. Its writes fail just where a fault was set for them, or where they
/// find no memory.
#[derive(Drop)]
pub struct MemSink {
    pub(super) label: ByteText,
    pub(super) kept: Vec<u8>,
    pub(super) faults: u64,
    pub(super) wants: u64,
    pub(super) writes: u64,
    pub(super) from: Option<u64>,
    pub(super) due: Option<u64>,
    pub(super) limit: Option<u32>,
}

impl MemSink {
    /// An empty sink without a name. No fault is set for it.
    pub fn new(alloc: Global) -> MemSink
        ensures named { ⟦<MemSink as Sink>⟧.name result ≡ [] }
        ensures empty { ⟦<MemSink as Sink>⟧.written result ≡ Some [] }
        ensures no_faults { ⟦<MemSink as Sink>⟧.faults result ≡ 0 }
        ensures no_wants { sink_wants result ≡ 0 }
        ensures no_writes { sink_writes result ≡ 0 }
        ensures no_fault_set { sink_from result ≡ None }
        ensures no_due_set { sink_due result ≡ None }
        ensures unlimited { sink_limit result ≡ None }
    {
        MemSink::named(alloc, ByteText::from_vec(Vec::new(alloc)))
    }

    /// The same, with room for so many bytes.
    pub fn with_capacity(alloc: Global, capacity: usize) -> Result<MemSink, AllocError>
        ensures named { IfOk result (λ sink. ⟦<MemSink as Sink>⟧.name sink ≡ []) }
        ensures empty { IfOk result (λ sink. ⟦<MemSink as Sink>⟧.written sink ≡ Some []) }
        ensures no_faults { IfOk result (λ sink. ⟦<MemSink as Sink>⟧.faults sink ≡ 0) }
        ensures no_wants { IfOk result (λ sink. sink_wants sink ≡ 0) }
        ensures no_writes { IfOk result (λ sink. sink_writes sink ≡ 0) }
        ensures no_fault_set { IfOk result (λ sink. sink_from sink ≡ None) }
        ensures no_due_set { IfOk result (λ sink. sink_due sink ≡ None) }
        ensures unlimited { IfOk result (λ sink. sink_limit sink ≡ None) }
    {
        let mut sink = MemSink::new(alloc);
        sink.kept = Vec::with_capacity(alloc, capacity)?;
        Ok(sink)
    }

    pub(super) fn named(alloc: Global, label: ByteText) -> MemSink
        ensures named { ⟦<MemSink as Sink>⟧.name result ≡ label }
        ensures empty { ⟦<MemSink as Sink>⟧.written result ≡ Some [] }
        ensures no_faults { ⟦<MemSink as Sink>⟧.faults result ≡ 0 }
        ensures no_wants { sink_wants result ≡ 0 }
        ensures no_writes { sink_writes result ≡ 0 }
        ensures no_fault_set { sink_from result ≡ None }
        ensures no_due_set { sink_due result ≡ None }
        ensures unlimited { sink_limit result ≡ None }
    {
        MemSink {
            label,
            kept: Vec::new(alloc),
            faults: 0,
            wants: 0,
            writes: 0,
            from: None,
            due: None,
            limit: None,
        }
    }

    /// From now on the write of this number and all later ones fail, counted from 1 on since the sink was made.
    pub fn fail_from(&mut self, call: u64)
        ensures set { sink_from self.new ≡ Some call }
        ensures due { sink_due self.new ≡ sink_due self.old }
        ensures limit { sink_limit self.new ≡ sink_limit self.old }
        ensures writes { sink_writes self.new ≡ sink_writes self.old }
        ensures wants { sink_wants self.new ≡ sink_wants self.old }
        ensures name { ⟦<MemSink as Sink>⟧.name self.new ≡ ⟦<MemSink as Sink>⟧.name self.old }
        ensures written { ⟦<MemSink as Sink>⟧.written self.new ≡ ⟦<MemSink as Sink>⟧.written self.old }
        ensures faults { ⟦<MemSink as Sink>⟧.faults self.new ≡ ⟦<MemSink as Sink>⟧.faults self.old }
    {
        self.from = Some(call);
    }

    /// From now on a write takes at most so many bytes, and at least one of a piece that has some.
    pub fn short(&mut self, most: u32)
        ensures limit { sink_limit self.new ≡ Some most }
        ensures from { sink_from self.new ≡ sink_from self.old }
        ensures due { sink_due self.new ≡ sink_due self.old }
        ensures writes { sink_writes self.new ≡ sink_writes self.old }
        ensures wants { sink_wants self.new ≡ sink_wants self.old }
        ensures name { ⟦<MemSink as Sink>⟧.name self.new ≡ ⟦<MemSink as Sink>⟧.name self.old }
        ensures written { ⟦<MemSink as Sink>⟧.written self.new ≡ ⟦<MemSink as Sink>⟧.written self.old }
        ensures faults { ⟦<MemSink as Sink>⟧.faults self.new ≡ ⟦<MemSink as Sink>⟧.faults self.old }
    {
        self.limit = Some(most);
    }

    /// All that was written.
    pub fn bytes(&self) -> &[u8]
        ensures { ⟦<MemSink as Sink>⟧.written self.now ≡ Some result.now }
    {
        &self.kept
    }

    /// All that was written, as a text; no memory is taken.
    pub fn into_text(self) -> ByteText
        ensures { ⟦<MemSink as Sink>⟧.written self ≡ Some result }
    {
        ByteText::from_vec(self.kept)
    }

    /// How often it was written to, including the writes that failed.
    pub fn writes(&self) -> u64
        ensures { result ≡ sink_writes self.now }
    {
        self.writes
    }

    /// How many of its writes failed.
    pub fn faults(&self) -> u64
        ensures { result ≡ ⟦<MemSink as Sink>⟧.faults self.now }
    {
        self.faults
    }

    /// How many calls found no memory.
    pub fn wants(&self) -> u64
        ensures { result ≡ sink_wants self.now }
    {
        self.wants
    }

    // Whether a fault is set for the write of this number, of this piece.
    fn is_to_fail(&self, number: u64, piece: &[u8]) -> bool
        ensures { result ≡ write_fails self.now number (length piece.now) }
    {
        !piece.is_empty() && (is_from(self.from, number) || is_failing(self.due, number))
    }
}

impl Sink for MemSink {
    ghost name = { λ s. s.label };

    ghost written = { λ s. Some s.kept.items };

    ghost faults = { λ s. s.faults };

    fn write(&mut self, piece: &[u8]) -> Result<usize, Failed>
        ensures taken { Takes (⟦<MemSink as Sink>⟧.written self.old) (⟦<MemSink as Sink>⟧.written self.new) piece.now result }
        ensures name { ⟦<MemSink as Sink>⟧.name self.new ≡ ⟦<MemSink as Sink>⟧.name self.old }
        ensures cause { HasCause (⟦<MemSink as Sink>⟧.faults self.old) (⟦<MemSink as Sink>⟧.faults self.new) result }
        ensures just_there { FailsJustThere (⟦<MemSink as Sink>⟧.faults self.old) (⟦<MemSink as Sink>⟧.faults self.new) result }
        ensures fails { FailsAsSet (write_fails self.old (raised (sink_writes self.old) 1) (length piece.now)) (sink_wants self.old) (sink_wants self.new) result }
        ensures count { IfOk result (λ count. count ≡ at_limit (sink_limit self.old) (length piece.now)) }
        ensures writes { sink_writes self.new ≡ raised (sink_writes self.old) 1 }
        ensures set { SetAsBefore self.old self.new }
    {
        let number = next_number(self.writes);
        self.writes = number;
        if self.is_to_fail(number, piece) {
            self.faults = self.faults.saturating_add(1);
            return Err(Failed);
        }
        let count = at_limit(self.limit, piece.len());
        match self.kept.extend_from_slice(&piece[..count]) {
            Ok(()) => Ok(count),
            Err(_) => {
                self.faults = self.faults.saturating_add(1);
                self.wants = self.wants.saturating_add(1);
                Err(Failed)
            }
        }
    }
}
