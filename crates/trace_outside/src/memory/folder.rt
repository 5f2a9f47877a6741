ghost use Rattle.std.specs.Prelude.{◌≡◌, ◌++◌, ◌∷◌, [], Some, IfOk, OnOk, OnErr, option_copied};
ghost use Rattle.std.specs.FinMap as map;
ghost use Rattle.std.specs.Ordering.{nat_cmp};
ghost use Rattle.std.specs.Cmp.Lexicographic.{slice_cmp};
ghost use Rattle.trace_outside.specs.Names.{stored, asked};
ghost use Rattle.trace_outside.specs.Causes.{raised};
ghost use Rattle.trace_outside.specs.Folders.{IsEmptySink, IsFileOf, Opens, Closes, Creates, Finishes, Drops, Stores, KeepsOthers, no_counts};
ghost use Rattle.trace_outside.specs.Faults.{is_failing, no_calls, no_settings, with_fault};
ghost use Rattle.trace_outside.specs.Memory.{folder_wants, folder_set, folder_calls, sink_wants, sink_writes, KeepsFaults, FailsReading, FailsWriting, with_faults, with_read_faults, FailsAsSet, OpensAsSet, CountsCalls, IsSetFile, IsSetSink};

use crate::counts::Counts;
use crate::memory::faults::{Calls, MemFault, Settings, due_after, is_failing, next_number};
use crate::memory::file::MemFile;
use crate::memory::sink::MemSink;
use crate::outside::{Failed, File, Folder, Sink};
use crate::requests::Requests;
use std::alloc::{AllocError, Global};
use std::collections::VecDeque;
use trace_base::ByteText;

/// A folder in memory, which tells its names and bytes. Its calls fail just where a fault was set for them, a name is missing,
/// or they find no memory.
#[derive(Drop)]
pub struct MemFolder {
    alloc: Global,
    // What was stored, the newest first: an older entry of a name comes after a newer one.
    log: VecDeque<(ByteText, ByteText)>,
    counts: Counts,
    wants: u64,
    set: Settings,
    calls: Calls,
    requests: Requests,
}

impl MemFolder {
    /// A folder without files. No fault is set for it.
    pub fn new(alloc: Global) -> MemFolder
        ensures empty { ⟦<MemFolder as Folder>⟧.files result ≡ Some map.empty }
        ensures no_counts { ⟦<MemFolder as Folder>⟧.counts result ≡ no_counts }
        ensures no_requests { ⟦<MemFolder as Folder>⟧.requested result ≡ [] }
        ensures no_wants { folder_wants result ≡ 0 }
        ensures no_settings { folder_set result ≡ no_settings }
        ensures no_calls { folder_calls result ≡ no_calls }
    {
        MemFolder {
            alloc,
            log: VecDeque::new(alloc),
            counts: Counts::NONE,
            wants: 0,
            set: Settings::NONE,
            calls: Calls::NONE,
            requests: Requests::none(),
        }
    }

    /// Sets the name to a copy of the bytes, in place of older ones. No count changes.
    pub fn put(&mut self, name: &str, bytes: &[u8]) -> Result<(), AllocError>
        ensures ok { OnOk result (⟦<MemFolder as Folder>⟧.files self.new ≡ stored (⟦<MemFolder as Folder>⟧.files self.old) name.now bytes.now) }
        ensures err { OnErr result (⟦<MemFolder as Folder>⟧.files self.new ≡ ⟦<MemFolder as Folder>⟧.files self.old) }
        ensures counts { ⟦<MemFolder as Folder>⟧.counts self.new ≡ ⟦<MemFolder as Folder>⟧.counts self.old }
        ensures requested { ⟦<MemFolder as Folder>⟧.requested self.new ≡ ⟦<MemFolder as Folder>⟧.requested self.old }
        ensures wants { folder_wants self.new ≡ folder_wants self.old }
        ensures set { folder_set self.new ≡ folder_set self.old }
        ensures calls { folder_calls self.new ≡ folder_calls self.old }
    {
        let name = ByteText::copy(self.alloc, name.as_bytes())?;
        let bytes = ByteText::copy(self.alloc, bytes)?;
        self.log.push_front((name, bytes))?;
        Ok(())
    }

    /// The bytes of the name, or none where the name is not there.
    pub fn get(&self, name: &str) -> Option<&[u8]>
        ensures { asked (⟦<MemFolder as Folder>⟧.files self.now) name.now ≡ Some (option_copied result) }
    {
        newest(&self.log, name.as_bytes())
    }

    /// From now on the calls of this fault fail, and no others. It holds for what is opened and created from now on.
    pub fn fail(&mut self, fault: MemFault)
        ensures set { folder_set self.new ≡ with_fault fault (folder_set self.old) }
        ensures files { ⟦<MemFolder as Folder>⟧.files self.new ≡ ⟦<MemFolder as Folder>⟧.files self.old }
        ensures counts { ⟦<MemFolder as Folder>⟧.counts self.new ≡ ⟦<MemFolder as Folder>⟧.counts self.old }
        ensures requested { ⟦<MemFolder as Folder>⟧.requested self.new ≡ ⟦<MemFolder as Folder>⟧.requested self.old }
        ensures wants { folder_wants self.new ≡ folder_wants self.old }
        ensures calls { folder_calls self.new ≡ folder_calls self.old }
    {
        self.set = self.set.with_fault(fault);
    }

    /// A read of a file that is opened from now on gives at most so many bytes, and a write to a sink that is created takes at
    /// most as many, each at least one.
    pub fn short(&mut self, most: u32)
        ensures set { folder_set self.new ≡ record (folder_set self.old) { limit = Some most } }
        ensures files { ⟦<MemFolder as Folder>⟧.files self.new ≡ ⟦<MemFolder as Folder>⟧.files self.old }
        ensures counts { ⟦<MemFolder as Folder>⟧.counts self.new ≡ ⟦<MemFolder as Folder>⟧.counts self.old }
        ensures requested { ⟦<MemFolder as Folder>⟧.requested self.new ≡ ⟦<MemFolder as Folder>⟧.requested self.old }
        ensures wants { folder_wants self.new ≡ folder_wants self.old }
        ensures calls { folder_calls self.new ≡ folder_calls self.old }
    {
        self.set.limit = Some(most);
    }

    /// What it has counted.
    pub fn counts(&self) -> Counts
        ensures { result ≡ ⟦<MemFolder as Folder>⟧.counts self.now }
    {
        self.counts
    }

    /// How many calls of the folder found no memory, including those of its sinks that were finished or dropped.
    pub fn wants(&self) -> u64
        ensures { result ≡ folder_wants self.now }
    {
        self.wants
    }
}

// The bytes of the newest entry of this name.
fn newest<'a>(log: &'a VecDeque<(ByteText, ByteText)>, name: &[u8]) -> Option<&'a [u8]>
    ensures { option_copied result ≡ map.find (slice_cmp nat_cmp) name.now log.now.items }
{
    for (key, bytes) in log {
        if name == key.as_bytes() {
            return Some(bytes.as_bytes());
        }
    }
    None
}

impl Folder for MemFolder {
    type In = MemFile;

    type Out = MemSink;

    ghost files = { λ f. Some (map.from_entries {R = slice_cmp nat_cmp} f.log.items) };

    ghost counts = { λ f. f.counts };

    ghost requested = { λ f. f.requests.names };

    fn open_file(&mut self, name: &str) -> Result<MemFile, Failed>
        ensures given { IfOk result (λ file. IsFileOf (⟦<MemFolder as Folder>⟧.files self.old) name.now (⟦<MemFile as File>⟧.bytes file)) }
        ensures no_faults { IfOk result (λ file. ⟦<MemFile as File>⟧.faults file ≡ 0) }
        ensures no_reads { IfOk result (λ file. ⟦<MemFile as File>⟧.reads file ≡ 0) }
        ensures files { ⟦<MemFolder as Folder>⟧.files self.new ≡ ⟦<MemFolder as Folder>⟧.files self.old }
        ensures counts { Opens (⟦<MemFolder as Folder>⟧.files self.old) name.now (⟦<MemFolder as Folder>⟧.counts self.old) (⟦<MemFolder as Folder>⟧.counts self.new) result }
        ensures requested { ⟦<MemFolder as Folder>⟧.requested self.new ≡ ⟦<MemFolder as Folder>⟧.requested self.old ++ name.now ∷ [] }
        ensures just_there { FailsReading (⟦<MemFolder as Folder>⟧.counts self.old) (⟦<MemFolder as Folder>⟧.counts self.new) result }
        ensures fails { OpensAsSet (⟦<MemFolder as Folder>⟧.files self.old) name.now
            (is_failing (folder_set self.old).opening (raised (folder_calls self.old).opens 1)) (folder_wants self.old) (folder_wants self.new) result }
        ensures set_file { IfOk result (IsSetFile (folder_set self.old)) }
        ensures calls { CountsCalls 1 0 0 0 (folder_calls self.old) (folder_calls self.new) }
        ensures set { folder_set self.new ≡ folder_set self.old }
    {
        self.requests = self.requests.and(name);
        let number = next_number(self.calls.opens);
        self.calls.opens = number;
        let Some(bytes) = self.get(name) else {
            self.counts.misses = self.counts.misses.saturating_add(1);
            self.counts.reading = self.counts.reading.saturating_add(1);
            return Err(Failed);
        };
        if is_failing(self.set.opening, number) {
            self.counts.reading = self.counts.reading.saturating_add(1);
            return Err(Failed);
        }
        match ByteText::copy(self.alloc, bytes) {
            Ok(text) => {
                self.counts.opened = self.counts.opened.saturating_add(1);
                Ok(MemFile::opened(text, self.set.byte, self.set.limit))
            }
            Err(_) => {
                self.wants = self.wants.saturating_add(1);
                self.counts.reading = self.counts.reading.saturating_add(1);
                Err(Failed)
            }
        }
    }

    fn close_file(&mut self, file: MemFile)
        ensures files { ⟦<MemFolder as Folder>⟧.files self.new ≡ ⟦<MemFolder as Folder>⟧.files self.old }
        ensures counts { Closes (⟦<MemFile as File>⟧.faults file) (⟦<MemFile as File>⟧.reads file) (⟦<MemFolder as Folder>⟧.counts self.old) (⟦<MemFolder as Folder>⟧.counts self.new) }
        ensures requested { ⟦<MemFolder as Folder>⟧.requested self.new ≡ ⟦<MemFolder as Folder>⟧.requested self.old }
        ensures just_there { KeepsFaults (with_read_faults (⟦<MemFile as File>⟧.faults file) (⟦<MemFolder as Folder>⟧.counts self.old)) (⟦<MemFolder as Folder>⟧.counts self.new) }
        ensures wants { folder_wants self.new ≡ folder_wants self.old }
        ensures calls { folder_calls self.new ≡ folder_calls self.old }
        ensures set { folder_set self.new ≡ folder_set self.old }
    {
        if file.faults > 0 {
            self.counts.reading = self.counts.reading.saturating_add(1);
        }
        self.counts.closed = self.counts.closed.saturating_add(1);
        self.counts.bytes = self.counts.bytes.saturating_add(file.reads);
    }

    fn create_file(&mut self, name: &str) -> Result<MemSink, Failed>
        ensures named { IfOk result (λ file. ⟦<MemSink as Sink>⟧.name file ≡ name.now) }
        ensures empty { IfOk result (λ file. IsEmptySink (⟦<MemFolder as Folder>⟧.files self.old) (⟦<MemSink as Sink>⟧.written file)) }
        ensures no_faults { IfOk result (λ file. ⟦<MemSink as Sink>⟧.faults file ≡ 0) }
        ensures files { ⟦<MemFolder as Folder>⟧.files self.new ≡ ⟦<MemFolder as Folder>⟧.files self.old }
        ensures counts { Creates (⟦<MemFolder as Folder>⟧.counts self.old) (⟦<MemFolder as Folder>⟧.counts self.new) result }
        ensures requested { ⟦<MemFolder as Folder>⟧.requested self.new ≡ ⟦<MemFolder as Folder>⟧.requested self.old ++ name.now ∷ [] }
        ensures just_there { FailsWriting (⟦<MemFolder as Folder>⟧.counts self.old) (⟦<MemFolder as Folder>⟧.counts self.new) result }
        ensures fails { FailsAsSet (is_failing (folder_set self.old).creation (raised (folder_calls self.old).creates 1)) (folder_wants self.old) (folder_wants self.new) result }
        ensures no_wants { IfOk result (λ file. sink_wants file ≡ 0) }
        ensures set_sink { IfOk result (IsSetSink (folder_set self.old) (folder_calls self.old).writes) }
        ensures calls { CountsCalls 0 1 0 0 (folder_calls self.old) (folder_calls self.new) }
        ensures set { folder_set self.new ≡ folder_set self.old }
    {
        self.requests = self.requests.and(name);
        let number = next_number(self.calls.creates);
        self.calls.creates = number;
        if is_failing(self.set.creation, number) {
            self.counts.writing = self.counts.writing.saturating_add(1);
            return Err(Failed);
        }
        match ByteText::copy(self.alloc, name.as_bytes()) {
            Ok(label) => {
                self.counts.created = self.counts.created.saturating_add(1);
                let mut sink = MemSink::named(self.alloc, label);
                sink.due = due_after(self.set.write, self.calls.writes);
                sink.limit = self.set.limit;
                Ok(sink)
            }
            Err(_) => {
                self.wants = self.wants.saturating_add(1);
                self.counts.writing = self.counts.writing.saturating_add(1);
                Err(Failed)
            }
        }
    }

    fn finish_file(&mut self, file: MemSink) -> Result<(), Failed>
        ensures stored { OnOk result (Stores (⟦<MemFolder as Folder>⟧.files self.old) (⟦<MemFolder as Folder>⟧.files self.new) (⟦<MemSink as Sink>⟧.name file) (⟦<MemSink as Sink>⟧.written file)) }
        ensures others { OnErr result (KeepsOthers (⟦<MemFolder as Folder>⟧.files self.old) (⟦<MemFolder as Folder>⟧.files self.new) (⟦<MemSink as Sink>⟧.name file)) }
        ensures kept { OnErr result (⟦<MemFolder as Folder>⟧.files self.new ≡ ⟦<MemFolder as Folder>⟧.files self.old) }
        ensures counts { Finishes (⟦<MemSink as Sink>⟧.faults file) (⟦<MemFolder as Folder>⟧.counts self.old) (⟦<MemFolder as Folder>⟧.counts self.new) result }
        ensures requested { ⟦<MemFolder as Folder>⟧.requested self.new ≡ ⟦<MemFolder as Folder>⟧.requested self.old }
        ensures just_there { FailsWriting (with_faults (⟦<MemSink as Sink>⟧.faults file) (⟦<MemFolder as Folder>⟧.counts self.old)) (⟦<MemFolder as Folder>⟧.counts self.new) result }
        ensures fails { FailsAsSet (is_failing (folder_set self.old).finish (raised (folder_calls self.old).finishes 1)) (raised (folder_wants self.old) (sink_wants file)) (folder_wants self.new) result }
        ensures calls { CountsCalls 0 0 (sink_writes file) 1 (folder_calls self.old) (folder_calls self.new) }
        ensures set { folder_set self.new ≡ folder_set self.old }
    {
        let MemSink {
            label,
            kept,
            faults,
            wants,
            writes,
            ..
        } = file;
        let number = next_number(self.calls.finishes);
        let is_to_fail = is_failing(self.set.finish, number);
        self.calls.finishes = number;
        self.calls.writes = self.calls.writes.saturating_add(writes);
        self.wants = self.wants.saturating_add(wants);
        if faults > 0 {
            self.counts.writing = self.counts.writing.saturating_add(1);
        }
        if is_to_fail {
            self.counts.writing = self.counts.writing.saturating_add(1);
            self.counts.unfinished = self.counts.unfinished.saturating_add(1);
            return Err(Failed);
        }
        match self.log.push_front((label, ByteText::from_vec(kept))) {
            Ok(()) => Ok(()),
            Err(_) => {
                self.wants = self.wants.saturating_add(1);
                self.counts.writing = self.counts.writing.saturating_add(1);
                self.counts.unfinished = self.counts.unfinished.saturating_add(1);
                Err(Failed)
            }
        }
    }

    fn drop_file(&mut self, file: MemSink)
        ensures files { ⟦<MemFolder as Folder>⟧.files self.new ≡ ⟦<MemFolder as Folder>⟧.files self.old }
        ensures counts { Drops (⟦<MemSink as Sink>⟧.faults file) (⟦<MemFolder as Folder>⟧.counts self.old) (⟦<MemFolder as Folder>⟧.counts self.new) }
        ensures requested { ⟦<MemFolder as Folder>⟧.requested self.new ≡ ⟦<MemFolder as Folder>⟧.requested self.old }
        ensures just_there { KeepsFaults (with_faults (⟦<MemSink as Sink>⟧.faults file) (⟦<MemFolder as Folder>⟧.counts self.old)) (⟦<MemFolder as Folder>⟧.counts self.new) }
        ensures wanted { folder_wants self.new ≡ raised (folder_wants self.old) (sink_wants file) }
        ensures calls { CountsCalls 0 0 (sink_writes file) 0 (folder_calls self.old) (folder_calls self.new) }
        ensures set { folder_set self.new ≡ folder_set self.old }
    {
        self.calls.writes = self.calls.writes.saturating_add(file.writes);
        self.wants = self.wants.saturating_add(file.wants);
        if file.faults > 0 {
            self.counts.writing = self.counts.writing.saturating_add(1);
        }
    }
}
