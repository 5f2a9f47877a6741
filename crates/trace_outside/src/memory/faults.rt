// Faults that are set on the objects in memory, and how little these do at a call.

ghost use Rattle.std.specs.Prelude.{◌≡◌, ◌<◌, ◌≤◌};
ghost use Rattle.trace_outside.specs.Causes.{raised};
ghost use Rattle.trace_outside.specs.Faults.{asks_for, at_limit, due_after, is_failing, is_from, with_fault};

/// A call of a folder in memory, or of what it gives, that is to fail.
#[derive(Clone, Copy, Debug, PartialEq, Eq)]
pub enum MemFault {
    /// Every read that asks for the byte at this place, of each file that is opened.
    ReadAt(u64),
    /// The opening of this number. Calls are counted from 1 on, over the whole folder.
    Open(u64),
    /// The creation of this number.
    Create(u64),
    /// The write of this number, over all sinks of the folder, which stand one after another.
    Write(u64),
    /// The finish of this number.
    Finish(u64),
}

/// What is set for the calls of a folder, and for the files and sinks that it gives.
#[derive(Clone, Copy, Debug)]
pub(super) struct Settings {
    /// The byte at which reads fail.
    pub(super) byte: Option<u64>,
    /// The numbers of the calls that fail.
    pub(super) opening: Option<u64>,
    pub(super) creation: Option<u64>,
    pub(super) write: Option<u64>,
    pub(super) finish: Option<u64>,
    /// How many bytes a read gives and a write takes at most.
    pub(super) limit: Option<u32>,
}

impl Settings {
    /// Nothing is set.
    pub(super) const NONE: Settings = Settings {
        byte: None,
        opening: None,
        creation: None,
        write: None,
        finish: None,
        limit: None,
    };

    /// No calls fail but those of this fault. The limit stays.
    pub(super) fn with_fault(&self, fault: MemFault) -> Settings
        ensures { result ≡ with_fault fault self.now }
    {
        let limit = self.limit;
        match fault {
            MemFault::ReadAt(byte) => Settings {
                byte: Some(byte),
                limit,
                ..Settings::NONE
            },
            MemFault::Open(call) => Settings {
                opening: Some(call),
                limit,
                ..Settings::NONE
            },
            MemFault::Create(call) => Settings {
                creation: Some(call),
                limit,
                ..Settings::NONE
            },
            MemFault::Write(call) => Settings {
                write: Some(call),
                limit,
                ..Settings::NONE
            },
            MemFault::Finish(call) => Settings {
                finish: Some(call),
                limit,
                ..Settings::NONE
            },
        }
    }
}

/// How many calls of each kind a folder and its sinks had.
#[derive(Clone, Copy, Debug)]
pub(super) struct Calls {
    pub(super) opens: u64,
    pub(super) creates: u64,
    pub(super) writes: u64,
    pub(super) finishes: u64,
}

impl Calls {
    /// There were none.
    pub(super) const NONE: Calls = Calls {
        opens: 0,
        creates: 0,
        writes: 0,
        finishes: 0,
    };
}

// The number of the next call after so many.
pub(super) fn next_number(calls: u64) -> u64
    ensures { result ≡ raised calls 1 }
{
    calls.saturating_add(1)
}

// Whether the call of this number is the one that fails.
pub(super) fn is_failing(call: Option<u64>, number: u64) -> bool
    ensures { result ≡ is_failing call number }
{
    match call {
        None => false,
        Some(call) => number == call,
    }
}

// Whether calls fail from this number on, or from an earlier one.
pub(super) fn is_from(call: Option<u64>, number: u64) -> bool
    ensures { result ≡ is_from call number }
{
    match call {
        None => false,
        Some(call) => call <= number,
    }
}

// The number that the failing call has after the first so many.
pub(super) fn due_after(call: Option<u64>, before: u64) -> Option<u64>
    ensures { result ≡ due_after call before }
{
    match call {
        None => None,
        Some(call) => {
            if before < call {
                Some(call - before)
            } else {
                None
            }
        }
    }
}

// Whether a read of so many bytes from a place on asks for the byte at which reads fail.
pub(super) fn asks_for(byte: Option<u64>, size: u64, at: u64, count: u64) -> bool
    ensures { result ≡ asks_for byte size at count }
{
    match byte {
        None => false,
        Some(byte) => at <= byte && byte - at < count && byte < size,
    }
}

// How many of so many bytes one call gives or takes.
pub(super) fn at_limit(limit: Option<u32>, count: usize) -> usize
    ensures value { result ≡ at_limit limit count }
    ensures within { result ≤ count }
    ensures some { 0 < count → 0 < result }
{
    match limit {
        None => count,
        Some(most) => count.min(most.max(1) as usize),
    }
}
