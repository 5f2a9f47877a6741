ghost use Rattle.std.specs.Prelude.{◌≡◌, ◌-ℤ◌};
ghost use Rattle.call_pairs.specs.Durations.{clip};

use trace_base::Common;

/// An entry into a function, or an exit from one (`funcgraph_entry` and `funcgraph_exit` in the kernel's trace_entries.h).
#[derive(Clone, Copy, Debug, PartialEq, Eq)]
pub struct GraphEvent {
    /// Its processor.
    pub cpu: u32,
    /// When it was, in nanoseconds.
    pub time: u64,
    /// Its common fields.
    pub common: Common,
    /// How many calls of its thread were open around it, as the tracer counts them.
    pub depth: u32,
    /// The function's address.
    pub func: u64,
}

/// What an item of a trace is for the calls.
#[derive(Clone, Copy, Debug, PartialEq, Eq)]
pub enum GraphItem {
    /// An entry.
    Entry(GraphEvent),
    /// An exit, with its call's duration in nanoseconds where its own fields tell it.
    Exit(GraphEvent, Option<u64>),
    /// Events of this processor were lost, so many where that is known.
    Loss { cpu: u32, count: Option<u64> },
}

/// The nanoseconds from one time to another: 0 where the second is the lower one, and 2^64 - 1 where they are more than that.
#[inline(always)]
pub fn clipped(from: i128, to: i128) -> u64
    ensures { result ≡ clip (to -ℤ from) }
{
    let more = to.saturating_sub(from);
    if more < 0 {
        0
    } else if more > u64::MAX as i128 {
        u64::MAX
    } else {
        more as u64
    }
}
