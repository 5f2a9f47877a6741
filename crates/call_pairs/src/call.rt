ghost use Rattle.std.specs.Prelude.{◌≡◌};
ghost use Rattle.call_pairs.specs.Calls.{entry_call, exit_call};

use crate::graph_item::GraphEvent;
use trace_base::Common;

/// What is told of an entry, an exit or a loss. It has 64 bytes: `leaf` stands beside `depth`, since fields keep their order.
#[derive(Clone, Copy, Debug, PartialEq, Eq)]
pub enum Call {
    /// An entry.
    Entry {
        cpu: u32,
        time: u64,
        common: Common,
        depth: u32,
        func: u64,
        /// The call's duration in nanoseconds, where it is a leaf: its thread did nothing up to its exit.
        duration: Option<u64>,
    },
    /// An exit.
    Exit {
        cpu: u32,
        time: u64,
        common: Common,
        depth: u32,
        /// Whether its call is a leaf.
        leaf: bool,
        func: u64,
        /// The call's duration in nanoseconds, where the exit belongs to an entry.
        duration: Option<u64>,
    },
    /// Events of this processor were lost, so many where that is known.
    Loss {
        cpu: u32,
        count: Option<u64>,
    },
}

/// What is told of an entry.
#[inline(always)]
pub(crate) fn entry_call(entry: &GraphEvent, duration: Option<u64>) -> Call
    ensures { result ≡ entry_call entry.now duration }
{
    Call::Entry {
        cpu: entry.cpu,
        time: entry.time,
        common: entry.common,
        depth: entry.depth,
        func: entry.func,
        duration,
    }
}

/// What is told of an exit.
#[inline(always)]
pub(crate) fn exit_call(exit: &GraphEvent, duration: Option<u64>, leaf: bool) -> Call
    ensures { result ≡ exit_call exit.now duration leaf }
{
    Call::Exit {
        cpu: exit.cpu,
        time: exit.time,
        common: exit.common,
        depth: exit.depth,
        func: exit.func,
        duration,
        leaf,
    }
}
