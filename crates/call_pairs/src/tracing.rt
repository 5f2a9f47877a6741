ghost use Rattle.std.specs.Prelude.{◌≡◌, ◌<◌, List, [], ◌∷◌, ◌++◌, length, reverse, OnOk, IfSome};
ghost use Rattle.call_pairs.specs.declared.graph_item.GraphItem.{GraphItem};
ghost use Rattle.call_pairs.specs.declared.graph_item.GraphItem.TheVariants as code;
ghost use Rattle.call_pairs.specs.Calls.{calls_of, ended, is_last};
ghost use Rattle.call_pairs.specs.Durations.{duration};
ghost use Rattle.call_pairs.specs.Marked.{with_leaf, leaf_open};
ghost use Rattle.call_pairs.specs.Tracings.{IsTracing, Sees, WasSeen};

use crate::call::{Call, entry_call, exit_call};
use crate::graph_item::{GraphEvent, GraphItem};
use crate::stacks::Open;
use crate::threads::{Left, Threads};
use std::alloc::{AllocError, Global};

/// The calls of what was seen so far, and what each thread has open.
///
/// It keeps 64 bytes for each that was seen, and 56 for an entry while it is open. A loss costs no more than any other: it
/// moves the place before which nothing is open, and a stack from before it is emptied when its thread comes again.
#[derive(Drop)]
pub struct Tracing {
    calls: Vec<Call>,
    /// The place after the latest loss: what stands before it is open no more.
    since: usize,
    threads: Threads,
}

/// The duration of a call: as its exit's own fields tell, or else the time from its entry to its exit.
fn duration(entry: &GraphEvent, exit: &GraphEvent, recorded: Option<u64>) -> u64
    ensures { result ≡ duration entry.now exit.now recorded }
{
    match recorded {
        Some(recorded) => recorded,
        None => exit.time.saturating_sub(entry.time),
    }
}

/// Whether an entry is the last that a thread did.
fn is_last(top: &Open, last: Option<usize>) -> bool
    ensures { result ≡ is_last top.now last }
{
    match last {
        Some(last) => top.place == last,
        None => false,
    }
}

// Puts the call of an exit, and what it tells of its leaf's entry.
#[inline(always)]
fn end_call(
    calls: &mut Vec<Call>,
    exit: &GraphEvent,
    recorded: Option<u64>,
    left: Left,
) -> Result<(), AllocError>
    requires inside { IfSome left.top (λ top. top.place < length calls.old.items) }
    ensures { OnOk result (calls.new.items ≡ with_leaf exit.now recorded (leaf_open left.last left.top) calls.old.items ++ ended exit.now recorded left.last left.top ∷ []) }
{
    let Some(open) = left.top else {
        calls.push(exit_call(exit, None, false))?;
        return Ok(());
    };
    let duration = duration(&open.entry, exit, recorded);
    let leaf = is_last(&open, left.last);
    if leaf {
        calls[open.place] = entry_call(&open.entry, Some(duration));
    }
    calls.push(exit_call(exit, Some(duration), leaf))?;
    Ok(())
}

impl Tracing {
    /// Nothing was seen.
    pub fn new(alloc: Global) -> Tracing
        ensures { IsTracing [] result }
    {
        Tracing {
            calls: Vec::new(alloc),
            since: 0,
            threads: Threads::new(alloc),
        }
    }

    /// One more is seen. After `AllocError` the tracing is not to be used again.
    #[inline(always)]
    pub fn see(&mut self, seen: &GraphItem) -> Result<(), AllocError>
        requires known { WasSeen self.old }
        ensures known { OnOk result (WasSeen self.new) }
        ensures seen { Sees seen.now self.old self.new result }
    {
        match seen {
            GraphItem::Entry(entry) => self.enter(entry),
            GraphItem::Exit(exit, recorded) => self.leave(exit, *recorded),
            GraphItem::Loss { cpu, count } => self.lose(*cpu, *count),
        }
    }

    #[inline(always)]
    fn enter(&mut self, entry: &GraphEvent) -> Result<(), AllocError>
        requires known { WasSeen self.old }
        ensures known { OnOk result (WasSeen self.new) }
        ensures seen { Sees (code.Entry entry.now) self.old self.new result }
    {
        self.threads.enter(self.since, self.calls.len(), entry)?;
        self.calls.push(entry_call(entry, None))?;
        Ok(())
    }

    #[inline(always)]
    fn leave(&mut self, exit: &GraphEvent, recorded: Option<u64>) -> Result<(), AllocError>
        requires known { WasSeen self.old }
        ensures known { OnOk result (WasSeen self.new) }
        ensures seen { Sees (code.Exit exit.now recorded) self.old self.new result }
    {
        let left = self.threads.leave(self.since, self.calls.len(), exit)?;
        end_call(&mut self.calls, exit, recorded, left)
    }

    fn lose(&mut self, cpu: u32, count: Option<u64>) -> Result<(), AllocError>
        requires known { WasSeen self.old }
        ensures known { OnOk result (WasSeen self.new) }
        ensures seen { Sees (code.Loss cpu count) self.old self.new result }
    {
        self.calls.push(Call::Loss { cpu, count })?;
        self.since = self.calls.len();
        Ok(())
    }

    /// The calls of all that was seen, in its order.
    pub fn into_calls(self) -> Vec<Call>
        ensures { (past : List GraphItem) → IsTracing past self → result.items ≡ calls_of (reverse past) }
    {
        let Tracing {
            calls,
            since: _,
            threads: _,
        } = self;
        calls
    }
}
