ghost use Rattle.std.specs.Prelude.{◌≡◌, true, None, Some, OnOk, IfOk};
ghost use Rattle.std.specs.BTreeMap.{get};
ghost use Rattle.call_pairs.specs.StackMap.{ArePlaces, IsEntered, IsLeft, KeepsTold, order, stack_of, thread_at};
ghost use Rattle.call_pairs.specs.declared.thread.Thread.{Thread};

use crate::graph_item::GraphEvent;
use crate::stacks::{Open, Stack};
use crate::thread::Thread;
use std::alloc::{AllocError, Global};
use std::collections::BTreeMap;

/// The stack of each thread that was seen. What a look-up costs does not depend on which threads a file chooses, and is least where
/// a thread goes on.
#[derive(Drop)]
pub struct Threads {
    /// One for each thread.
    pub stacks: Vec<Stack>,
    /// Where they stand.
    pub map: BTreeMap<Thread, usize>,
    /// Where that of the latest thread stands.
    latest: usize,
    alloc: Global,
}

/// What an exit left.
#[derive(Clone, Copy)]
pub struct Left {
    /// The entry that it ends.
    pub top: Option<Open>,
    /// Where its thread's latest entry or exit before it stands.
    pub last: Option<usize>,
}

impl Threads {
    /// None was seen.
    pub fn new(alloc: Global) -> Threads
        ensures places { ArePlaces result }
        ensures none { (q : Thread) → stack_of result q ≡ None }
    {
        Threads {
            stacks: Vec::new(alloc),
            map: BTreeMap::new(alloc),
            latest: 0,
            alloc,
        }
    }

    /// An entry begins; `since` is the place after the latest loss.
    #[inline(always)]
    pub fn enter(
        &mut self,
        since: usize,
        place: usize,
        entry: &GraphEvent,
    ) -> Result<(), AllocError>
        requires places { ArePlaces self.old }
        ensures places { OnOk result (ArePlaces self.new) }
        ensures entered { OnOk result (IsEntered since place entry.now self.old self.new) }
    {
        let i = self.place(Thread::of(entry))?;
        let stack = &mut self.stacks[i];
        stack.forget(since);
        stack.enter(place, entry)
    }

    /// An exit comes.
    #[inline(always)]
    pub fn leave(
        &mut self,
        since: usize,
        place: usize,
        exit: &GraphEvent,
    ) -> Result<Left, AllocError>
        requires places { ArePlaces self.old }
        ensures places { OnOk result (ArePlaces self.new) }
        ensures left { IfOk result (λ left. IsLeft since place exit.now left self.old self.new) }
    {
        let i = self.place(Thread::of(exit))?;
        let stack = &mut self.stacks[i];
        stack.forget(since);
        let last = stack.last;
        let top = stack.leave(place, exit);
        Ok(Left { top, last })
    }

    // Where a thread's stack stands. A thread that is new gets one.
    #[inline(always)]
    fn place(&mut self, thread: Thread) -> Result<usize, AllocError>
        requires places { ArePlaces self.old }
        ensures places { OnOk result (ArePlaces self.new) }
        ensures there { IfOk result (λ i. thread_at self.new.stacks.items i ≡ Some thread) }
        ensures told { OnOk result (KeepsTold self.old self.new) }
    {
        if self.is_at(self.latest, thread) {
            return Ok(self.latest);
        }
        let place = self.any_place(thread)?;
        self.latest = place;
        Ok(place)
    }

    // Whether the stack at a place is the thread's.
    #[inline(always)]
    fn is_at(&self, place: usize, thread: Thread) -> bool
        ensures { result ≡ true → thread_at self.now.stacks.items place ≡ Some thread }
    {
        match self.stacks.get(place) {
            Some(stack) => stack.thread == thread,
            None => false,
        }
    }

    #[inline(never)]
    fn any_place(&mut self, thread: Thread) -> Result<usize, AllocError>
        requires places { ArePlaces self.old }
        ensures places { OnOk result (ArePlaces self.new) }
        ensures there { IfOk result (λ i. thread_at self.new.stacks.items i ≡ Some thread) }
        ensures told { OnOk result (KeepsTold self.old self.new) }
    {
        match self.map.get(&thread) {
            Some(place) => Ok(*place),
            None => self.add(thread),
        }
    }

    fn add(&mut self, thread: Thread) -> Result<usize, AllocError>
        requires places { ArePlaces self.old }
        requires new { get order self.old.map thread ≡ None }
        ensures places { OnOk result (ArePlaces self.new) }
        ensures there { IfOk result (λ i. thread_at self.new.stacks.items i ≡ Some thread) }
        ensures told { OnOk result (KeepsTold self.old self.new) }
    {
        let place = self.stacks.len();
        self.stacks.push(Stack::new(self.alloc, thread))?;
        self.map.insert(thread, place)?;
        Ok(place)
    }
}
