ghost use Rattle.std.specs.Prelude.{◌≡◌};
ghost use Rattle.call_pairs.specs.Threads.{thread_of};

use crate::graph_item::GraphEvent;

/// Whose calls they are.
#[derive(Clone, Copy, Debug, PartialEq, Eq, PartialOrd, Ord, Drop)]
pub enum Thread {
    /// The task with this pid.
    Task(i32),
    /// The idle task of this processor: each processor has its own, and all have the pid 0.
    Idle(u32),
}

impl Thread {
    /// The thread of an event.
    pub fn of(event: &GraphEvent) -> Thread
        ensures { result ≡ thread_of event.now }
    {
        if event.common.pid == 0 {
            Thread::Idle(event.cpu)
        } else {
            Thread::Task(event.common.pid)
        }
    }
}
