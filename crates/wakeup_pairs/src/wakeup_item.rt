// What an item of a trace is for the latencies, and what is told of a switch to a task that waited.

use trace_base::Common;

/// A task was woken.
#[derive(Clone, Copy, Debug, PartialEq, Eq)]
pub struct Wake {
    /// The number of the task.
    pub task: i32,
    /// When it was woken, in nanoseconds.
    pub time: u64,
}

/// A processor went on to a task.
#[derive(Clone, Copy, Debug, PartialEq, Eq)]
pub struct Switch {
    /// The number of the task.
    pub task: i32,
    /// The processor.
    pub cpu: u32,
    /// When it did, in nanoseconds.
    pub time: u64,
    /// What the event says of itself. Its pid is that of the task before.
    pub common: Common,
}

/// What an item is for the latencies.
#[derive(Clone, Copy, Debug, PartialEq, Eq)]
pub enum WakeupItem {
    /// A task was woken.
    Wakes(Wake),
    /// A processor went on to a task.
    Switches(Switch),
    /// Events were lost.
    Lost,
    /// It does not matter.
    Other,
}

/// A switch to a task that waited.
#[derive(Clone, Copy, Debug, PartialEq, Eq)]
pub struct Pair {
    /// The processor of the switch.
    pub cpu: u32,
    /// When the task was first woken, in nanoseconds.
    pub woken: u64,
    /// When the switch was, in nanoseconds.
    pub time: u64,
    /// What the switch says of itself, with the task's number as its pid.
    pub common: Common,
}
