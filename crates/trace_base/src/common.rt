/// The numbers that every event begins with (the kernel's Documentation/trace/events.rst, 'Event formats').
#[derive(Clone, Copy, Debug, PartialEq, Eq)]
pub struct Common {
    /// The number of the event's format.
    pub id: u32,
    /// What was going on when the event was written.
    pub flags: u32,
    /// How deep preemption was off.
    pub preempt: u32,
    /// The task.
    pub pid: i32,
}
