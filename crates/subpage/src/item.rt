/// What a sub-buffer tells. Times are in nanoseconds of the trace's clock.
#[derive(Clone, Copy, Debug, PartialEq, Eq)]
pub enum Item<'a> {
    /// An event, with the bytes of its payload: the event's own fields, after the words that lead to it.
    Event { time: u64, payload: &'a [u8] },
    /// Events were lost before this time, and how many, where the kernel stored their number.
    Loss { time: u64, count: Option<u64> },
}
