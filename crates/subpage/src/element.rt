/// An element of a sub-buffer's committed bytes (the kernel's `struct ring_buffer_event`). Deltas and times are in
/// nanoseconds.
#[derive(Clone, Copy, Debug)]
pub enum Element<'a> {
    /// A data record.
    Event { delta: u32, payload: &'a [u8] },
    /// The end of the elements: the committed bytes after it are padding.
    End,
    /// A discarded record, whose time counts.
    Discarded { delta: u32 },
    /// The running time moves on.
    Extend { delta: u64 },
    /// The low 59 bits of an absolute time.
    Stamp { time: u64 },
}
