// How many bits of time an element has (the kernel's ring_buffer.h, `enum ring_buffer_type`).

/// In the first word of an event.
pub const DELTA_BITS: u32 = 27;

/// In a time extend.
pub const STEP_BITS: u32 = 59;
