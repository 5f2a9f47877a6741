/// What a folder counts. No count falls, and each saturates at the greatest number of 64 bits.
#[derive(Clone, Copy, Debug, PartialEq, Eq)]
pub struct Counts {
    /// Faults of reading.
    pub reading: u64,
    /// Faults of writing.
    pub writing: u64,
    /// Names that were asked for and are not there.
    pub misses: u64,
    /// Files opened.
    pub opened: u64,
    /// Files closed.
    pub closed: u64,
    /// Files created.
    pub created: u64,
    /// Files whose finish failed.
    pub unfinished: u64,
    /// Bytes read from the files that were closed.
    pub bytes: u64,
}

impl Counts {
    /// Nothing was counted.
    pub const NONE: Counts = Counts {
        reading: 0,
        writing: 0,
        misses: 0,
        opened: 0,
        closed: 0,
        created: 0,
        unfinished: 0,
        bytes: 0,
    };
}
