ghost use Rattle.trace_base.specs.Words.{AreWords};

/// The data of one processor: a range of a file, in bytes (trace-cmd.dat.v6(5), the table after `flyrecord`).
#[derive(Clone, Copy, Debug, PartialEq, Eq)]
pub struct Part {
    /// Where the data begin.
    pub offset: u64,
    /// How long they are.
    pub size: u64,
    /// Both are numbers of 64 bits.
    pub ghost words: { AreWords offset size },
}
