/// How full an open sub-buffer is.
#[derive(Clone, Copy, Debug, PartialEq, Eq)]
pub struct Fill {
    /// The time of its last item, in nanoseconds.
    pub time: u64,
    /// How many bytes of its data area are taken, with those that a loss keeps for its number.
    pub used: usize,
}
