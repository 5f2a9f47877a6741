/// The loss that a sub-buffer tells.
#[derive(Clone, Copy, Debug)]
pub enum Lost {
    /// None.
    Nothing,
    /// Events, of which the number is not known.
    Uncounted,
    /// So many events.
    Counted(u64),
}

/// An open sub-buffer: the numbers that lead to its bytes.
#[derive(Clone, Copy, Debug)]
pub struct OpenPage {
    /// The time of its first item, which is its timestamp.
    pub start: u64,
    /// The time of its last item.
    pub time: u64,
    /// How many bytes the records have.
    pub used: usize,
    /// The loss before them.
    pub lost: Lost,
}
