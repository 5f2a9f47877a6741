/// Whether an item was added to a sub-buffer.
#[derive(Clone, Copy, Debug, PartialEq, Eq)]
pub enum Added {
    /// The sub-buffer has the item.
    Added,
    /// The item opens a further sub-buffer; nothing has changed.
    Full,
}
