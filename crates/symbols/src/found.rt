/// A number and the name beside it, by where the name stands in the text that it was read from.
#[derive(Clone, Copy, Debug)]
pub(crate) struct Found<'a> {
    /// The address or the pid.
    pub key: u64,
    /// The text from the name on.
    pub from: &'a [u8],
    /// How long the name is, in bytes.
    pub len: usize,
}
