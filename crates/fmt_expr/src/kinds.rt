//! The kinds of trees.

/// What a tree gives.
#[derive(Clone, Copy, Debug, PartialEq, Eq)]
pub enum Kind {
    /// A number of one of C's kinds.
    Number,
    /// Bytes up to the first NUL.
    Text,
    /// Bytes without a further meaning.
    Bytes,
}
