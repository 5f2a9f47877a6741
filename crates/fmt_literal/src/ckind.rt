//! C's kinds of numbers.

/// The kind of a number after C's promotion (C11 6.3.1.1): its width in bits, and whether it has a sign.
#[derive(Clone, Copy, Debug, PartialEq, Eq)]
pub enum CKind {
    /// 32 bits with a sign.
    I32,
    /// 32 bits without a sign.
    U32,
    /// 64 bits with a sign.
    I64,
    /// 64 bits without a sign.
    U64,
}
