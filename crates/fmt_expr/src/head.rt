//! What a token may begin.

use crate::expr::PrefixOp;

/// What a `__get_` call gives of its field.
#[derive(Clone, Copy, Debug, PartialEq, Eq)]
pub enum Got {
    /// Its bytes up to the first NUL.
    Text,
    /// Its bytes.
    Bytes,
    /// How many bytes it has.
    Length,
}

/// What a print fmt can call.
#[derive(Clone, Copy, Debug, PartialEq, Eq)]
pub enum Builtin {
    /// A call that gives something of a dynamic field.
    Get(Got),
    /// `sizeof`
    SizeOf,
    /// `__print_flags`
    Flags,
    /// `__print_symbolic`
    Symbolic,
    /// `__print_hex`
    Hex,
    /// `__print_array`
    Array,
}

/// What a token begins, where no operator stands before it.
#[derive(Clone, Copy, Debug, PartialEq, Eq)]
pub enum Head {
    /// An operator before its operand.
    Operator(PrefixOp),
    /// What stands in brackets, or a cast.
    Open,
    /// A field of the record.
    Record,
    /// A call of a built-in.
    Builtin(Builtin),
    /// A number, a letter or a text, or nothing.
    Other,
}
