//! The tokens of a filter.

ghost use Rattle.std.specs.Prelude.{◌≡◌};
ghost use Rattle.filter_lang.specs.Ops.{prefix_in};
ghost use Rattle.filter_lang.specs.TokenView.{plain_token};

use crate::expr::FilterPrefix;
use c_operators::BinaryOp;

/// What stands between the parts of a filter.
#[derive(Clone, Copy, Debug, PartialEq, Eq)]
pub enum Separator {
    Comma,
    Slash,
    Colon,
}

/// What a token says.
#[derive(Clone, Copy, Debug, PartialEq, Eq)]
pub enum Word<'a> {
    Name(&'a [u8]),
    Separator(Separator),
    Number(u64),
    Text(&'a [u8]),
    Field(&'a [u8]),
    /// An operator between two operands; `-` may stand before one too.
    Op(BinaryOp),
    Not,
    Invert,
    Open,
    Close,
}

impl Word<'_> {
    /// The operator that it is where an operand is to begin.
    pub fn prefix(self) -> Option<FilterPrefix>
        ensures { result ≡ prefix_in (plain_token self.entry) }
    {
        match self {
            Word::Not => Some(FilterPrefix::Not),
            Word::Op(BinaryOp::Minus) => Some(FilterPrefix::Minus),
            Word::Invert => Some(FilterPrefix::Invert),
            _ => None,
        }
    }
}

/// A token, and the place of its first byte.
#[derive(Clone, Copy, Debug, PartialEq, Eq)]
pub struct Token<'a> {
    pub word: Word<'a>,
    pub start: usize,
}
