//! What a token is, and where it stands.

ghost use Rattle.std.specs.Prelude.{◌≡◌, ◌≤◌, length};

/// The kind of a token.
#[derive(Clone, Copy, Debug, PartialEq, Eq)]
pub enum TokenKind {
    /// A letter or `_`, and the letters, digits and `_` after it.
    Name,
    /// Decimal, `0x` hexadecimal or `0` octal digits, with C's suffixes of `u` and `l`.
    Number,
    /// A character constant: one byte or one escape between two `'`.
    Letter,
    /// A string literal: any bytes and escapes between two `"`.
    Text,
    /// A punctuator: an operator, a bracket or another mark of C's expressions.
    Mark,
}

/// A token of a text.
#[derive(Clone, Copy, Debug, PartialEq, Eq)]
pub struct Token {
    pub kind: TokenKind,
    /// The place of its first byte in the text.
    pub start: u32,
    /// The place after its last byte.
    pub end: u32,
}

impl Token {
    ghost use Rattle.fmt_lexer.specs.Tokens.{bytes_of};

    /// The bytes that the token stands for in its text.
    pub fn bytes<'a>(&self, text: &'a [u8]) -> &'a [u8]
        requires forward { self.now.start ≤ self.now.end }
        requires within { self.now.end ≤ length text.now }
        ensures { result.now ≡ bytes_of text.now self.now }
    {
        &text[self.start as usize..self.end as usize]
    }
}
