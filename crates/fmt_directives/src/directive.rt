//! What stands in a format text.

/// How the digits of a number are written.
#[derive(Clone, Copy, Debug, PartialEq, Eq)]
pub enum Base {
    /// `d` and `i`: decimal, with a sign.
    Signed,
    /// `u`: decimal, without a sign.
    Unsigned,
    /// `x`: hexadecimal with lower letters.
    Hex,
    /// `X`: hexadecimal with upper letters.
    UpperHex,
    /// `o`: octal.
    Octal,
}

/// What a conversion `p` shows.
#[derive(Clone, Copy, Debug, PartialEq, Eq)]
pub enum PointerForm {
    /// `p`: the address.
    Plain,
    /// `ps` and `pf`: the name of its symbol.
    Name,
    /// `pS` and `pF`: the name of its symbol, and how far past it the address is.
    NameOffset,
    /// `pI4`: an IPv4 address.
    Ip4,
    /// `pM`: a hardware address of six bytes.
    Mac,
}

/// A width or a precision.
#[derive(Clone, Copy, Debug, PartialEq, Eq)]
pub enum Amount {
    /// None is given.
    Absent,
    /// The number that is written, at most 65,535.
    Fixed(u32),
    /// `*`: that of the next argument.
    FromArgument,
}

/// How long a number is that a conversion shows.
#[derive(Clone, Copy, Debug, PartialEq, Eq)]
pub enum Length {
    /// None is given: an int.
    Usual,
    /// `hh`
    CharSize,
    /// `h`
    ShortSize,
    /// `l`
    LongSize,
    /// `ll`
    LongLongSize,
    /// `z`
    SizeSize,
    /// `t`
    DiffSize,
    /// `j`
    MaxSize,
    /// `L`
    BigSize,
}

/// What stands between the `%` and the letter of a conversion.
#[derive(Clone, Copy, Debug, PartialEq, Eq)]
pub struct Spec {
    /// The flag `-`.
    pub left: bool,
    /// The flag `0`.
    pub zero: bool,
    /// The flag `+`.
    pub plus: bool,
    /// The flag space.
    pub space: bool,
    /// The flag `#`.
    pub alternate: bool,
    /// The width.
    pub width: Amount,
    /// The precision; a `.` alone is 0.
    pub precision: Amount,
    /// The length.
    pub length: Length,
}

/// A piece of a format text.
#[derive(Clone, Copy, Debug, PartialEq, Eq)]
pub enum Directive {
    /// The bytes of the format text from one place up to another, as they stand there.
    Literal { start: u32, end: u32 },
    /// `d i u x X o`: a number.
    Number { spec: Spec, base: Base },
    /// `c`: one byte.
    Letter { spec: Spec },
    /// `s`: a text.
    Text { spec: Spec },
    /// `p`: an address.
    Pointer { spec: Spec, form: PointerForm },
}
