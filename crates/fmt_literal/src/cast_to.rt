//! What a cast makes of a number.

/// What a cast to a type makes of a number. A text or bytes it leaves as they are, whatever it is.
#[derive(Clone, Copy, Debug, PartialEq, Eq)]
pub enum CastTo {
    /// The number modulo 2^`width`, with a sign or without, and then promoted. `width` is 8, 16, 32 or 64.
    Bits { width: u32, signed: bool },
    /// 1 for a number other than 0, and 0 for 0.
    Truth,
    /// The number as it is: the type's name is none of those that are known.
    Same,
}
