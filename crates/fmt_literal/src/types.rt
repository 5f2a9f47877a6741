//! Types by their names.

ghost use Rattle.std.specs.Prelude.{◌≡◌, ◌⊎◌, ◌≤◌};
ghost use Rattle.fmt_literal.specs.Types.{is_qualifier, is_i8, is_u8, is_i16, is_u16, is_i32, is_u32, is_long, is_unsigned_long, is_i64, is_u64, narrow_cast, wide_cast, known_cast, cast_of, bytes_in, size_of, unsigned_long};

use crate::cast_to::CastTo;
use crate::ckind::CKind;

/// Whether a word is `const` or `volatile`, which change no type.
pub fn is_qualifier(word: &[u8]) -> bool
    ensures { result ≡ is_qualifier word.now }
{
    word == b"const".as_slice() || word == b"volatile".as_slice()
}

/// A name of a type of eight bits with a sign.
#[tactic(auto, unfolding(crate::specs::Types::is_i8))]
fn is_i8(words: &[u8]) -> bool
    ensures { result ≡ is_i8 words.now }
{
    words == b"char".as_slice()
        || words == b"signed char".as_slice()
        || words == b"s8".as_slice()
        || words == b"__s8".as_slice()
        || words == b"int8_t".as_slice()
}

/// A name of a type of eight bits without a sign.
#[tactic(auto, unfolding(crate::specs::Types::is_u8))]
fn is_u8(words: &[u8]) -> bool
    ensures { result ≡ is_u8 words.now }
{
    words == b"unsigned char".as_slice()
        || words == b"u8".as_slice()
        || words == b"__u8".as_slice()
        || words == b"uint8_t".as_slice()
}

/// A name of a type of 16 bits with a sign.
#[tactic(auto, unfolding(crate::specs::Types::is_i16))]
fn is_i16(words: &[u8]) -> bool
    ensures { result ≡ is_i16 words.now }
{
    words == b"short".as_slice()
        || words == b"short int".as_slice()
        || words == b"s16".as_slice()
        || words == b"__s16".as_slice()
        || words == b"int16_t".as_slice()
}

/// A name of a type of 16 bits without a sign.
#[tactic(auto, unfolding(crate::specs::Types::is_u16))]
fn is_u16(words: &[u8]) -> bool
    ensures { result ≡ is_u16 words.now }
{
    words == b"unsigned short".as_slice()
        || words == b"unsigned short int".as_slice()
        || words == b"u16".as_slice()
        || words == b"__u16".as_slice()
        || words == b"uint16_t".as_slice()
}

/// A name of a type of 32 bits with a sign.
#[tactic(auto, unfolding(crate::specs::Types::is_i32))]
fn is_i32(words: &[u8]) -> bool
    ensures { result ≡ is_i32 words.now }
{
    words == b"int".as_slice()
        || words == b"signed".as_slice()
        || words == b"signed int".as_slice()
        || words == b"s32".as_slice()
        || words == b"__s32".as_slice()
        || words == b"int32_t".as_slice()
        || words == b"pid_t".as_slice()
}

/// A name of a type of 32 bits without a sign.
#[tactic(auto, unfolding(crate::specs::Types::is_u32))]
fn is_u32(words: &[u8]) -> bool
    ensures { result ≡ is_u32 words.now }
{
    words == b"unsigned".as_slice()
        || words == b"unsigned int".as_slice()
        || words == b"u32".as_slice()
        || words == b"__u32".as_slice()
        || words == b"uint32_t".as_slice()
}

/// A name of a type of the kernel's long with a sign.
#[tactic(auto, unfolding(crate::specs::Types::is_long))]
fn is_long(words: &[u8]) -> bool
    ensures { result ≡ is_long words.now }
{
    words == b"long".as_slice() || words == b"long int".as_slice() || words == b"ssize_t".as_slice()
}

/// A name of a type of the kernel's long without a sign.
#[tactic(auto, unfolding(crate::specs::Types::is_unsigned_long))]
fn is_unsigned_long(words: &[u8]) -> bool
    ensures { result ≡ is_unsigned_long words.now }
{
    words == b"unsigned long".as_slice()
        || words == b"unsigned long int".as_slice()
        || words == b"size_t".as_slice()
}

/// A name of a type of 64 bits with a sign.
#[tactic(auto, unfolding(crate::specs::Types::is_i64))]
fn is_i64(words: &[u8]) -> bool
    ensures { result ≡ is_i64 words.now }
{
    words == b"long long".as_slice()
        || words == b"long long int".as_slice()
        || words == b"s64".as_slice()
        || words == b"__s64".as_slice()
        || words == b"int64_t".as_slice()
}

/// A name of a type of 64 bits without a sign.
#[tactic(auto, unfolding(crate::specs::Types::is_u64))]
fn is_u64(words: &[u8]) -> bool
    ensures { result ≡ is_u64 words.now }
{
    words == b"unsigned long long".as_slice()
        || words == b"unsigned long long int".as_slice()
        || words == b"u64".as_slice()
        || words == b"__u64".as_slice()
        || words == b"uint64_t".as_slice()
}

/// Numbers of so many bits.
fn bits(width: u32, signed: bool) -> CastTo
    ensures { result ≡ CastTo.Bits width signed }
{
    CastTo::Bits { width, signed }
}

/// The number types of 8, 16 and 32 bits.
#[tactic(auto, unfolding(crate::specs::Types::narrow_cast))]
fn narrow_cast(words: &[u8]) -> Option<CastTo>
    ensures { result ≡ narrow_cast words.now }
{
    if is_i8(words) {
        Some(bits(8, true))
    } else if is_u8(words) {
        Some(bits(8, false))
    } else if is_i16(words) {
        Some(bits(16, true))
    } else if is_u16(words) {
        Some(bits(16, false))
    } else if is_i32(words) {
        Some(bits(32, true))
    } else if is_u32(words) {
        Some(bits(32, false))
    } else {
        None
    }
}

/// The kernel's long, the number types of 64 bits, and `bool`.
#[tactic(auto, unfolding(crate::specs::Types::wide_cast))]
fn wide_cast(words: &[u8], long: u32) -> Option<CastTo>
    requires { long ≤ 8 }
    ensures { result ≡ wide_cast words.now long }
{
    if is_long(words) {
        Some(bits(8 * long, true))
    } else if is_unsigned_long(words) {
        Some(bits(8 * long, false))
    } else if is_i64(words) {
        Some(bits(64, true))
    } else if is_u64(words) {
        Some(bits(64, false))
    } else if words == b"bool".as_slice() {
        Some(CastTo::Truth)
    } else {
        None
    }
}

/// What a cast makes of a number, where the type is known: by its names, joined by one blank and without `const` and
/// `volatile`, the number of `*` after them, and the size of the kernel's long.
#[tactic(auto, unfolding(crate::specs::Types::known_cast))]
fn known_cast(words: &[u8], stars: usize, long: u32) -> Option<CastTo>
    requires { long ≤ 8 }
    ensures { result ≡ known_cast words.now stars long }
{
    if stars > 0 {
        return Some(bits(8 * long, false));
    }
    match narrow_cast(words) {
        Some(to) => Some(to),
        None => wide_cast(words, long),
    }
}

/// What a cast to a type makes of a number.
///
/// `words` are the type's names, joined by one blank and without `const` and `volatile`; `stars` is the number of `*`
/// after them; `long` is the size of the kernel's long in bytes.
pub fn cast_of(words: &[u8], stars: usize, long: u32) -> CastTo
    requires { (long ≡ 4) ⊎ (long ≡ 8) }
    ensures { result ≡ cast_of words.now stars long }
{
    known_cast(words, stars, long).unwrap_or(CastTo::Same)
}

/// How many bytes a type has, given as for [`cast_of`]. None exactly where the type is not known.
pub fn size_of(words: &[u8], stars: usize, long: u32) -> Option<u32>
    requires { (long ≡ 4) ⊎ (long ≡ 8) }
    ensures { result ≡ size_of words.now stars long }
{
    let size = match known_cast(words, stars, long)? {
        CastTo::Bits { width, .. } => width / 8,
        CastTo::Truth => 1,
        CastTo::Same => 0,
    };
    Some(size)
}

/// The kind of an unsigned long, by its size in bytes.
pub fn unsigned_long(long: u32) -> CKind
    ensures { result ≡ unsigned_long long }
{
    if long < 8 { CKind::U32 } else { CKind::U64 }
}
