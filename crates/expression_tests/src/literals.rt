//! Numbers, letters, texts and types.

ghost use Rattle.std.specs.Prelude.{◌≡◌, ◌⊎◌};

use fmt_literal::{
    CKind, CastTo, Numeral, cast_of, is_qualifier, letter, number, push_text, size_of,
    unsigned_long,
};
use std::alloc::{AllocError, Global};
use std::test::Fail;

fn kind_name(kind: CKind) -> &'static str {
    match kind {
        CKind::I32 => "i",
        CKind::U32 => "u",
        CKind::I64 => "I",
        CKind::U64 => "U",
    }
}

fn bits_of(numeral: Option<Numeral>) -> (u64, &'static str) {
    match numeral {
        Some(numeral) => (numeral.bits, kind_name(numeral.kind)),
        None => (0, "none"),
    }
}

fn number_text(alloc: Global, spelling: &[u8]) -> Result<String, AllocError> {
    let (wide, kind) = bits_of(number(spelling, 8));
    let (narrow, other) = bits_of(number(spelling, 4));
    format!(in alloc; "{wide} {kind} | {narrow} {other}")
}

/// The bytes of a text, in hexadecimal.
fn text_of(alloc: Global, spelling: &[u8]) -> Result<String, AllocError> {
    let mut text = Vec::new(alloc);
    push_text(&mut text, spelling)?;
    hex::encode(alloc, &text)
}

/// What a cast to a type makes of a number, and how many bytes the type has.
fn type_text(alloc: Global, name: &[u8], stars: usize, long: u32) -> Result<String, AllocError>
    requires { (long ≡ 4) ⊎ (long ≡ 8) }
{
    let (sign, width) = match cast_of(name, stars, long) {
        CastTo::Bits { width, signed } => (if signed { "signed" } else { "unsigned" }, width),
        CastTo::Truth => ("truth", 0),
        CastTo::Same => ("same", 0),
    };
    let bytes = size_of(name, stars, long).unwrap_or(0);
    format!(in alloc; "{sign} {width}, {bytes}")
}

fn text(alloc: Global, kind: &str, spelling: &[u8]) -> Result<String, AllocError> {
    match kind {
        "number" => number_text(alloc, spelling),
        "letter" => format!(in alloc; "{:?}", letter(spelling)),
        "text" => text_of(alloc, spelling),
        "type" => type_text(alloc, spelling, 0, 8),
        "narrow-type" => type_text(alloc, spelling, 0, 4),
        "pointer" => type_text(alloc, spelling, 1, 8),
        "narrow-pointer" => type_text(alloc, spelling, 2, 4),
        "unsigned-long" => format!(in alloc;
            "{}",
            kind_name(unsigned_long(if spelling == b"4".as_slice() { 4 } else { 8 }))
        ),
        _ => format!(in alloc; "{}", is_qualifier(spelling)),
    }
}

pub(crate) fn told(alloc: Global, kind: &str, spelling: &str) -> Result<Vec<u8>, Fail> {
    let text = text(alloc, kind, spelling.as_bytes())?;
    Ok(text.as_bytes().to_vec(alloc)?)
}

// Numbers, with their bits and kinds where the long has 8 bytes and where it has 4: `i` is an int, `u` an unsigned one, `I` and
// `U` have 64 bits. Letters. Texts, and their bytes. Types, by what a cast makes of a number and how many bytes each has; the last
// ones are not known. Pointers of one star, and of two where the long has 4 bytes.
pub(crate) static ROWS: &str = r#"number 0 => 0 i | 0 i
number 010 => 8 i | 8 i
number 2147483647 => 2147483647 i | 2147483647 i
number 2147483648 => 2147483648 I | 2147483648 I
number 0x7fffffff => 2147483647 i | 2147483647 i
number 0x80000000 => 2147483648 u | 2147483648 u
number 0xffffffffL => 4294967295 I | 4294967295 u
number 4294967295l => 4294967295 I | 4294967295 I
number 037777777777 => 4294967295 u | 4294967295 u
number 0x100000000 => 4294967296 I | 4294967296 I
number 0x8000000000000000 => 9223372036854775808 U | 9223372036854775808 U
number 9223372036854775808 => 9223372036854775808 U | 9223372036854775808 U
number 7U => 7 u | 7 u
number 7l => 7 I | 7 i
number 7ul => 7 U | 7 u
number 7LLu => 7 U | 7 U
number  => 0 none | 0 none
number 08 => 0 none | 0 none
number 1a => 0 none | 0 none
number 18446744073709551616 => 0 none | 0 none
letter 'a' => Some(97)
letter '\n' => Some(10)
letter '\0' => Some(0)
letter '\x4a' => Some(74)
letter '\377' => Some(255)
letter '\400' => Some(0)
letter '\'' => Some(39)
letter '' => None
letter 'ab' => None
text "" => 
text "a\tb\r\n" => 6109620d0a
text "\"\\\'\a" => 225c2761
text "\x41\x4Az" => 414a7a
text "\x4g\xg" => 7834677867
text "\1\12\101\1018" => 010a414138
text "\18\1 1" => 0138012031
text "\777" => ff
type signed char ; s8 ; __s8 ; int8_t ; char => signed 8, 1
type unsigned char ; u8 ; __u8 ; uint8_t => unsigned 8, 1
type short ; short int ; s16 ; __s16 ; int16_t => signed 16, 2
type unsigned short ; unsigned short int ; u16 ; __u16 ; uint16_t => unsigned 16, 2
type int ; signed ; signed int ; s32 ; __s32 ; int32_t ; pid_t => signed 32, 4
type unsigned ; unsigned int ; u32 ; __u32 ; uint32_t => unsigned 32, 4
type long ; long int ; ssize_t => signed 64, 8
type unsigned long ; unsigned long int ; size_t => unsigned 64, 8
type long long ; long long int ; s64 ; __s64 ; int64_t => signed 64, 8
type unsigned long long ; unsigned long long int ; u64 ; __u64 ; uint64_t => unsigned 64, 8
type bool => truth 0, 1
type  ; struct page ; long unsigned ; char * ; u9 => same 0, 0
narrow-type unsigned long => unsigned 32, 4
pointer void => unsigned 64, 8
narrow-pointer void => unsigned 32, 4
unsigned-long 4 => u
unsigned-long 8 => U
qualifier volatile => true
qualifier restrict => false"#;
