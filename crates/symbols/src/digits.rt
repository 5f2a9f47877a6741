// Addresses in hexadecimal, read in one pass.

ghost use Rattle.std.specs.Prelude.{◌≡◌, ◌<◌, ◌≤◌, ◌%◌, ◌^◌, true, length, take, drop, slice_index, IfSome, IfNone, Some};
ghost use Rattle.std.specs.Char.{digit_value};
ghost use Rattle.std.specs.List.{list_all, prefix_len};
ghost use Rattle.std.specs.Option.{option_map};
ghost use Rattle.std.specs.Str.Parse.{digits_value};
ghost use Rattle.symbols.specs.LineForms.{is_hexadecimal, IsHalf};
ghost use Rattle.symbols.specs.Forms.{address_at};

// What stands in `DIGITS` for a byte that is no digit: more than eight digits write.
const NONE: u64 = 1 << 32;

// What each byte stands for as a hexadecimal digit.
static DIGITS: [u64; 256] = [
    NONE, NONE, NONE, NONE, NONE, NONE, NONE, NONE, NONE, NONE, NONE, NONE, NONE, NONE, NONE, NONE,
    NONE, NONE, NONE, NONE, NONE, NONE, NONE, NONE, NONE, NONE, NONE, NONE, NONE, NONE, NONE, NONE,
    NONE, NONE, NONE, NONE, NONE, NONE, NONE, NONE, NONE, NONE, NONE, NONE, NONE, NONE, NONE, NONE,
    0, 1, 2, 3, 4, 5, 6, 7, 8, 9, NONE, NONE, NONE, NONE, NONE, NONE, NONE, 10, 11, 12, 13, 14, 15,
    NONE, NONE, NONE, NONE, NONE, NONE, NONE, NONE, NONE, NONE, NONE, NONE, NONE, NONE, NONE, NONE,
    NONE, NONE, NONE, NONE, NONE, NONE, NONE, NONE, NONE, NONE, 10, 11, 12, 13, 14, 15, NONE, NONE,
    NONE, NONE, NONE, NONE, NONE, NONE, NONE, NONE, NONE, NONE, NONE, NONE, NONE, NONE, NONE, NONE,
    NONE, NONE, NONE, NONE, NONE, NONE, NONE, NONE, NONE, NONE, NONE, NONE, NONE, NONE, NONE, NONE,
    NONE, NONE, NONE, NONE, NONE, NONE, NONE, NONE, NONE, NONE, NONE, NONE, NONE, NONE, NONE, NONE,
    NONE, NONE, NONE, NONE, NONE, NONE, NONE, NONE, NONE, NONE, NONE, NONE, NONE, NONE, NONE, NONE,
    NONE, NONE, NONE, NONE, NONE, NONE, NONE, NONE, NONE, NONE, NONE, NONE, NONE, NONE, NONE, NONE,
    NONE, NONE, NONE, NONE, NONE, NONE, NONE, NONE, NONE, NONE, NONE, NONE, NONE, NONE, NONE, NONE,
    NONE, NONE, NONE, NONE, NONE, NONE, NONE, NONE, NONE, NONE, NONE, NONE, NONE, NONE, NONE, NONE,
    NONE, NONE, NONE, NONE, NONE, NONE, NONE, NONE, NONE, NONE, NONE, NONE, NONE, NONE, NONE, NONE,
    NONE, NONE, NONE, NONE, NONE, NONE, NONE, NONE, NONE, NONE, NONE, NONE, NONE, NONE, NONE, NONE,
    NONE, NONE, NONE, NONE, NONE, NONE, NONE,
];

/// What a byte stands for as a hexadecimal digit, or `NONE`.
#[inline(always)]
fn digit_or_none(byte: u8) -> u64
    ensures most { result ≤ 2 ^ 32 }
    ensures digit { result < 2 ^ 32 → (result ≡ digit_value byte) × (result < 16) }
    ensures none { 2 ^ 32 ≤ result → 16 ≤ digit_value byte }
{
    DIGITS[byte as usize]
}

/// What a hexadecimal digit stands for.
#[inline(always)]
fn digit(byte: u8) -> Option<u64>
    ensures digit { IfSome result (λ digit. (digit ≡ digit_value byte) × (digit < 16)) }
    ensures none { IfNone result (16 ≤ digit_value byte) }
{
    let digit = digit_or_none(byte);
    if digit < NONE { Some(digit) } else { None }
}

/// The low 64 bits of the number that the first hexadecimal digits write, and how many digits there are.
fn first_digits(text: &[u8]) -> (u64, usize)
    ensures count { result.1 ≡ prefix_len is_hexadecimal text.now }
    ensures within { result.1 ≤ length text.now }
    ensures number { result.0 ≡ digits_value 16 (take result.1 text.now) % 2 ^ 64 }
{
    let mut number: u64 = 0;
    for (i, byte) in text.iter().enumerate() {
        let Some(digit) = digit(*byte) else {
            return (number, i);
        };
        number = number.wrapping_mul(16).wrapping_add(digit);
    }
    (number, text.len())
}

/// The number that eight hexadecimal digits write. None where one of the bytes is no digit.
#[inline(always)]
fn eight_digits(text: &[u8]) -> Option<u64>
    requires { length text.now ≡ 8 }
    ensures { IfSome result (IsHalf text.now) }
{
    let mut number: u64 = 0;
    for i in 0..8 {
        number = number * 16 + digit_or_none(text[i]);
    }
    if number < NONE { Some(number) } else { None }
}

/// The number of eight digits where they are all `f`, as the first of most addresses of a kernel of 64 bits.
#[inline(always)]
fn eight_highest(text: &[u8]) -> Option<u64>
    requires { length text.now ≡ 8 }
    ensures { IfSome result (IsHalf text.now) }
{
    if text.starts_with(b"ffffffff") {
        Some(0xffff_ffff)
    } else {
        None
    }
}

/// A text of at least 16 bytes with a space after them: the first eight bytes, the eight after these, and what follows.
#[derive(Clone, Copy, Debug)]
struct Halves<'a> {
    high: &'a [u8],
    low: &'a [u8],
    rest: &'a [u8],
}

/// The 16 bytes that a text begins with, where a space follows them, and what stands after them.
#[inline(always)]
fn sixteen(text: &[u8]) -> Option<Halves<'_>>
    ensures inside { IfSome result (λ r. 16 < length text.now) }
    ensures space { IfSome result (λ r. slice_index text.now 16 ≡ 32) }
    ensures eight { IfSome result (λ r. (length r.high.now ≡ 8) × (length r.low.now ≡ 8)) }
    ensures high { IfSome result (λ r. r.high.now ≡ take 8 text.now) }
    ensures low { IfSome result (λ r. r.low.now ≡ take 8 (drop 8 text.now)) }
    ensures rest { IfSome result (λ r. r.rest.now ≡ drop 16 text.now) }
{
    if text.len() <= 16 || text[16] != b' ' {
        return None;
    }
    Some(Halves {
        high: &text[..8],
        low: &text[8..16],
        rest: &text[16..],
    })
}

/// The address that a text begins with, where it is one of the last 4 GiB, has 16 digits and a space after them: the most
/// frequent form of a kernel of 64 bits.
#[inline(always)]
fn high_address(text: &[u8]) -> Option<(u64, &[u8])>
    ensures { IfSome result (λ r. Some (r.0, r.1.now) ≡ address_at text.now) }
{
    let Halves { high, low, rest } = sixteen(text)?;
    let high = eight_highest(high)?;
    let low = eight_digits(low)?;
    Some(((high << 32) + low, rest))
}

/// The address that a text begins with, where it has 16 digits and a space after them, as a kernel of 64 bits writes it.
#[inline]
fn full_address(text: &[u8]) -> Option<(u64, &[u8])>
    ensures { IfSome result (λ r. Some (r.0, r.1.now) ≡ address_at text.now) }
{
    let Halves { high, low, rest } = sixteen(text)?;
    let high = eight_digits(high)?;
    let low = eight_digits(low)?;
    Some(((high << 32) + low, rest))
}

/// The address that a text begins with, and what follows it.
#[inline(always)]
pub(crate) fn address_at(text: &[u8]) -> Option<(u64, &[u8])>
    ensures { option_map (λ r. (r.0, r.1.now)) result ≡ address_at text.now }
{
    match high_address(text) {
        Some((address, rest)) => Some((address, rest)),
        None => found_address(text),
    }
}

// The same, for addresses that need not be high. It stands by itself, so that room for the answer of the call is cleared where
// the call is made, and not for each line.
#[inline(always)]
fn found_address(text: &[u8]) -> Option<(u64, &[u8])>
    ensures { option_map (λ r. (r.0, r.1.now)) result ≡ address_at text.now }
{
    let (address, rest) = other_address(text)?;
    Some((address, rest))
}

// The same, for addresses that need not be high.
#[inline(never)]
pub(crate) fn other_address(text: &[u8]) -> Option<(u64, &[u8])>
    ensures { option_map (λ r. (r.0, r.1.now)) result ≡ address_at text.now }
{
    match full_address(text) {
        Some((address, rest)) => Some((address, rest)),
        None => any_address(text),
    }
}

// The same, for addresses of each length.
#[tactic(auto, unfolding(crate::specs::Forms::address_at), using(crate::proofs::Addresses::address_read))]
fn any_address(text: &[u8]) -> Option<(u64, &[u8])>
    ensures { option_map (λ r. (r.0, r.1.now)) result ≡ address_at text.now }
{
    let (address, count) = first_digits(text);
    let (_, rest) = text.split_at(count);
    if 0 < count && count <= 16 {
        Some((address, rest))
    } else {
        None
    }
}
