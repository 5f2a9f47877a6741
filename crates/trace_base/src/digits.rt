// The digits of a number in base 8 or 16, and those of a byte.

ghost use Rattle.std.specs.Prelude.{◌≡◌, ◌⊎◌, ◌≤◌, ◌<◌, ◌/◌, ◌%◌, drop, length, if◌then◌else◌};
ghost use Rattle.std.specs.Fmt.{digits, digit_glyph};
ghost use Rattle.trace_base.specs.Digits.{two_digits};

fn glyph(upper: bool, digit: u8) -> u8
    requires { digit < 16 }
    ensures { result ≡ digit_glyph upper digit }
{
    if digit < 10 {
        b'0' + digit
    } else if upper {
        55 + digit
    } else {
        87 + digit
    }
}

/// The two lower hexadecimal digits of a byte.
pub fn two_digits(byte: u8) -> [u8; 2]
    ensures { result ≡ two_digits byte }
{
    [glyph(false, byte / 16), glyph(false, byte % 16)]
}

/// A number without its last digit, and that digit.
fn last_digit(octal: bool, n: u64) -> (u64, u8)
    ensures rest { result.0 ≡ n / (if octal then 8 else 16) }
    ensures digit { result.1 ≡ n % (if octal then 8 else 16) }
    ensures small { result.1 < 16 }
{
    if octal {
        (n / 8, (n % 8) as u8)
    } else {
        (n / 16, (n % 16) as u8)
    }
}

/// Writes the digits at the end of the buffer, and gives the place where they begin.
#[tactic(auto, using(crate::proofs::DigitLemmas::digits_start, crate::proofs::DigitLemmas::digits_end, crate::proofs::DigitLemmas::digits_last, crate::proofs::DigitLemmas::digits_more))]
pub fn write_digits(n: u64, octal: bool, upper: bool, buffer: &mut [u8; 64]) -> usize
    ensures within { result ≤ 64 }
    ensures written { drop result buffer.new ≡ digits (if octal then 8 else 16) upper n }
{
    let mut at = 64;
    let mut left = n;
    while at > 0 {
        let (rest, digit) = last_digit(octal, left);
        at -= 1;
        buffer[at] = glyph(upper, digit);
        if rest == 0 {
            return at;
        }
        left = rest;
    }
    at
}
