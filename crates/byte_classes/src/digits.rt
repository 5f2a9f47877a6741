// The numbers that digits write.

ghost use Rattle.std.specs.Prelude.{◌≡◌, ◌+◌, ◌*◌, ◌^◌, ◌<◌, ◌≤◌};
ghost use Rattle.std.specs.Option.{SomeIff};
ghost use Rattle.byte_classes.specs.Digits.{number_written};

/// The number that the digits of a base write, where it is one of 64 bits. None where a byte is no digit; no digits write 0.
pub fn number_written(radix: u32, text: &[u8]) -> Option<u64>
    requires { (2 ≤ radix) × (radix ≤ 16) }
    ensures { result ≡ number_written radix text.now }
{
    let mut number: u64 = 0;
    for byte in text {
        let digit = char::from(*byte).to_digit(radix)?;
        number = with_digit(number, radix, digit)?;
    }
    Some(number)
}

// The number with one more digit after it, where it fits 64 bits.
fn with_digit(number: u64, radix: u32, digit: u32) -> Option<u64>
    ensures { SomeIff result (number * radix + digit < 2 ^ 64) (number * radix + digit) }
{
    number
        .checked_mul(u64::from(radix))?
        .checked_add(u64::from(digit))
}
