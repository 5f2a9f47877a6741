// The digits of numbers that fill a column of two.

ghost use Rattle.std.specs.Prelude.{◌≡◌, ◌<◌};
ghost use Rattle.std.specs.Fmt.{decimal};
ghost use Rattle.line_columns.specs.Columns.{zeros};

/// Both digits of each number below 100.
static PAIRS: [u8; 200] =
    *b"00010203040506070809101112131415161718192021222324252627282930313233343536373839404142434445464748495051525354555657585960616263646566676869707172737475767778798081828384858687888990919293949596979899";

/// Both digits of a number below 100.
#[inline(always)]
pub fn two_digits(n: u32) -> [u8; 2]
    requires { n < 100 }
    ensures { result ≡ zeros 2 (decimal n) }
{
    let from = n as usize * 2;
    [PAIRS[from], PAIRS[from + 1]]
}
