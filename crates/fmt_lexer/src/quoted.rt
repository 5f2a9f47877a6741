//! Letters and texts, and the escapes in them.

ghost use Rattle.std.specs.Prelude.{◌≡◌, ◌≤◌, take, length, IfSome};
ghost use Rattle.std.specs.List.{prefix_len};
ghost use Rattle.fmt_lexer.specs.Bytes.{is_octal};
ghost use Rattle.fmt_lexer.specs.Reading.{is_hexadecimal, escape_len, item_len, letter_len, text_len};

/// Whether these bytes are the rest of an escape by two hexadecimal digits.
#[tactic(auto, unfolding(crate::specs::Reading::is_hexadecimal))]
fn is_hexadecimal(after: &[u8]) -> bool
    ensures { result ≡ is_hexadecimal after.now }
{
    matches!(after, [b'x', high, low, ..] if high.is_ascii_hexdigit() && low.is_ascii_hexdigit())
}

/// How many octal digits stand at the front, up to three.
fn octal_len(after: &[u8]) -> usize
    ensures { result ≡ prefix_len is_octal (take 3 after.now) }
{
    after
        .iter()
        .take(3)
        .take_while(|byte| matches!(byte, b'0'..=b'7'))
        .count()
}

/// The length of the escape whose backslash stands before these bytes, without the backslash.
#[tactic(auto, unfolding(crate::specs::Reading::escape_len))]
fn escape_len(after: &[u8]) -> Option<usize>
    ensures value { result ≡ escape_len after.now }
    ensures short { IfSome result (λ n. n ≤ 3) }
{
    if after.is_empty() {
        None
    } else if is_hexadecimal(after) {
        Some(3)
    } else {
        Some(octal_len(after).max(1))
    }
}

/// The length of a byte by itself or of an escape, inside a letter.
#[tactic(auto, unfolding(crate::specs::Reading::item_len))]
fn item_len(after: &[u8]) -> Option<usize>
    ensures { result ≡ item_len after.now }
{
    match after.first()? {
        b'\'' => None,
        b'\\' => Some(1 + escape_len(&after[1..])?),
        _ => Some(1),
    }
}

/// The length of the letter whose first `'` stands before these bytes, without that quote.
#[tactic(auto, unfolding(crate::specs::Reading::letter_len, crate::specs::Reading::closed))]
pub fn letter_len(after: &[u8]) -> Option<usize>
    ensures value { result ≡ letter_len after.now }
    ensures within { IfSome result (λ n. n ≤ length after.now) }
{
    let item = item_len(after)?;
    if item < after.len() && after[item] == b'\'' {
        Some(item + 1)
    } else {
        None
    }
}

/// The length of the text whose first `"` stands before these bytes, without that quote.
pub fn text_len(after: &[u8]) -> Option<usize>
    ensures value { result ≡ text_len after.now }
    ensures within { IfSome result (λ n. n ≤ length after.now) }
{
    let mut escaped = false;
    for (i, byte) in after.iter().enumerate() {
        if escaped {
            escaped = false;
        } else if *byte == b'"' {
            return Some(i + 1);
        } else {
            escaped = *byte == b'\\';
        }
    }
    None
}
