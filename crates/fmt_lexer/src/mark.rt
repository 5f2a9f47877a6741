//! Punctuators: operators, brackets and the other marks of C's expressions.

ghost use Rattle.std.specs.Prelude.{◌≡◌};
ghost use Rattle.fmt_lexer.specs.Reading.{is_long_mark, is_short_mark, mark_len};

/// Whether two bytes are a mark.
#[tactic(auto, unfolding(crate::specs::Reading::is_long_mark))]
fn is_long_mark(first: u8, second: u8) -> bool
    ensures { result ≡ is_long_mark first second }
{
    matches!(
        (first, second),
        (b'-', b'>')
            | (b'<', b'<' | b'=')
            | (b'>', b'>' | b'=')
            | (b'=' | b'!', b'=')
            | (b'&', b'&')
            | (b'|', b'|')
    )
}

/// Whether a byte is a mark by itself.
#[tactic(auto, unfolding(crate::specs::Reading::is_short_mark))]
fn is_short_mark(byte: u8) -> bool
    ensures { result ≡ is_short_mark byte }
{
    matches!(
        byte,
        b'(' | b')'
            | b'['
            | b']'
            | b'{'
            | b'}'
            | b','
            | b'?'
            | b':'
            | b'+'
            | b'-'
            | b'*'
            | b'/'
            | b'%'
            | b'<'
            | b'>'
            | b'&'
            | b'^'
            | b'|'
            | b'!'
            | b'~'
    )
}

/// The length of the longest mark that the text begins with.
#[tactic(auto, unfolding(crate::specs::Reading::mark_len))]
pub fn mark_len(text: &[u8]) -> Option<usize>
    ensures { result ≡ mark_len text.now }
{
    match text {
        [first, second, ..] if is_long_mark(*first, *second) => Some(2),
        [first, ..] if is_short_mark(*first) => Some(1),
        _ => None,
    }
}
