// The lines of a text, split at newlines.

ghost use Rattle.std.specs.Prelude.{◌≡◌, ◌==◌, ◌<◌, ◌∷◌, List, ℕ, length, IfSome};
ghost use Rattle.std.specs.Option.{option_map};
ghost use Rattle.std.specs.List.{join_with_byte, position};
ghost use Rattle.text_lines.specs.Lines.{lines_of, lines_left, first_after, line_end};

use bstr::ByteSlice;
use trace_base::after_word;

/// The first line of a text, and what follows the newline that ends it: none exactly where no newline does.
pub fn first_line(text: &[u8]) -> (&[u8], Option<&[u8]>)
    ensures split { lines_of text.now ≡ result.0.now ∷ lines_left result.1 }
    ensures shorter { IfSome result.1 (λ rest. length rest.now < length text.now) }
{
    match newline(text) {
        Some(end) => (&text[..end], Some(&text[end + 1..])),
        None => (text, None),
    }
}

fn newline(text: &[u8]) -> Option<usize>
    ensures { result ≡ position (λ byte. byte == 10) text.now }
{
    text.find_byte(b'\n')
}

/// The rest of the first line that begins with the word, or none where no line does.
pub fn first_after<'a>(word: &[u8], text: &'a [u8]) -> Option<&'a [u8]>
    ensures { option_map (λ rest. rest.now) result ≡ first_after word.now (lines_of text.now) }
{
    let mut left = Some(text);
    while let Some(lines) = left {
        let (line, behind) = first_line(lines);
        if let Some(rest) = after_word(word, line) {
            return Some(rest);
        }
        left = behind;
    }
    None
}

/// What ends a stored text where further lines follow: a newline, where it is not empty and does not end in one.
pub fn line_end(text: &[u8]) -> &'static [u8]
    ensures { result.now ≡ line_end text.now }
{
    match text.last() {
        None | Some(b'\n') => b"",
        Some(_) => b"\n",
    }
}

/// A text is its lines, joined by newlines.
pub fn joined_lines()
    ensures { (text : List ℕ) → join_with_byte 10 (lines_of text) ≡ text }
{}
