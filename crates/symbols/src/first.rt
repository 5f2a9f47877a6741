// The symbol of the line that a text begins with, in one pass over its bytes.

ghost use Rattle.std.specs.Prelude.{◌≡◌, ◌∷◌, IfSome};
ghost use Rattle.text_lines.specs.Lines.{lines_of, lines_left};
ghost use Rattle.symbols.specs.FirstLine.{IsFirstSymbol, IsNameLen};

use crate::digits::address_at;
use crate::found::Found;
use crate::lines::{after_letter, after_space};
use memchr::memchr3_iter;
use text_lines::first_line;

/// A symbol, and what follows its line.
#[derive(Clone, Copy, Debug)]
pub(crate) struct FirstSymbol<'a> {
    /// Its address and its name.
    pub found: Found<'a>,
    /// The lines after this one, if there are any.
    pub behind: Option<&'a [u8]>,
}

/// The symbol of the first line of kallsyms. None tells nothing: the line may be of another form, or end with the text.
#[tactic(auto, using(crate::proofs::FirstSymbols::first_is))]
pub(crate) fn first_symbol(text: &[u8]) -> Option<FirstSymbol<'_>>
    ensures { IfSome result (λ symbol. IsFirstSymbol text.now symbol.found.key symbol.found.from.now symbol.found.len (lines_left symbol.behind)) }
{
    let (key, rest) = address_at(text)?;
    let spaced = after_space(rest)?;
    let from = after_letter(spaced)?;
    let len = name_len(from)?;
    let (_, left) = from.split_at(len);
    let (_, behind) = rest_of_line(left);
    let found = Found { key, from, len };
    Some(FirstSymbol { found, behind })
}

// How long the name at the front is, where a tab, a space or a newline ends it. The iterator looks at the next 32 bytes first,
// in which most names end.
#[inline]
fn name_len(text: &[u8]) -> Option<usize>
    ensures { IfSome result (IsNameLen text.now) }
{
    memchr3_iter(b'\t', b' ', b'\n', text).next()
}

// The rest of a line, and the lines after it. Most names stand at the end of their line.
#[inline(always)]
fn rest_of_line(text: &[u8]) -> (&[u8], Option<&[u8]>)
    ensures { lines_of text.now ≡ result.0.now ∷ lines_left result.1 }
{
    if !text.is_empty() && text[0] == b'\n' {
        let (_, behind) = text.split_at(1);
        (&[], Some(behind))
    } else {
        found_line(text)
    }
}

// The same, where the line goes on. It stands by itself, so that room for the answer of the call is cleared where the call is
// made, and not for each line.
#[inline(always)]
fn found_line(text: &[u8]) -> (&[u8], Option<&[u8]>)
    ensures { lines_of text.now ≡ result.0.now ∷ lines_left result.1 }
{
    let (line, behind) = first_line(text);
    (line, behind)
}
