// The names that the lines of a text give.

ghost use Rattle.std.specs.Prelude.{◌≡◌, ◌+◌, ◌≤◌, ◌++◌, [], ◌∷◌, length, take, IfOk, IfSome, OnOk};
ghost use Rattle.std.specs.List.{cons_option};
ghost use Rattle.text_lines.specs.Lines.{lines_of, lines_left};
ghost use Rattle.symbols.specs.Names.{names_view, spots_view, text_in, AreInside, AreWithin, BeginsWith, EndsWith};
ghost use Rattle.symbols.specs.FirstLine.{IsFirstSymbol, PutsFirst};
ghost use Rattle.symbols.specs.Forms.{line_in, pairs_in};
ghost use Rattle.symbols.specs.Found.{StandsIn, found_view};

use crate::first::{FirstSymbol, first_symbol};
use crate::found::Found;
use crate::lines::{Form, line_in};
use crate::names::{Names, Span, Spot};
use std::alloc::{AllocError, Global};
use text_lines::first_line;
use trace_base::ByteText;

/// Most lines have at least so many bytes: room for their names is taken at once.
const LINE_BYTES: usize = 32;

/// The names that the lines of a text give, in their order. They stand in the text itself.
pub(crate) fn names_in(alloc: Global, form: Form, text: ByteText) -> Result<Names, AllocError>
    ensures inside { IfOk result AreInside }
    ensures value { IfOk result (λ names. names_view names ≡ pairs_in form (lines_of text)) }
{
    let spots = spots_in(alloc, form, text.as_bytes())?;
    Ok(Names { spots, text })
}

// Where these names stand.
fn spots_in(alloc: Global, form: Form, text: &[u8]) -> Result<Vec<Spot>, AllocError>
    ensures inside { IfOk result (λ spots. AreWithin text.now spots.items) }
    ensures value { IfOk result (λ spots. spots_view text.now spots.items ≡ pairs_in form (lines_of text.now)) }
{
    let mut spots = Vec::with_capacity(alloc, text.len() / LINE_BYTES)?;
    let mut left = Some(text);
    while let Some(lines) = left {
        left = put_first(form, text, lines, &mut spots)?;
    }
    Ok(spots)
}

// Puts where the name of the first line stands, if it has one, and gives the lines after it.
fn put_first<'a>(
    form: Form,
    text: &[u8],
    lines: &'a [u8],
    spots: &mut Vec<Spot>,
) -> Result<Option<&'a [u8]>, AllocError>
    requires inside { AreWithin text.now spots.old.items }
    requires ends { EndsWith text.now lines.now }
    ensures inside { OnOk result (AreWithin text.now spots.new.items) }
    ensures put { IfOk result (λ behind. PutsFirst form lines.now (spots_view text.now spots.old.items) (spots_view text.now spots.new.items) (lines_left behind)) }
{
    match symbol_in(form, lines) {
        Some(symbol) => {
            put(text, symbol.found, spots)?;
            Ok(symbol.behind)
        }
        None => put_found(form, text, lines, spots),
    }
}

// The same, by way of the line's end. It stands by itself, so that room for the answer of the call is cleared where the call is
// made, and not for each line.
#[inline(always)]
fn put_found<'a>(
    form: Form,
    text: &[u8],
    lines: &'a [u8],
    spots: &mut Vec<Spot>,
) -> Result<Option<&'a [u8]>, AllocError>
    requires inside { AreWithin text.now spots.old.items }
    requires ends { EndsWith text.now lines.now }
    ensures inside { OnOk result (AreWithin text.now spots.new.items) }
    ensures put { IfOk result (λ behind. PutsFirst form lines.now (spots_view text.now spots.old.items) (spots_view text.now spots.new.items) (lines_left behind)) }
{
    let (line, behind) = first_line(lines);
    put_line(form, text, lines, line, spots)?;
    Ok(behind)
}

// The symbol of the first line of kallsyms, where it is read in one pass.
fn symbol_in(form: Form, lines: &[u8]) -> Option<FirstSymbol<'_>>
    ensures form { IfSome result (λ symbol. form ≡ Form.Kallsyms) }
    ensures first { IfSome result (λ symbol. IsFirstSymbol lines.now symbol.found.key symbol.found.from.now symbol.found.len (lines_left symbol.behind)) }
{
    match form {
        Form::Kallsyms => first_symbol(lines),
        Form::Printk => None,
        Form::Tasks => None,
    }
}

// Puts where the name that the line gives stands, if it gives one.
#[tactic(auto, using(crate::proofs::ReadLines::one_put, crate::proofs::ReadLines::none_put))]
fn put_line(
    form: Form,
    text: &[u8],
    lines: &[u8],
    line: &[u8],
    spots: &mut Vec<Spot>,
) -> Result<(), AllocError>
    requires inside { AreWithin text.now spots.old.items }
    requires ends { EndsWith text.now lines.now }
    requires begins { BeginsWith lines.now line.now }
    ensures inside { OnOk result (AreWithin text.now spots.new.items) }
    ensures value { OnOk result (spots_view text.now spots.new.items ≡ spots_view text.now spots.old.items ++ cons_option (line_in form line.now) []) }
{
    if let Some(found) = line_in(form, line) {
        put(text, in_lines(lines, line, found), spots)?;
    }
    Ok(())
}

// What was found in a line, by where it stands in the lines that begin with it.
fn in_lines<'a>(lines: &'a [u8], line: &[u8], found: Found<'_>) -> Found<'a>
    requires begins { BeginsWith lines.now line.now }
    requires stands { StandsIn line.now found }
    ensures stands { StandsIn lines.now result }
    ensures same { found_view result ≡ found_view found.entry }
{
    let (_, from) = lines.split_at(line.len() - found.from.len());
    Found {
        key: found.key,
        from,
        len: found.len,
    }
}

// Puts where a name stands that was found in the text.
fn put(text: &[u8], found: Found<'_>, spots: &mut Vec<Spot>) -> Result<(), AllocError>
    requires inside { AreWithin text.now spots.old.items }
    requires stands { StandsIn text.now found }
    ensures inside { OnOk result (AreWithin text.now spots.new.items) }
    ensures value { OnOk result (spots_view text.now spots.new.items ≡ spots_view text.now spots.old.items ++ found_view found.entry ∷ []) }
{
    let span = span_of(text, found);
    spots.push(Spot {
        key: found.key,
        span,
    })?;
    Ok(())
}

// Where the name stands in the text.
fn span_of(text: &[u8], found: Found<'_>) -> Span
    requires { StandsIn text.now found }
    ensures inside { result.start + result.len ≤ length text.now }
    ensures same { text_in text.now result ≡ take found.entry.len found.entry.from.now }
{
    Span {
        start: text.len() - found.from.len(),
        len: found.len,
    }
}
