// The lines of kallsyms, printk formats and saved command lines, one at a time.

ghost use Rattle.std.specs.Prelude.{◌≡◌, ◌≤◌, IfSome, IfNone, codes, length, take};
ghost use Rattle.std.specs.List.{prefix_len};
ghost use Rattle.std.specs.Option.{option_map};
ghost use Rattle.trace_base.specs.FieldReading.{after_word};
ghost use Rattle.symbols.specs.NameMap.{Pair};
ghost use Rattle.symbols.specs.Found.{StandsIn, found_view};
ghost use Rattle.symbols.specs.LineForms.{in_name, IsSymbolLine, IsPrintkLine, IsTaskLine};
ghost use Rattle.symbols.specs.Forms.{is_decimal_digit, leading_number, after_letter, symbol_line, unquoted, without_prefix, printk_line, task_line, line_in};

use crate::digits::other_address;
use crate::found::Found;
use trace_base::{after_word, decimal};

/// What the lines of a text look like.
#[derive(Clone, Copy, PartialEq, Eq, Debug)]
pub(crate) enum Form {
    /// `ADDRESS LETTER NAME`, of `/proc/kallsyms`.
    Kallsyms,
    /// `ADDRESS : "TEXT"`, of `printk_formats`.
    Printk,
    /// `PID NAME`, of `saved_cmdlines`.
    Tasks,
}

/// The symbol that a line of kallsyms gives: 1 to 16 hexadecimal digits, a space, one letter, a space, and a name up to a tab,
/// a space or the end. None exactly where the line is of another form (proc_kallsyms(5)).
pub(crate) fn symbol_line(line: &[u8]) -> Option<Found<'_>>
    ensures stands { IfSome result (StandsIn line.now) }
    ensures found { IfSome result (λ symbol. IsSymbolLine line.now (found_view symbol)) }
    ensures none { IfNone result ((symbol : Pair) → IsSymbolLine line.now symbol → ⊥) }
    ensures exact { option_map found_view result ≡ symbol_line line.now }
{
    read_symbol(line)
}

/// The text that a line of printk formats gives: an address as in kallsyms, with `0x` or without, ` : `, and a text in
/// quotation marks that ends the line. None exactly where the line is of another form.
pub(crate) fn printk_line(line: &[u8]) -> Option<Found<'_>>
    ensures stands { IfSome result (StandsIn line.now) }
    ensures found { IfSome result (λ format. IsPrintkLine line.now (found_view format)) }
    ensures none { IfNone result ((format : Pair) → IsPrintkLine line.now format → ⊥) }
    ensures exact { option_map found_view result ≡ printk_line line.now }
{
    read_printk(line)
}

/// The task that a saved command line gives: a decimal pid up to 2,147,483,647, a space, and a name of at least one byte.
/// None exactly where the line is of another form.
pub(crate) fn task_line(line: &[u8]) -> Option<Found<'_>>
    ensures stands { IfSome result (StandsIn line.now) }
    ensures found { IfSome result (λ task. IsTaskLine line.now (found_view task)) }
    ensures none { IfNone result ((task : Pair) → IsTaskLine line.now task → ⊥) }
    ensures exact { option_map found_view result ≡ task_line line.now }
{
    read_task(line)
}

fn is_decimal_digit(byte: u8) -> bool
    ensures { result ≡ is_decimal_digit byte }
{
    char::from(byte).is_digit(10)
}

fn decimal_len(text: &[u8]) -> usize
    ensures { result ≡ prefix_len is_decimal_digit text.now }
{
    text.iter()
        .take_while(|byte| is_decimal_digit(**byte))
        .count()
}

fn name_len(text: &[u8]) -> usize
    ensures { result ≡ prefix_len in_name text.now }
{
    text.iter().take_while(|byte| in_name(**byte)).count()
}

fn in_name(byte: u8) -> bool
    ensures { result ≡ in_name byte }
{
    byte != b'\t' && byte != b' '
}

#[tactic(auto, unfolding(crate::specs::Forms::leading_number), using(crate::proofs::ReadLines::prefix_within))]
fn leading_number(text: &[u8]) -> Option<(u32, &[u8])>
    ensures { option_map (λ r. (r.0, r.1.now)) result ≡ leading_number text.now }
{
    let (digits, rest) = text.split_at(decimal_len(text));
    match decimal(digits) {
        Some(number) => Some((number, rest)),
        None => None,
    }
}

/// What follows a space.
#[inline]
#[tactic(auto, using(crate::proofs::ReadLines::space_is, crate::proofs::ReadLines::no_space, crate::proofs::ReadLines::no_text))]
pub(crate) fn after_space(text: &[u8]) -> Option<&[u8]>
    ensures { option_map (λ r. r.now) result ≡ after_word (codes " ") text.now }
{
    if text.is_empty() {
        return None;
    }
    if text[0] == b' ' {
        let (_, rest) = text.split_at(1);
        Some(rest)
    } else {
        None
    }
}

/// What follows one letter and a space.
#[inline]
#[tactic(auto, unfolding(crate::specs::Forms::after_letter))]
pub(crate) fn after_letter(text: &[u8]) -> Option<&[u8]>
    ensures { option_map (λ r. r.now) result ≡ after_letter text.now }
{
    if text.len() >= 2 && text[0].is_ascii_alphabetic() && text[1] == b' ' {
        Some(&text[2..])
    } else {
        None
    }
}

/// How long the text is without the quotation mark that ends it.
#[tactic(auto, unfolding(crate::specs::Forms::unquoted))]
fn unquoted_len(text: &[u8]) -> Option<usize>
    ensures inside { IfSome result (λ len. len ≤ length text.now) }
    ensures exact { option_map (λ len. take len text.now) result ≡ unquoted text.now }
{
    if !text.is_empty() && text[text.len() - 1] == b'"' {
        Some(text.len() - 1)
    } else {
        None
    }
}

#[tactic(auto, unfolding(crate::specs::Forms::without_prefix))]
fn without_prefix(text: &[u8]) -> &[u8]
    ensures { result.now ≡ without_prefix text.now }
{
    match after_word(b"0x", text) {
        Some(rest) => rest,
        None => text,
    }
}

#[tactic(auto, unfolding(crate::specs::Forms::symbol_line), using(crate::proofs::ReadLines::prefix_within, crate::proofs::FirstSymbols::symbol_ends))]
fn read_symbol(line: &[u8]) -> Option<Found<'_>>
    ensures stands { IfSome result (StandsIn line.now) }
    ensures exact { option_map found_view result ≡ symbol_line line.now }
{
    let (key, rest) = other_address(line)?;
    let spaced = after_space(rest)?;
    let from = after_letter(spaced)?;
    let len = name_len(from);
    Some(Found { key, from, len })
}

#[tactic(auto, unfolding(crate::specs::Forms::printk_line), using(crate::proofs::ReadLines::printk_ends))]
fn read_printk(line: &[u8]) -> Option<Found<'_>>
    ensures stands { IfSome result (StandsIn line.now) }
    ensures exact { option_map found_view result ≡ printk_line line.now }
{
    let (key, rest) = other_address(without_prefix(line))?;
    let from = after_word(b" : \"", rest)?;
    let len = unquoted_len(from)?;
    Some(Found { key, from, len })
}

#[tactic(auto, unfolding(crate::specs::Forms::task_line), using(crate::proofs::ReadLines::task_ends, crate::proofs::ReadLines::task_read))]
fn read_task(line: &[u8]) -> Option<Found<'_>>
    ensures stands { IfSome result (StandsIn line.now) }
    ensures exact { option_map found_view result ≡ task_line line.now }
{
    let (pid, rest) = leading_number(line)?;
    let from = after_space(rest)?;
    if pid < 0x8000_0000 && !from.is_empty() {
        Some(Found {
            key: pid as u64,
            from,
            len: from.len(),
        })
    } else {
        None
    }
}

pub(crate) fn line_in(form: Form, line: &[u8]) -> Option<Found<'_>>
    ensures stands { IfSome result (StandsIn line.now) }
    ensures exact { option_map found_view result ≡ line_in form line.now }
{
    match form {
        Form::Kallsyms => symbol_line(line),
        Form::Printk => printk_line(line),
        Form::Tasks => task_line(line),
    }
}
