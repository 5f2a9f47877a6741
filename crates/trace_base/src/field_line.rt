// The line that declares a field, in an event's format or in a header_page text (the kernel's events.rst, 'Event formats').

ghost use Rattle.std.specs.Prelude.{◌≡◌, ◌==◌, ◌^◌, ◌<◌, ◌≤◌, length, nat_lt, if◌then◌else◌, IfSome, IfNone, Some, None};
ghost use Rattle.std.specs.List.{list_all, position, prefix_len, suffix_len};
ghost use Rattle.std.specs.Option.{option_map};
ghost use Rattle.byte_classes.specs.Bytes.{is_blank, is_word};
ghost use Rattle.trace_base.specs.FieldLine.{FieldData, IsFieldLine, OneField, is_identifier, skip_blanks, trimmed, decimal};
ghost use Rattle.trace_base.specs.FieldReading.{after_word, cut_at, named_at, opens, greatest_below, plain_at, array_at, declaration_at, entry_at, sign_at, field_line, field_view, declared_view};

use byte_classes::{is_blank, is_word, number_written};

/// What a field line says of its field.
#[derive(Clone, Copy, Debug, PartialEq, Eq)]
pub struct FieldLine<'a> {
    /// The field's name, an identifier.
    pub name: &'a [u8],
    /// What stands before the name, without blanks at its ends: the type, as C writes it.
    pub kind_text: &'a [u8],
    /// Whether brackets follow the name.
    pub array: bool,
    /// The number of 32 bits in the brackets, or 0 where there is none.
    pub count: u32,
    /// Where the field stands, in bytes.
    pub offset: u32,
    /// How long it is, in bytes.
    pub size: u32,
    /// Whether its numbers have a sign.
    pub signed: bool,
}

/// The field that the line declares, or none exactly where it is no field line.
///
/// A field line is blanks, `field:`, a declaration, `;` and then `offset:N;`, `size:N;` and maybe `signed:N;`, each after
/// blanks, where N is decimal and below 2^32. Nothing may follow the last `;`.
pub fn read_field_line(line: &[u8]) -> Option<FieldLine<'_>>
    ensures found { IfSome result (λ field. IsFieldLine line.now (field_view field)) }
    ensures none { IfNone result ((field : FieldData) → IsFieldLine line.now field → ⊥) }
    ensures exact { option_map field_view result ≡ field_line line.now }
{
    line_of(line)
}

/// A line declares at most one field.
pub fn one_field()
    ensures { OneField }
{}

#[tactic(auto, unfolding(crate::specs::FieldReading::field_line))]
fn line_of(line: &[u8]) -> Option<FieldLine<'_>>
    ensures { option_map field_view result ≡ field_line line.now }
{
    let rest = after_word(b"field:", without_blanks(line))?;
    let (text, rest) = cut(rest)?;
    let declared = declaration(text)?;
    let (offset, rest) = entry(b"offset:", rest)?;
    let (size, rest) = entry(b"size:", rest)?;
    let signed = sign(rest)?;
    Some(FieldLine {
        name: declared.name,
        kind_text: declared.kind_text,
        array: declared.array,
        count: declared.count,
        offset,
        size,
        signed,
    })
}

// The declaration's part of a field line.
#[derive(Clone, Copy)]
struct Declared<'a> {
    name: &'a [u8],
    kind_text: &'a [u8],
    array: bool,
    count: u32,
}

#[tactic(auto, unfolding(crate::specs::FieldReading::declaration_at))]
fn declaration(text: &[u8]) -> Option<Declared<'_>>
    ensures { option_map declared_view result ≡ declaration_at text.now }
{
    match text.strip_suffix(b"]") {
        Some(inner) => array(inner),
        None => plain(text),
    }
}

#[tactic(auto, unfolding(crate::specs::FieldReading::plain_at))]
fn plain(text: &[u8]) -> Option<Declared<'_>>
    ensures { option_map declared_view result ≡ plain_at text.now }
{
    let (before, name) = named(text)?;
    Some(Declared {
        name,
        kind_text: trim(before),
        array: false,
        count: 0,
    })
}

#[tactic(auto, unfolding(crate::specs::FieldReading::array_at))]
fn array(text: &[u8]) -> Option<Declared<'_>>
    ensures { option_map declared_view result ≡ array_at text.now }
{
    let at = opening(text)?;
    let (before, name) = named(&text[..at])?;
    Some(Declared {
        name,
        kind_text: trim(before),
        array: true,
        count: decimal(&text[at + 1..]).unwrap_or(0),
    })
}

// The last opening bracket directly after an identifier.
fn opening(text: &[u8]) -> Option<usize>
    ensures value { result ≡ greatest_below (opens text.now) (length text.now) }
    ensures inside { IfSome result (λ at. at < length text.now) }
{
    let mut at = text.len();
    while at > 0 {
        at -= 1;
        if is_opening(text, at) {
            return Some(at);
        }
    }
    None
}

#[tactic(auto, unfolding(crate::specs::FieldReading::opens))]
fn is_opening(text: &[u8], at: usize) -> bool
    requires { at < length text.now }
    ensures { result ≡ opens text.now at }
{
    text[at] == b'[' && named(&text[..at]).is_some()
}

#[tactic(auto, unfolding(crate::specs::FieldReading::named_at))]
fn named(text: &[u8]) -> Option<(&[u8], &[u8])>
    ensures { option_map (λ named. (named.0.now, named.1.now)) result ≡ named_at text.now }
{
    let run = words_at_end(text);
    let (before, name) = text.split_at(text.len() - run);
    if is_identifier(name) {
        Some((before, name))
    } else {
        None
    }
}

/// Whether the text is letters, digits and `_`, at least one of them, and does not begin with a digit.
pub fn is_identifier(text: &[u8]) -> bool
    ensures { result ≡ is_identifier text.now }
{
    !text.is_empty() && all_in_words(text) && !text[0].is_ascii_digit()
}

fn all_in_words(text: &[u8]) -> bool
    ensures { result ≡ list_all is_word text.now }
{
    text.iter().all(|byte| is_word(*byte))
}

#[tactic(auto, unfolding(crate::specs::FieldReading::entry_at))]
fn entry<'a>(word: &[u8], text: &'a [u8]) -> Option<(u32, &'a [u8])>
    ensures { option_map (λ entry. (entry.0, entry.1.now)) result ≡ entry_at word.now text.now }
{
    let rest = after_word(word, without_blanks(text))?;
    let (digits, rest) = cut(rest)?;
    let number = decimal(digits)?;
    Some((number, rest))
}

#[tactic(auto, unfolding(crate::specs::FieldReading::sign_at))]
fn sign(text: &[u8]) -> Option<bool>
    ensures { result ≡ sign_at text.now }
{
    if text.is_empty() {
        return Some(false);
    }
    let (number, rest) = entry(b"signed:", text)?;
    if rest.is_empty() {
        Some(number != 0)
    } else {
        None
    }
}

/// The number that decimal digits write, where it is one of 32 bits; there is at least one digit and nothing else.
pub fn decimal(text: &[u8]) -> Option<u32>
    ensures { result ≡ decimal text.now }
{
    if text.is_empty() {
        return None;
    }
    let number = number_written(10, text)?;
    narrow(number)
}

// The number, where it is one of 32 bits.
fn narrow(number: u64) -> Option<u32>
    ensures { result ≡ (if nat_lt number (2 ^ 32) then Some number else None) }
{
    if number < 0x1_0000_0000 {
        Some(number as u32)
    } else {
        None
    }
}

/// What follows the word that the text begins with.
#[tactic(auto, unfolding(crate::specs::FieldReading::after_word))]
pub fn after_word<'a>(word: &[u8], text: &'a [u8]) -> Option<&'a [u8]>
    ensures { option_map (λ rest. rest.now) result ≡ after_word word.now text.now }
{
    text.strip_prefix(word)
}

#[tactic(auto, unfolding(crate::specs::FieldReading::cut_at))]
fn cut(text: &[u8]) -> Option<(&[u8], &[u8])>
    ensures { option_map (λ parts. (parts.0.now, parts.1.now)) result ≡ cut_at text.now }
{
    let at = semicolon(text)?;
    let (before, behind) = text.split_at(at);
    Some((before, &behind[1..]))
}

fn semicolon(text: &[u8]) -> Option<usize>
    ensures value { result ≡ position (λ byte. byte == 59) text.now }
    ensures inside { IfSome result (λ at. at < length text.now) }
{
    text.iter().position(|byte| *byte == b';')
}

fn without_blanks(text: &[u8]) -> &[u8]
    ensures { result.now ≡ skip_blanks text.now }
{
    let (_, rest) = text.split_at(blanks_in_front(text));
    rest
}

fn blanks_in_front(text: &[u8]) -> usize
    ensures value { result ≡ prefix_len is_blank text.now }
    ensures inside { result ≤ length text.now }
{
    text.iter().take_while(|byte| is_blank(**byte)).count()
}

fn trim(text: &[u8]) -> &[u8]
    ensures { result.now ≡ trimmed text.now }
{
    let rest = without_blanks(text);
    let (kept, _) = rest.split_at(rest.len() - blanks_at_end(rest));
    kept
}

fn blanks_at_end(text: &[u8]) -> usize
    ensures value { result ≡ suffix_len is_blank text.now }
    ensures inside { result ≤ length text.now }
{
    text.iter()
        .rev()
        .take_while(|byte| is_blank(**byte))
        .count()
}

fn words_at_end(text: &[u8]) -> usize
    ensures value { result ≡ suffix_len is_word text.now }
    ensures inside { result ≤ length text.now }
{
    text.iter().rev().take_while(|byte| is_word(**byte)).count()
}
