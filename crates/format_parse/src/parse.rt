// What a format text says of an event.

ghost use Rattle.std.specs.Prelude.{◌≡◌, ◌<◌, ◌++◌, map, length, codes, IfOk, IfSome, OnOk, [], None};
ghost use Rattle.std.specs.List.{cons_option};
ghost use Rattle.std.specs.Option.{option_map};
ghost use Rattle.trace_base.specs.FieldReading.{after_word, field_line, field_view};
ghost use Rattle.text_lines.specs.Lines.{lines_of, lines_left};
ghost use Rattle.format_parse.specs.CommonFields.{ReadsOn, may_begin};
ghost use Rattle.format_parse.specs.FieldKinds.{field_of};
ghost use Rattle.format_parse.specs.Format.{field_data, print_text, format_of, name_in, id_in};

use crate::common::{after_common, put_common};
use crate::fields::field_of;
use crate::format::EventFormat;
use crate::words::after_front;
use std::alloc::{AllocError, Global};
use text_lines::{first_after, first_line};
use trace_base::{ByteText, Field, FieldLine, ListOf, decimal, is_identifier, read_field_line};

/// Most formats have no more fields, those of all events included: memory for so many is taken at once.
const USUAL_FIELDS: usize = 12;

/// The format of an event of this system that the text spells; none exactly where its name or its id is unread.
///
/// The name is the rest of the first line that begins with `name: `, an identifier; the id that of the first line that begins
/// with `ID: `, a decimal number below 2^32. The fields are those of the field lines before the first line that begins with
/// `print fmt:`, and the print fmt is all text after that word.
#[tactic(auto, unfolding(crate::specs::Format::format_of))]
pub fn parse_format(
    alloc: Global,
    system: &[u8],
    text: &[u8],
) -> Result<Option<EventFormat>, AllocError>
    ensures { IfOk result (λ format. format ≡ format_of system.now text.now) }
{
    let Some(name) = name_in(text) else {
        return Ok(None);
    };
    let Some(id) = id_in(text) else {
        return Ok(None);
    };
    let (fields, print) = read_fields(alloc, text)?;
    Ok(Some(EventFormat {
        system: ByteText::copy(alloc, system)?,
        name: ByteText::copy(alloc, name)?,
        id,
        fields: ListOf::from_vec(fields),
        print: ByteText::copy(alloc, print)?,
        text: ByteText::copy(alloc, text)?,
    }))
}

#[tactic(auto, unfolding(crate::specs::Format::name_in))]
fn name_in(text: &[u8]) -> Option<&[u8]>
    ensures { option_map (λ name. name.now) result ≡ name_in text.now }
{
    let name = first_after(b"name: ", text)?;
    if is_identifier(name) {
        Some(name)
    } else {
        None
    }
}

#[tactic(auto, unfolding(crate::specs::Format::id_in))]
fn id_in(text: &[u8]) -> Option<u32>
    ensures { result ≡ id_in text.now }
{
    let id = first_after(b"ID: ", text)?;
    decimal(id)
}

/// Puts the field that the line declares, if it is a field line.
fn put_field(alloc: Global, line: &[u8], fields: &mut Vec<Field>) -> Result<(), AllocError>
    ensures { OnOk result (fields.new.items ≡ fields.old.items ++ map field_of (cons_option (field_line line.now) [])) }
{
    if let Some(field) = declared_field(line) {
        fields.push(field_of(alloc, &field)?)?;
    }
    Ok(())
}

/// The field that the line declares. Most lines that declare none differ in their first byte, which is looked at first.
#[tactic(auto, using(crate::proofs::Fronts::no_line, crate::proofs::Fronts::other_line))]
fn declared_field(line: &[u8]) -> Option<FieldLine<'_>>
    ensures { option_map field_view result ≡ field_line line.now }
{
    if !line.is_empty() && may_begin(line[0]) {
        read_field_line(line)
    } else {
        None
    }
}

/// Whether a field line may begin with the byte.
fn may_begin(byte: u8) -> bool
    ensures { result ≡ may_begin byte }
{
    matches!(byte, b' ' | b'\t' | b'\n' | b'\r') || byte == b'f'
}

/// Puts the fields that the text begins with: those of all events, where no field was put yet and the lines that declare them
/// come first, or else that of the first line, if it is a field line. Gives the lines that follow.
#[tactic(auto, using(crate::proofs::CommonFields::common_short))]
fn put_fields<'a>(
    alloc: Global,
    lines: &'a [u8],
    fields: &mut Vec<Field>,
) -> Result<Option<&'a [u8]>, AllocError>
    requires { None ≡ after_word (codes "print fmt:") lines.now }
    ensures reads { IfOk result (λ behind. ReadsOn lines.now fields.old.items fields.new.items (lines_left behind)) }
    ensures shorter { IfOk result (λ behind. IfSome behind (λ rest. length rest.now < length lines.now)) }
{
    if fields.is_empty()
        && let Some(rest) = after_common(lines)
    {
        put_common(alloc, fields)?;
        return Ok(Some(rest));
    }
    let (line, behind) = first_line(lines);
    put_field(alloc, line, fields)?;
    Ok(behind)
}

/// The fields before the print fmt, and the print fmt.
#[tactic(auto, using(crate::proofs::Formats::all_fields))]
fn read_fields(alloc: Global, text: &[u8]) -> Result<(Vec<Field>, &[u8]), AllocError>
    ensures fields { IfOk result (λ r. r.0.items ≡ map field_of (field_data (lines_of text.now))) }
    ensures print { IfOk result (λ r. r.1.now ≡ print_text (lines_of text.now)) }
{
    let mut fields = Vec::with_capacity(alloc, USUAL_FIELDS)?;
    let mut left = Some(text);
    while let Some(lines) = left {
        if let Some(print) = after_front(b"print fmt:", lines) {
            return Ok((fields, print));
        }
        left = put_fields(alloc, lines, &mut fields)?;
    }
    Ok((fields, &[]))
}
