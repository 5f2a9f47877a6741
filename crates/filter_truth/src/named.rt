//! The formats of a table, with the names of their fields.

ghost use Rattle.std.specs.Prelude.{◌≡◌, ◌++◌, [], map, IfOk, OnOk};
ghost use Rattle.std.specs.List.{list_any, cons_option};
ghost use Rattle.std.specs.Option.{option_and_then, option_copied, is_some};
ghost use Rattle.trace_base.specs.Fields.{field_named};
ghost use Rattle.filter_lang.specs.FilterView.{name_of};
ghost use Rattle.filter_truth.specs.Columns.{column_in};
ghost use Rattle.filter_truth.specs.Naming.{is_named_by};
ghost use Rattle.filter_truth.specs.NamedView.{formats_of, named_by};

use crate::column::Column;
use crate::named_format::NamedFormat;
use field_names::FieldNames;
use filter_lang::EventName;
use format_parse::{EventFormat, FormatTable};
use std::alloc::{AllocError, Global};
use trace_base::Field;

/// Puts the format with the names of its fields, if there is one.
fn put_named<'a>(
    alloc: Global,
    format: Option<&'a EventFormat>,
    named: &mut Vec<NamedFormat<'a>>,
) -> Result<(), AllocError>
    ensures { OnOk result (formats_of named.new.items ≡ formats_of named.old.items ++ cons_option (option_copied format.entry) []) }
{
    if let Some(format) = format {
        named.push(NamedFormat::of(alloc, format)?)?;
    }
    Ok(())
}

/// The formats of a table, so that no filter reads their fields' names anew.
#[tactic(auto, using(crate::proofs::NamedSteps::named_more))]
pub fn named_formats<'a>(
    alloc: Global,
    formats: &'a FormatTable,
) -> Result<Vec<NamedFormat<'a>>, AllocError>
    ensures { IfOk result (λ v. formats_of v.items ≡ formats.now) }
{
    let mut named = Vec::with_capacity(alloc, formats.len())?;
    for i in 0..formats.len() {
        put_named(alloc, formats.get(i), &mut named)?;
    }
    Ok(named)
}

/// Whether a name is one of the format's.
fn is_named(event: &EventName, format: &EventFormat) -> bool
    ensures { result ≡ is_named_by format.now (name_of event.now) }
{
    let first = event.first.as_bytes();
    match &event.second {
        None => format.name.as_bytes() == first || format.system.as_bytes() == first,
        Some(second) => {
            format.system.as_bytes() == first && format.name.as_bytes() == second.as_bytes()
        }
    }
}

/// Whether one of the names is one of the format's.
fn names_format(events: &[EventName], format: &EventFormat) -> bool
    ensures { result ≡ list_any (λ e. is_named_by format.now (name_of e)) events.now }
{
    events.iter().any(|event| is_named(event, format))
}

/// The fields of a format, if one of the names is the format's.
#[tactic(auto, using(crate::proofs::Bindings::named_each))]
fn fields_if_named<'b, 'a>(
    events: &[EventName],
    named: &'b NamedFormat<'a>,
) -> Option<&'b FieldNames<'a>>
    ensures { option_copied result ≡ named_by (map name_of events.now) named.now.format.now }
{
    if names_format(events, named.format) {
        Some(&named.fields)
    } else {
        None
    }
}

/// The fields of the formats that the names are of; None in the places of the others.
pub fn fields_named<'b, 'a>(
    alloc: Global,
    events: &[EventName],
    formats: &'b [NamedFormat<'a>],
) -> Result<Vec<Option<&'b FieldNames<'a>>>, AllocError>
    ensures { IfOk result (λ v. map option_copied v.items ≡ map (named_by (map name_of events.now)) (formats_of formats.now)) }
{
    let mut fields = Vec::with_capacity(alloc, formats.len())?;
    for named in formats {
        fields.push(fields_if_named(events, named))?;
    }
    Ok(fields)
}

/// Which of the formats are named.
pub fn flags_of(alloc: Global, fields: &[Option<&FieldNames<'_>>]) -> Result<Vec<bool>, AllocError>
    ensures { IfOk result (λ v. v.items ≡ map is_some (map option_copied fields.now)) }
{
    let mut flags = Vec::with_capacity(alloc, fields.len())?;
    for known in fields {
        flags.push(known.is_some())?;
    }
    Ok(flags)
}

/// The field of this name, among fields that are there if their format is named.
fn field_if_named<'a>(fields: Option<&FieldNames<'a>>, name: &[u8]) -> Option<&'a Field>
    ensures { option_copied result ≡ option_and_then (field_named name.now) (option_copied fields.entry) }
{
    fields?.field(name)
}

/// What a name stands for in the formats that are named.
fn column_of(
    alloc: Global,
    name: &[u8],
    fields: &[Option<&FieldNames<'_>>],
) -> Result<Column, AllocError>
    ensures { IfOk result (λ column. column ≡ column_in (map option_copied fields.now) name.now) }
{
    let mut column = Column::with_capacity(alloc, fields.len())?;
    for known in fields {
        column.push(alloc, field_if_named(*known, name))?;
    }
    Ok(column)
}

/// What each of the names stands for.
pub fn columns_of(
    alloc: Global,
    names: &[&[u8]],
    fields: &[Option<&FieldNames<'_>>],
) -> Result<Vec<Column>, AllocError>
    ensures { IfOk result (λ v. v.items ≡ map (column_in (map option_copied fields.now)) (map (λ name. name.now) names.now)) }
{
    let mut columns = Vec::with_capacity(alloc, names.len())?;
    for name in names {
        columns.push(column_of(alloc, name, fields)?)?;
    }
    Ok(columns)
}
