//! What a name stands for in the events of each format.

ghost use Rattle.std.specs.Prelude.{◌≡◌, ◌≤◌, ◌++◌, [], ◌∷◌, ℕ, true, length, map, Some, IfOk, OnOk, slice_get};
ghost use Rattle.std.specs.List.{All};
ghost use Rattle.std.specs.Option.{option_copied, option_flatten};
ghost use Rattle.filter_truth.specs.Columns.{field_placed};

use std::alloc::{AllocError, Global};
use std::marker::Model;
use trace_base::Field;

/// The field that a name stands for in each format, where there is one. A format costs four bytes, and fields that are
/// the same in consecutive formats are kept once.
#[derive(Drop)]
pub struct Column {
    fields: Vec<Field>,
    /// For each format the place of its field, counted from 1; 0 where it has none.
    places: Vec<u32>,
}

impl Model for Column {
    ghost use Rattle.std.specs.Prelude.{◌≤◌, List, Option, length, map};
    ghost use Rattle.std.specs.List.{All};
    ghost use Rattle.std.specs.Coded.{codes, coded_option};
    ghost use Rattle.trace_base.specs.declared.field.Field.{Field};
    ghost use Rattle.trace_base.specs.contracts.field.Field as f;
    ghost use Rattle.filter_truth.specs.Columns.{field_placed};

    ghost Value = { List (Option Field) };

    ghost coded = { Prim.hlevel (codes, f.the_row.coded) };

    ghost view = { λ c. map (field_placed c.fields.items) c.places.items };

    ghost invariant = { λ c. All (λ p. p ≤ length c.fields.items) c.places.items };
}

/// Whether two fields are the same.
fn is_same(a: &Field, b: &Field) -> bool
    ensures { result ≡ true → a.now ≡ b.now }
{
    a.offset == b.offset
        && a.size == b.size
        && a.signed == b.signed
        && a.kind == b.kind
        && a.place == b.place
        && a.element == b.element
        && a.name.as_bytes() == b.name.as_bytes()
}

/// The field at a place.
fn field_placed(fields: &[Field], place: u32) -> Option<&Field>
    ensures { option_copied result ≡ field_placed fields.now place }
{
    if place == 0 {
        return None;
    }
    fields.get(place as usize - 1)
}

/// Whether the last field is this one.
fn is_last(fields: &[Field], field: &Field) -> bool
    ensures { result ≡ true → field_placed fields.now (length fields.now) ≡ Some field.now }
{
    match fields.last() {
        Some(last) => is_same(last, field),
        None => false,
    }
}

/// The place of a field, which is appended to the others unless it is the last of them. More than 2^32 fields find no room.
fn place_of(alloc: Global, fields: &mut Vec<Field>, field: &Field) -> Result<u32, AllocError>
    ensures grown { length fields.old.items ≤ length fields.new.items }
    ensures kept { (p : ℕ) → p ≤ length fields.old.items → field_placed fields.new.items p ≡ field_placed fields.old.items p }
    ensures within { IfOk result (λ place. place ≤ length fields.new.items) }
    ensures placed { IfOk result (λ place. field_placed fields.new.items place ≡ Some field.now) }
{
    if !is_last(fields, field) {
        fields.push(field.copy(alloc)?)?;
    }
    match u32::try_from(fields.len()) {
        Ok(place) => Ok(place),
        Err(_) => Err(AllocError),
    }
}

/// The place of a field if there is one, and 0 otherwise.
fn place_if(
    alloc: Global,
    fields: &mut Vec<Field>,
    field: Option<&Field>,
) -> Result<u32, AllocError>
    ensures grown { length fields.old.items ≤ length fields.new.items }
    ensures kept { (p : ℕ) → p ≤ length fields.old.items → field_placed fields.new.items p ≡ field_placed fields.old.items p }
    ensures within { IfOk result (λ place. place ≤ length fields.new.items) }
    ensures placed { IfOk result (λ place. field_placed fields.new.items place ≡ option_copied field.entry) }
{
    match field {
        Some(field) => place_of(alloc, fields, field),
        None => Ok(0),
    }
}

impl Column {
    /// No formats; so many find room.
    pub fn with_capacity(alloc: Global, formats: usize) -> Result<Column, AllocError>
        ensures { IfOk result (λ column. column ≡ []) }
    {
        Ok(Column {
            fields: Vec::new(alloc),
            places: Vec::with_capacity(alloc, formats)?,
        })
    }

    /// Appends what the name stands for in one more format.
    #[tactic(auto, using(crate::proofs::Placed::pushed))]
    pub fn push(&mut self, alloc: Global, field: Option<&Field>) -> Result<(), AllocError>
        ensures { OnOk result (self.new ≡ self.old ++ option_copied field.entry ∷ []) }
    {
        let place = place_if(alloc, &mut self.fields, field)?;
        self.places.push(place)?;
        Ok(())
    }

    /// What the name stands for in the format at this place.
    pub fn field(&self, format: usize) -> Option<&Field>
        ensures { option_copied result ≡ option_flatten (slice_get self.now format) }
    {
        field_placed(&self.fields, *self.places.get(format)?)
    }
}
