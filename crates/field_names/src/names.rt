ghost use Rattle.std.specs.Prelude.{◌≡◌, IfOk};
ghost use Rattle.std.specs.Option.{option_copied};
ghost use Rattle.trace_base.specs.Fields.{field_named};
ghost use Rattle.field_names.specs.Places.{ArePlaces};

use std::alloc::{AllocError, Global};
use std::collections::BTreeMap;
use std::marker::Model;
use trace_base::{Field, field_named};

/// So many fields are looked through, which is less than to keep where each stands.
const FEW: usize = 256;

/// The fields of a record, which are found by their names. Contracts see the fields.
#[derive(Drop)]
pub struct FieldNames<'a> {
    fields: &'a [Field],
    /// Where the first of each name stands, unless the fields are few.
    places: Option<BTreeMap<Vec<u8>, usize>>,
}

impl<'a> Model for FieldNames<'a> {
    ghost use Rattle.std.specs.Prelude.{List, IfSome};
    ghost use Rattle.std.specs.Coded.{codes};
    ghost use Rattle.trace_base.specs.declared.field.Field.{Field};
    ghost use Rattle.trace_base.specs.contracts.field.Field as f;
    ghost use Rattle.field_names.specs.Places.{ArePlaces};

    ghost Value = { List Field };

    ghost coded = { Prim.hlevel (codes, f.the_row.coded) };

    ghost view = { λ n. n.fields.now };

    ghost invariant = { λ n. IfSome n.places (ArePlaces n.fields.now) };
}

/// Where the first field of each name stands.
fn first_places(alloc: Global, fields: &[Field]) -> Result<BTreeMap<Vec<u8>, usize>, AllocError>
    ensures { IfOk result (ArePlaces fields.now) }
{
    let mut places = BTreeMap::new(alloc);
    let mut place = fields.len();
    // From the last on, so that the first of equal names stays.
    while place > 0 {
        place -= 1;
        let name = fields[place].name.as_bytes().to_vec(alloc)?;
        places.insert(name, place)?;
    }
    Ok(places)
}

impl<'a> FieldNames<'a> {
    /// The names of these fields.
    ///
    /// # Errors
    ///
    /// Want of memory alone.
    pub fn of(alloc: Global, fields: &'a [Field]) -> Result<FieldNames<'a>, AllocError>
        ensures { IfOk result (λ names. names ≡ fields.now) }
    {
        let places = if fields.len() <= FEW {
            None
        } else {
            Some(first_places(alloc, fields)?)
        };
        Ok(FieldNames { fields, places })
    }

    /// The first field of this name.
    pub fn field(&self, name: &[u8]) -> Option<&'a Field>
        ensures { option_copied result ≡ field_named name.now self.now }
    {
        match &self.places {
            None => field_named(name, self.fields),
            Some(places) => self.fields.get(*places.get(name)?),
        }
    }
}
