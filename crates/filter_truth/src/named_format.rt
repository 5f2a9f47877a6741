//! A format whose fields are found by their names.

ghost use Rattle.std.specs.Prelude.{◌≡◌, IfOk};

use field_names::FieldNames;
use format_parse::EventFormat;
use std::alloc::{AllocError, Global};

/// A format with the names of its fields.
#[derive(Drop)]
pub struct NamedFormat<'a> {
    pub format: &'a EventFormat,
    pub fields: FieldNames<'a>,
    ghost same: { fields ≡ format.now.fields },
}

impl<'a> NamedFormat<'a> {
    pub fn of(alloc: Global, format: &'a EventFormat) -> Result<NamedFormat<'a>, AllocError>
        ensures { IfOk result (λ named. named.format.now ≡ format.now) }
    {
        let fields = FieldNames::of(alloc, format.fields.as_slice())?;
        Ok(NamedFormat { format, fields })
    }
}
