ghost use Rattle.std.specs.Prelude.{◌≡◌, ◌++◌, [], List, map, IfOk, OnOk};
ghost use Rattle.std.specs.List.{cons_option};
ghost use Rattle.std.specs.Option.{option_copied, option_map_or};
ghost use Rattle.format_parse.specs.declared.format.EventFormat.{EventFormat};
ghost use Rattle.format_parse.specs.Table.{format_at};

use crate::places::FormatIndex;
use format_parse::{EventFormat, FormatTable};
use std::alloc::{AllocError, Global};
use std::marker::Model;

/// The role that the events of a format play for a command.
pub trait FormatRole: Copy {
    /// The role of its events.
    ghost role_of: { EventFormat → Self };

    /// The role of this format's events.
    fn of(format: &EventFormat) -> Self
        ensures { result ≡ role_of format.now };
}

/// The role of each format's events, in the order of a table: found once, before any event.
#[derive(Drop)]
pub struct FormatRoles<R> {
    places: FormatIndex,
    roles: Vec<R>,
}

impl<R> Model for FormatRoles<R> {
    ghost Value = { List R };

    ghost view = { λ r. r.roles.items };
}

/// Puts the role of the format, if there is one.
fn put_role<R: FormatRole>(
    format: Option<&EventFormat>,
    roles: &mut Vec<R>,
) -> Result<(), AllocError>
    ensures { OnOk result (roles.new.items ≡ roles.old.items ++ map R.role_of (cons_option (option_copied format.entry) [])) }
{
    if let Some(format) = format {
        roles.push(R::of(format))?;
    }
    Ok(())
}

impl<R: FormatRole> FormatRoles<R> {
    /// The roles of these formats. They take a role for each, beside the places of the formats.
    #[tactic(auto, using(crate::proofs::Formats::map_next))]
    pub fn of(alloc: Global, formats: &FormatTable) -> Result<FormatRoles<R>, AllocError>
        ensures { IfOk result (λ roles. roles ≡ map R.role_of formats.now) }
    {
        let places = FormatIndex::of(alloc, formats)?;
        let mut roles = Vec::with_capacity(alloc, formats.len())?;
        for i in 0..formats.len() {
            put_role(formats.get(i), &mut roles)?;
        }
        Ok(FormatRoles { places, roles })
    }

    /// The role of the format with this number, and `other` where there is none. The roles must be those of these formats.
    #[tactic(auto, using(crate::proofs::RolePlaces::role_none, crate::proofs::RolePlaces::role_past))]
    #[inline(always)]
    pub fn role(&self, formats: &FormatTable, id: u32, other: R) -> R
        requires { self.now ≡ map R.role_of formats.now }
        ensures { result ≡ option_map_or R.role_of (format_at id formats.now) other }
    {
        let Some(place) = self.places.place(formats, id) else {
            return other;
        };
        match self.roles.get(place) {
            Some(role) => *role,
            None => other,
        }
    }
}
