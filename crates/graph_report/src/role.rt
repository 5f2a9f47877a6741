// What events are for the calls, found once for each format.

ghost use Rattle.std.specs.Prelude.{◌≡◌};
ghost use Rattle.graph_report.specs.Roles.{called_in, times_in, entering, leaving, role_named, role_of};

use format_index::FormatRole;
use format_parse::EventFormat;
use report_print::NumberField;
use trace_base::Field;

/// Where an event tells its function and the function's depth.
#[derive(Clone, Copy, Debug, PartialEq, Eq)]
pub struct Called {
    /// The function's address.
    pub func: NumberField,
    /// How many calls were open around it.
    pub depth: NumberField,
}

/// Where an exit tells when its call began and ended.
#[derive(Clone, Copy, Debug, PartialEq, Eq)]
pub struct Times {
    /// When it began.
    pub from: NumberField,
    /// When it ended.
    pub to: NumberField,
}

/// What the events of a format are for the calls.
#[derive(Clone, Copy, Debug, PartialEq, Eq)]
pub enum Role {
    /// Entries into functions.
    Enters(Called),
    /// Exits from functions.
    Leaves(Called, Option<Times>),
    /// Nothing.
    Other,
}

/// The function and its depth, where both are numbers or addresses.
#[tactic(auto, unfolding(crate::specs::Roles::called_in))]
fn called_in(fields: &[Field]) -> Option<Called>
    ensures { result ≡ called_in fields.now }
{
    let func = NumberField::counted(b"func", fields)?;
    let depth = NumberField::counted(b"depth", fields)?;
    Some(Called { func, depth })
}

/// When a call began and ended, where both are numbers.
#[tactic(auto, unfolding(crate::specs::Roles::times_in))]
fn times_in(fields: &[Field]) -> Option<Times>
    ensures { result ≡ times_in fields.now }
{
    let from = NumberField::named(b"calltime", fields)?;
    let to = NumberField::named(b"rettime", fields)?;
    Some(Times { from, to })
}

fn entering(called: Option<Called>) -> Role
    ensures { result ≡ entering called }
{
    match called {
        Some(called) => Role::Enters(called),
        None => Role::Other,
    }
}

fn leaving(called: Option<Called>, times: Option<Times>) -> Role
    ensures { result ≡ leaving called times }
{
    match called {
        Some(called) => Role::Leaves(called, times),
        None => Role::Other,
    }
}

#[tactic(auto, unfolding(crate::specs::Roles::role_named))]
fn role_named(name: &[u8], fields: &[Field]) -> Role
    ensures { result ≡ role_named name.now fields.now }
{
    if name == b"funcgraph_entry".as_slice() {
        entering(called_in(fields))
    } else if name == b"funcgraph_exit".as_slice() {
        leaving(called_in(fields), times_in(fields))
    } else {
        Role::Other
    }
}

impl FormatRole for Role {
    ghost role_of = { role_of };

    #[tactic(auto, unfolding(crate::specs::Roles::role_of))]
    fn of(format: &EventFormat) -> Role {
        if format.system.as_bytes() == b"ftrace".as_slice() {
            role_named(format.name.as_bytes(), format.fields.as_slice())
        } else {
            Role::Other
        }
    }
}
