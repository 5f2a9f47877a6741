// What events are for the latencies, by their formats.

ghost use Rattle.std.specs.Prelude.{◌≡◌};
ghost use Rattle.wakeup_lat.specs.Roles.{waking, switching, named_role, role_of};

use format_index::FormatRole;
use format_parse::EventFormat;
use report_print::NumberField;
use trace_base::Field;

/// What the events of a format are for the latencies, with the place of their task's number.
#[derive(Clone, Copy, Debug, PartialEq, Eq)]
pub(crate) enum Role {
    /// A task is woken.
    Wakes(NumberField),
    /// A processor goes on to a task.
    Switches(NumberField),
    /// They do not matter.
    Other,
}

impl FormatRole for Role {
    ghost role_of = { role_of };

    fn of(format: &EventFormat) -> Role {
        if format.system.as_bytes() == b"sched".as_slice() {
            named_role(format.name.as_bytes(), format.fields.as_slice())
        } else {
            Role::Other
        }
    }
}

#[tactic(auto, unfolding(crate::specs::Roles::named_role))]
fn named_role(name: &[u8], fields: &[Field]) -> Role
    ensures { result ≡ named_role name.now fields.now }
{
    if name == b"sched_wakeup".as_slice() || name == b"sched_wakeup_new".as_slice() {
        waking(NumberField::named(b"pid", fields))
    } else if name == b"sched_switch".as_slice() {
        switching(NumberField::named(b"next_pid", fields))
    } else {
        Role::Other
    }
}

fn waking(field: Option<NumberField>) -> Role
    ensures { result ≡ waking field }
{
    match field {
        Some(field) => Role::Wakes(field),
        None => Role::Other,
    }
}

fn switching(field: Option<NumberField>) -> Role
    ensures { result ≡ switching field }
{
    match field {
        Some(field) => Role::Switches(field),
        None => Role::Other,
    }
}
