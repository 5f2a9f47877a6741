// Wake-ups and switches, as a pass over a trace gathers them.

ghost use Rattle.std.specs.Prelude.{◌≡◌, true, false};
ghost use Rattle.wakeup_pairs.specs.Gathered.{gathered};
ghost use Rattle.wakeup_lat.specs.Roles.{all_seen};
ghost use Rattle.wakeup_lat.specs.Matter.{HasRoles, is_seen, matters};

use crate::role::Role;
use format_index::FormatRoles;
use item_pass::Gatherer;
use report_print::Context;
use std::alloc::AllocError;
use subpage::Item;
use time_merge::Others;
use wakeup_pairs::{WakeupItem, Wakeups};

/// What items are for the latencies. The roles are those of the context's formats.
#[derive(Drop)]
pub(crate) struct WakeupGatherer<'a> {
    pub context: &'a Context,
    pub roles: &'a FormatRoles<Role>,
}

fn is_other(seen: WakeupItem) -> bool
    ensures { result ≡ true → is_seen seen ≡ false }
{
    match seen {
        WakeupItem::Other => true,
        WakeupItem::Wakes(_) | WakeupItem::Switches(_) | WakeupItem::Lost => false,
    }
}

impl Others for WakeupGatherer<'_> {
    // In most traces few events are wake-ups and switches.
    const LOOKS_AHEAD: bool = true;

    ghost is_sound = { HasRoles };

    ghost matters = { λ gatherer. matters gatherer.context.now };

    fn is_other(&self, cpu: u32, item: &Item<'_>) -> bool {
        is_other(self.see(cpu, item))
    }
}

impl Gatherer for WakeupGatherer<'_> {
    type Gathered = Wakeups;

    ghost holds = { λ gatherer xs wakeups. wakeups ≡ gathered (all_seen gatherer.context.now xs) };

    fn take(&self, cpu: u32, item: &Item<'_>, wakeups: &mut Wakeups) -> Result<(), AllocError> {
        let seen = self.see(cpu, item);
        wakeups.see(seen)
    }
}
