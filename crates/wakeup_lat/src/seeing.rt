// What items are for the latencies. The names in formats are compared once, before any item.

ghost use Rattle.std.specs.Prelude.{◌≡◌};
ghost use Rattle.subpage.specs.ItemView.{item_view};
ghost use Rattle.wakeup_lat.specs.Matter.{HasRoles};
ghost use Rattle.wakeup_lat.specs.Roles.{role_in, seen_as, seen_in};

use crate::role::Role;
use crate::wakeup_gatherer::WakeupGatherer;
use subpage::Item;
use wakeup_pairs::{Switch, Wake, WakeupItem};

impl WakeupGatherer<'_> {
    fn see_event(&self, cpu: u32, time: u64, payload: &[u8]) -> WakeupItem
        requires { HasRoles self.now }
        ensures { result ≡ seen_as self.now.context.now cpu time payload.now (role_in self.now.context.now payload.now) }
    {
        let context = self.context;
        match self
            .roles
            .role(context.formats(), context.id(payload), Role::Other)
        {
            Role::Wakes(field) => WakeupItem::Wakes(Wake {
                task: field.signed_32(context.order(), payload),
                time,
            }),
            Role::Switches(field) => WakeupItem::Switches(Switch {
                task: field.signed_32(context.order(), payload),
                cpu,
                time,
                common: context.common(payload),
            }),
            Role::Other => WakeupItem::Other,
        }
    }

    /// What an item of a processor is.
    #[tactic(auto, unfolding(crate::specs::Roles::seen_in))]
    pub(crate) fn see(&self, cpu: u32, item: &Item<'_>) -> WakeupItem
        requires { HasRoles self.now }
        ensures { result ≡ seen_in self.now.context.now cpu (item_view item.now) }
    {
        match item {
            Item::Event { time, payload } => self.see_event(cpu, *time, payload),
            Item::Loss { .. } => WakeupItem::Lost,
        }
    }
}
