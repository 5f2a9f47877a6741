// Entries, exits and losses, as a pass over a trace gathers them.

ghost use Rattle.std.specs.Prelude.{true, OnOk};
ghost use Rattle.subpage.specs.ItemView.{item_view};
ghost use Rattle.call_pairs.specs.Tracings.{WasSeen};
ghost use Rattle.graph_report.specs.Gathered.{seen_in, HasSeen};
ghost use Rattle.graph_report.specs.Roles.{event_seen, seen_of};
ghost use Rattle.graph_report.specs.CallGatherers.{HasRoles, Notes};

use crate::role::Role;
use crate::seeing::{graph_event, recorded_duration};
use call_pairs::{GraphItem, Tracing};
use format_index::FormatRoles;
use item_pass::Gatherer;
use report_print::Context;
use std::alloc::AllocError;
use subpage::Item;
use time_merge::Others;

/// What items are for the calls. The roles are those of the context's formats.
#[derive(Drop)]
pub(crate) struct CallGatherer<'a> {
    pub context: &'a Context,
    pub roles: &'a FormatRoles<Role>,
}

impl CallGatherer<'_> {
    // An event is seen, if it is an entry or an exit. Each of them goes from here to the list of calls in one piece of code:
    // what is seen is never put together in memory.
    #[inline(always)]
    fn note_event(
        &self,
        cpu: u32,
        time: u64,
        payload: &[u8],
        tracing: &mut Tracing,
    ) -> Result<(), AllocError>
        requires roles { HasRoles self.now }
        requires known { WasSeen tracing.old }
        ensures known { OnOk result (WasSeen tracing.new) }
        ensures noted { Notes (event_seen self.now.context.now cpu time payload.now) tracing.old tracing.new result }
    {
        let context = self.context;
        let id = context.id(payload);
        match self.roles.role(context.formats(), id, Role::Other) {
            Role::Enters(called) => {
                let entry = graph_event(context, cpu, time, id, payload, called);
                tracing.see(&GraphItem::Entry(entry))
            }
            Role::Leaves(called, times) => {
                let exit = graph_event(context, cpu, time, id, payload, called);
                let recorded = recorded_duration(context.order(), payload, times);
                tracing.see(&GraphItem::Exit(exit, recorded))
            }
            Role::Other => Ok(()),
        }
    }

    // An item of this processor is seen, if it is one for the calls.
    #[inline(always)]
    #[tactic(auto, unfolding(crate::specs::Roles::seen_of))]
    fn note_item(&self, cpu: u32, item: &Item<'_>, tracing: &mut Tracing) -> Result<(), AllocError>
        requires roles { HasRoles self.now }
        requires known { WasSeen tracing.old }
        ensures known { OnOk result (WasSeen tracing.new) }
        ensures noted { Notes (seen_of self.now.context.now cpu (item_view item.now)) tracing.old tracing.new result }
    {
        match item {
            Item::Event { time, payload } => self.note_event(cpu, *time, payload, tracing),
            Item::Loss { time: _, count } => tracing.see(&GraphItem::Loss { cpu, count: *count }),
        }
    }
}

impl Others for CallGatherer<'_> {
    // In a trace of calls there is little else.
    const LOOKS_AHEAD: bool = false;

    ghost is_sound = { HasRoles };

    ghost matters = { λ _ _ _. true };

    #[inline(always)]
    fn is_other(&self, _cpu: u32, _item: &Item<'_>) -> bool {
        false
    }
}

impl Gatherer for CallGatherer<'_> {
    type Gathered = Tracing;

    ghost holds = { λ gatherer xs tracing. HasSeen (seen_in gatherer.context.now xs) tracing };

    #[inline(always)]
    fn take(&self, cpu: u32, item: &Item<'_>, tracing: &mut Tracing) -> Result<(), AllocError> {
        self.note_item(cpu, item, tracing)
    }
}
