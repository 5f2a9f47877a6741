// What an event is for the calls.

ghost use Rattle.std.specs.Prelude.{◌≡◌};
ghost use Rattle.report_print.specs.Line.{id_of};
ghost use Rattle.graph_report.specs.Roles.{graph_event, recorded_duration};

use crate::role::{Called, Times};
use call_pairs::{GraphEvent, clipped};
use report_print::Context;
use trace_base::Order;

/// An entry or an exit of the format with this number, by where its function and its depth stand.
#[inline(always)]
pub(crate) fn graph_event(
    context: &Context,
    cpu: u32,
    time: u64,
    id: u32,
    payload: &[u8],
    called: Called,
) -> GraphEvent
    requires { id ≡ id_of context.now payload.now }
    ensures { result ≡ graph_event context.now cpu time payload.now called }
{
    let order = context.order();
    GraphEvent {
        cpu,
        time,
        common: context.common_of(id, payload),
        depth: called.depth.low_32(order, payload),
        func: called.func.low_64(order, payload),
    }
}

/// The duration of a call, by its exit's own fields.
#[inline(always)]
pub(crate) fn recorded_duration(order: Order, payload: &[u8], times: Option<Times>) -> Option<u64>
    ensures { result ≡ recorded_duration order payload.now times }
{
    match times {
        Some(times) => {
            let from = times.from.number(order, payload);
            Some(clipped(from, times.to.number(order, payload)))
        }
        None => None,
    }
}
