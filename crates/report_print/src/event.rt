// The text of an item, without the line's end.

ghost use Rattle.std.specs.Prelude.{◌≡◌, ◌+◌, ◌≤◌, length};
ghost use Rattle.trace_base.specs.Kept.{put_held};
ghost use Rattle.trace_base.specs.TailView.{held, lent};
ghost use Rattle.subpage.specs.ItemView.{item_view};
ghost use Rattle.std.specs.List.{prefix_len};
ghost use Rattle.std.specs.Option.{option_map};
ghost use Rattle.fmt_print.specs.PlanView.{plan_view};
ghost use Rattle.report_print.specs.FieldTexts.{is_common};
ghost use Rattle.report_print.specs.Line as spec;
ghost use Rattle.report_print.specs.Line.{IsTimeEnd, front_text, pid_of};

use crate::context::Context;
use crate::fields::{put_fields_behind, put_unread};
use crate::fronts::put_front;
use crate::head::Known;
use fmt_print::print;
use itoa::Buffer;
use line_columns::{Front, LONGEST_BEHIND};
use subpage::Item;
use trace_base::{Rec, Tail};

/// Puts the text of an item. Gives where an event's time ends.
#[inline(always)]
pub(crate) fn put_item(context: &Context, cpu: u32, item: &Item<'_>, into: &mut Tail<'_>) -> usize
    ensures same_slice { lent into.new ≡ lent into.old }
    ensures value { held into.new ≡ put_held (held into.old) (spec.item_text context.now cpu (item_view item.now)) }
    ensures until { IsTimeEnd context.now cpu (item_view item.now) result }
{
    match item {
        Item::Event { time, payload } => put_event(context, cpu, *time, payload, into),
        Item::Loss { time: _, count } => {
            put_loss(cpu, *count, into);
            0
        }
    }
}

#[inline(always)]
#[tactic(auto, using(crate::proofs::FrontLemmas::known_commons))]
fn put_event(context: &Context, cpu: u32, time: u64, payload: &[u8], into: &mut Tail<'_>) -> usize
    ensures same_slice { lent into.new ≡ lent into.old }
    ensures value { held into.new ≡ put_held (held into.old) (spec.event_text context.now cpu time payload.now) }
    ensures until { result ≡ spec.time_end context.now cpu time payload.now }
{
    let (id, pid) = context.id_and_pid(payload);
    match context.known(id) {
        Some(known) => {
            let label = known.head.label.as_bytes();
            let until = put_front(context, cpu, time, pid, payload, label, into);
            put_body(context, &known, payload, into);
            until
        }
        None => put_unknown(context, cpu, time, pid, payload, id, into),
    }
}

/// Puts the event's fields, or the text of its print fmt.
#[inline(always)]
fn put_body(context: &Context, known: &Known<'_>, payload: &[u8], into: &mut Tail<'_>)
    requires { known.now.head.now.commons ≡ prefix_len is_common known.now.format.now.fields }
    ensures same_slice { lent into.new ≡ lent into.old }
    ensures value { held into.new ≡ put_held (held into.old) (spec.body_by context.now known.now.head.now.raw (option_map plan_view known.now.head.now.plan) payload.now known.now.format.now) }
{
    let rec = Rec {
        order: context.show().order,
        payload,
    };
    if known.head.raw {
        put_fields_behind(
            &rec,
            known.head.commons,
            known.format.fields.as_slice(),
            into,
        );
    } else {
        put_print(context, known, &rec, into);
    }
}

/// Puts the text of the event's print fmt, or its fields where that is unread.
#[inline(always)]
fn put_print(context: &Context, known: &Known<'_>, rec: &Rec<'_>, into: &mut Tail<'_>)
    requires order { rec.now.order ≡ context.now.show.order }
    requires commons { known.now.head.now.commons ≡ prefix_len is_common known.now.format.now.fields }
    ensures same_slice { lent into.new ≡ lent into.old }
    ensures value { held into.new ≡ put_held (held into.old) (spec.print_by context.now rec.now.payload.now known.now.format.now (option_map plan_view known.now.head.now.plan)) }
{
    match &known.head.plan {
        Some(plan) => print(plan, rec, context.symbols(), into),
        None => put_unread(
            rec,
            known.head.commons,
            known.format.fields.as_slice(),
            into,
        ),
    }
}

/// Puts the columns of an event whose format is not known, and what is said of it. Gives where the time ends.
#[inline(never)]
fn put_unknown(
    context: &Context,
    cpu: u32,
    time: u64,
    pid: i32,
    payload: &[u8],
    id: u32,
    into: &mut Tail<'_>,
) -> usize
    requires { pid ≡ pid_of context.now payload.now }
    ensures same_slice { lent into.new ≡ lent into.old }
    ensures value { held into.new ≡ put_held (put_held (held into.old) (front_text context.now cpu time payload.now)) (spec.unknown_text id) }
    ensures until { result + 2 ≡ length (front_text context.now cpu time payload.now) }
{
    let text = unknown(id);
    put_front(context, cpu, time, pid, payload, text.as_bytes(), into)
}

/// What is said of an event whose format is not known.
#[tactic(auto, unfolding(crate::specs::Line::unknown_text))]
fn unknown(id: u32) -> Front
    ensures value { result ≡ spec.unknown_text id }
    ensures short { length result ≤ LONGEST_BEHIND }
{
    let mut text = Front::new();
    text.prepend_byte(b']');
    text.prepend_digits(id as u64);
    text.prepend_text(b"[UNKNOWN EVENT ");
    text
}

/// Puts the text of a loss of this processor, with the number of events that were lost where it is known.
#[tactic(auto, unfolding(crate::specs::Line::loss_text))]
pub fn put_loss(cpu: u32, count: Option<u64>, into: &mut Tail<'_>)
    ensures same_slice { lent into.new ≡ lent into.old }
    ensures value { held into.new ≡ put_held (held into.old) (spec.loss_text cpu count) }
{
    let mut digits = Buffer::new();
    into.put(b"CPU:");
    into.put(digits.format(cpu).as_bytes());
    match count {
        None => into.put(b" [EVENTS DROPPED]"),
        Some(count) => {
            into.put(b" [");
            into.put(digits.format(count).as_bytes());
            into.put(b" EVENTS DROPPED]");
        }
    }
}
