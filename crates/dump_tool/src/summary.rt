// The summary: the header's form and the size of each of its parts.

ghost use Rattle.std.specs.Prelude.{◌≡◌, length};
ghost use Rattle.std.specs.List.{flat_map};
ghost use Rattle.trace_outside.specs.Pending.{PutsText, on_way};
ghost use Rattle.dump_tool.specs.RowText.{row_text};
ghost use Rattle.dump_tool.specs.Summary.{summary_text, order_name, body_name};

use crate::entries::put_each;
use crate::lines::{put_count, put_value};
use crate::lists::{event_count, options_of};
use dat_header::{Body, Header};
use trace_base::Order;
use trace_outside::{Failed, Pending, Sink};

/// A line of the summary: a name and what it stands for.
#[derive(Clone, Copy)]
pub(crate) enum Row<'a> {
    Text(&'static str, &'a str),
    Count(&'static str, u128),
}

/// Puts the summary of the header of a file with this name.
pub(crate) fn put_summary<O: Sink>(
    pending: &mut Pending,
    out: &mut O,
    name: &str,
    header: &Header,
) -> Result<(), Failed>
    ensures { PutsText (summary_text name.now header.now) (on_way O.written O.name O.faults out.old pending.old) (on_way O.written O.name O.faults out.new pending.new) result }
{
    let rows = rows_of(name, header);
    put_each(pending, out, rows.iter(), put_row)
}

fn rows_of<'a>(name: &'a str, header: &Header) -> [Row<'a>; 16]
    ensures { flat_map row_text result ≡ summary_text name.now header.now }
{
    [
        Row::Text("file", name),
        Row::Count("version", 6),
        Row::Text("order", order_name(header.order)),
        Row::Count("long", header.long as u128),
        Row::Count("page", header.page as u128),
        Row::Count("header_page", header.page_text.as_bytes().len() as u128),
        Row::Count("header_event", header.event_text.as_bytes().len() as u128),
        Row::Count("ftrace formats", header.ftrace.as_slice().len() as u128),
        Row::Count("systems", header.systems.as_slice().len() as u128),
        Row::Count("events", event_count(header.systems.as_slice())),
        Row::Count("kallsyms", header.kallsyms.as_bytes().len() as u128),
        Row::Count("printk formats", header.printk.as_bytes().len() as u128),
        Row::Count("command lines", header.cmdlines.as_bytes().len() as u128),
        Row::Count("processors", header.cpus as u128),
        Row::Count("options", options_of(header).len() as u128),
        Row::Text("body", body_name(&header.body)),
    ]
}

fn order_name(order: Order) -> &'static str
    ensures { result.now ≡ order_name order }
{
    match order {
        Order::Little => "little",
        Order::Big => "big",
    }
}

fn body_name(body: &Body) -> &'static str
    ensures { result.now ≡ body_name body.now }
{
    match body {
        Body::Latency => "latency",
        Body::Fly(_) => "flyrecord",
    }
}

fn put_row<O: Sink>(pending: &mut Pending, out: &mut O, row: &Row<'_>) -> Result<(), Failed>
    ensures { PutsText (row_text row.now) (on_way O.written O.name O.faults out.old pending.old) (on_way O.written O.name O.faults out.new pending.new) result }
{
    match row {
        Row::Text(name, value) => put_value(pending, out, name.as_bytes(), value.as_bytes()),
        Row::Count(name, count) => put_count(pending, out, name.as_bytes(), *count),
    }
}
