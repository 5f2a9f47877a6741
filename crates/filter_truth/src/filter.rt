//! Filters that are bound to the formats of a file.

ghost use Rattle.std.specs.Prelude.{◌≡◌, ℕ, slice_get, IfOk};
ghost use Rattle.filter_lang.specs.FilterView.{filter_of};
ghost use Rattle.filter_truth.specs.Naming.{EventData, holds_at};
ghost use Rattle.filter_truth.specs.BoundFilter.{bind_filter, bound_holds, condition_true};
ghost use Rattle.filter_truth.specs.BoundView.{asked, conditions_of, is_named_at};
ghost use Rattle.filter_truth.specs.Columns.{field_at};
ghost use Rattle.filter_truth.specs.NamedView.{formats_of};
ghost use Rattle.filter_truth.specs.EventView.{event_of, event_with};
ghost use Rattle.filter_truth.specs.SelectionView.{option_open};

use crate::binding::bind_cond;
use crate::bound_expr::BoundExpr;
use crate::column::Column;
use crate::evaluation::{Event, FormatFields, value};
use crate::name_numbers::NameNumbers;
use crate::named::{columns_of, fields_named, flags_of, named_formats};
use crate::named_format::NamedFormat;
use crate::value::is_true;
use filter_lang::Filter;
use format_parse::FormatTable;
use std::alloc::{AllocError, Global};
use trace_base::Rec;

/// A filter that is bound to a table of formats: what it asks of the events of each. The condition is there once, and
/// for each of its names a column says what it stands for in each format.
#[derive(Drop)]
pub struct Bound {
    /// Whether the filter names the format at each place.
    named: Vec<bool>,
    /// What it asks of the events of those that it names.
    cond: Option<BoundExpr>,
    columns: Vec<Column>,
}

impl Bound {
    /// Whether the filter holds at an event of the format at this place of the table.
    #[tactic(auto, using(crate::proofs::Conditions::true_at))]
    pub(crate) fn holds_at(&self, format: usize, event: &Event<'_>) -> bool
        ensures { result ≡ bound_holds (conditions_of self.now) format (event_of event.now) }
    {
        self.is_named(format) && self.is_met(format, event)
    }

    /// Whether a condition decides at which events of the format at this place the filter holds.
    #[tactic(auto, using(crate::proofs::Conditions::open_at))]
    pub(crate) fn is_open_at(&self, format: usize) -> bool
        ensures { result ≡ option_open (slice_get (conditions_of self.now) format) }
    {
        self.is_named(format) && self.cond.is_some()
    }

    fn is_named(&self, format: usize) -> bool
        ensures { result ≡ is_named_at self.now format }
    {
        match self.named.get(format) {
            Some(named) => *named,
            None => false,
        }
    }

    fn is_met(&self, format: usize, event: &Event<'_>) -> bool
        ensures { result ≡ condition_true (asked self.now.cond (field_at self.now.columns.items format)) (event_of event.now) }
    {
        let fields = FormatFields {
            columns: &self.columns,
            format,
        };
        match &self.cond {
            None => true,
            Some(expr) => is_true(value(expr, &fields, event)),
        }
    }
}

/// The filter for the events of formats whose fields' names were read.
pub(crate) fn bind_named(
    alloc: Global,
    filter: &Filter,
    formats: &[NamedFormat<'_>],
) -> Result<Bound, AllocError>
    ensures { IfOk result (λ b. conditions_of b ≡ bind_filter (filter_of filter.now) (formats_of formats.now)) }
{
    let fields = fields_named(alloc, filter.events.as_slice(), formats)?;
    let mut numbers = NameNumbers::new(alloc);
    let cond = bind_cond(alloc, &mut numbers, &filter.cond)?;
    let columns = columns_of(alloc, numbers.names(), &fields)?;
    let named = flags_of(alloc, &fields)?;
    Ok(Bound {
        named,
        cond,
        columns,
    })
}

/// The filter for the events of these formats. Names are looked up here, once.
///
/// # Errors
///
/// Want of memory alone.
pub fn bind(alloc: Global, filter: &Filter, formats: &FormatTable) -> Result<Bound, AllocError>
    ensures bound { IfOk result (λ b. conditions_of b ≡ bind_filter (filter_of filter.now) formats.now) }
    ensures truth { IfOk result (λ b. (i : ℕ) (e : EventData) → bound_holds (conditions_of b) i e ≡ holds_at (filter_of filter.now) (slice_get formats.now i) e) }
{
    let named = named_formats(alloc, formats)?;
    let bound = bind_named(alloc, filter, &named)?;
    Ok(bound)
}

/// Whether a filter holds at an event: whether it names the format at this place of the table that it was bound to, and
/// its condition is true of the event with this record, in a task of this name, on this processor. It takes no memory,
/// and where the format is not named it costs one look-up.
pub fn holds(bound: &Bound, format: usize, rec: &Rec<'_>, comm: &[u8], cpu: u32) -> bool
    ensures { result ≡ bound_holds (conditions_of bound.now) format (event_with rec.now comm.now cpu) }
{
    let event = Event {
        rec: *rec,
        comm,
        cpu,
    };
    bound.holds_at(format, &event)
}
