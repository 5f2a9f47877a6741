//! Which events filters show.

ghost use Rattle.std.specs.Prelude.{◌≡◌, ℕ, Option, map, is_none, IfOk, IfSome};
ghost use Rattle.std.specs.List.{list_any};
ghost use Rattle.filter_truth.specs.Naming.{EventData};
ghost use Rattle.filter_truth.specs.Selection.{filters_show};
ghost use Rattle.filter_truth.specs.SelectionView.{use_of, bound_show, format_at_place, option_holds, is_open_at, some_open};
ghost use Rattle.filter_truth.specs.BoundView.{conditions_of};
ghost use Rattle.filter_truth.specs.EventView.{event_of};

use crate::evaluation::Event;
use crate::filter::{Bound, bind_named};
use crate::named::named_formats;
use filter_lang::Filter;
use format_parse::FormatTable;
use std::alloc::{AllocError, Global};
use std::marker::Model;
use trace_base::{Order, Rec};

/// A filter, and whether the events at which it holds are hidden instead of shown.
#[derive(Drop)]
pub struct FilterUse {
    pub hide: bool,
    pub filter: Filter,
}

/// A bound filter, and whether it hides.
#[derive(Drop)]
pub struct BoundUse {
    pub hide: bool,
    pub bound: Bound,
}

/// Filters that are bound to a table of formats.
#[derive(Drop)]
pub struct Filters {
    uses: Vec<BoundUse>,
}

impl Model for Filters {
    ghost use Rattle.std.specs.Prelude.{List};
    ghost use Rattle.std.specs.Coded.{codes};
    ghost use Rattle.filter_truth.specs.declared.select.BoundUse.{BoundUse};
    ghost use Rattle.filter_truth.specs.contracts.select.BoundUse as u;

    ghost Value = { List BoundUse };

    ghost coded = { Prim.hlevel (codes, u.the_row.coded) };

    ghost view = { λ f. f.uses.items };
}

impl Filters {
    /// The filters for the events of these formats.
    ///
    /// # Errors
    ///
    /// Want of memory alone.
    pub fn bind(
        alloc: Global,
        uses: &[FilterUse],
        formats: &FormatTable,
    ) -> Result<Filters, AllocError>
        ensures { IfOk result (λ f. (i : Option ℕ) (e : EventData) → bound_show f i e ≡ filters_show (map use_of uses.now) (format_at_place formats.now i) e) }
    {
        let named = named_formats(alloc, formats)?;
        let mut bound = Vec::new(alloc);
        for filter_use in uses {
            bound.push(BoundUse {
                hide: filter_use.hide,
                bound: bind_named(alloc, &filter_use.filter, &named)?,
            })?;
        }
        Ok(Filters { uses: bound })
    }

    /// Whether the filters show all events of the format at this place of the table, or of those that have no format, or
    /// none of them. None exactly where a condition decides, so that `show` must be asked of each event.
    pub fn settled(&self, format: Option<usize>) -> Option<bool>
        ensures alike { IfSome result (λ shown. (e : EventData) → shown ≡ bound_show self.now format e) }
        ensures asked { is_none result ≡ some_open self.now format }
    {
        if self.is_open(format) {
            return None;
        }
        // Any event tells what all have in common.
        let event = Event {
            rec: Rec {
                order: Order::Little,
                payload: &[],
            },
            comm: &[],
            cpu: 0,
        };
        Some(self.show(format, &event))
    }

    /// Whether a condition decides which events of the format are shown.
    fn is_open(&self, format: Option<usize>) -> bool
        ensures { result ≡ some_open self.now format }
    {
        self.uses.iter().any(|filter| filter.is_open(format))
    }

    /// Whether the filters show an event of the format at this place of the table, or one that has no format. It takes
    /// no memory.
    pub fn show(&self, format: Option<usize>, event: &Event<'_>) -> bool
        ensures { result ≡ bound_show self.now format (event_of event.now) }
    {
        let mut showing = false;
        let mut shown = false;
        for filter in &self.uses {
            let holds = filter.holds(format, event);
            if filter.hide {
                if holds {
                    return false;
                }
            } else {
                showing = true;
                shown = shown || holds;
            }
        }
        shown || !showing
    }
}

impl BoundUse {
    /// Whether the filter holds at an event of this format.
    fn holds(&self, format: Option<usize>, event: &Event<'_>) -> bool
        ensures { result ≡ option_holds (conditions_of self.now.bound) format (event_of event.now) }
    {
        match format {
            Some(i) => self.bound.holds_at(i, event),
            None => false,
        }
    }

    /// Whether a condition decides at which events of this format the filter holds.
    fn is_open(&self, format: Option<usize>) -> bool
        ensures { result ≡ is_open_at (conditions_of self.now.bound) format }
    {
        match format {
            Some(i) => self.bound.is_open_at(i),
            None => false,
        }
    }
}
