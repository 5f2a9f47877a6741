//! The names of events, and all of a filter, from their tokens.

ghost use Rattle.std.specs.Prelude.{◌≡◌, ◌<◌, ◌≤◌, length, map, IfOk};
ghost use Rattle.filter_lang.specs.ReaderView.{from};
ghost use Rattle.filter_lang.specs.FilterReading.{naming, names, filter_in, behind_events};
ghost use Rattle.filter_lang.specs.FilterView.{name_of, filter_of, closing_with, event_view, events_view, filter_view};
ghost use Rattle.filter_lang.specs.TakenView.{Gives};

use crate::filter::{EventName, Filter};
use crate::parse_fault::ParseFault;
use crate::reader::Reader;
use crate::taken::{TakenEvent, TakenEvents};
use crate::token::Separator;
use trace_base::{ByteText, ListOf};

/// How many brackets and prefix operators may be open.
const DEEPEST: u32 = 64;

impl<'a> Reader<'a> {
    /// The name of an event.
    #[tactic(auto, using(crate::proofs::EventSteps::no_name, crate::proofs::EventSteps::one_name_alone, crate::proofs::EventSteps::no_second, crate::proofs::EventSteps::two_names_there))]
    fn event(&self, at: usize) -> Result<TakenEvent, ParseFault>
        requires inside { at ≤ length self.now.tokens.now }
        ensures value { Gives self.now event_view result (names (from self.now at) naming) }
        ensures bound { IfOk result (λ t. (at < t.next) × (t.next ≤ length self.now.tokens.now)) }
    {
        let first = self.name(at).ok_or(ParseFault::Before(at))?;
        let first = ByteText::copy(self.alloc, first)?;
        if !self.is_at(Separator::Slash, at + 1) {
            let event = EventName {
                first,
                second: None,
            };
            return Ok(TakenEvent {
                event,
                next: at + 1,
            });
        }
        let second = self.name(at + 2).ok_or(ParseFault::Before(at + 2))?;
        let second = Some(ByteText::copy(self.alloc, second)?);
        let event = EventName { first, second };
        Ok(TakenEvent {
            event,
            next: at + 3,
        })
    }

    /// The names of the events.
    #[tactic(auto, using(crate::proofs::EventSteps::over_here, crate::proofs::EventSteps::comma_stops))]
    fn events(&self) -> Result<TakenEvents, ParseFault>
        ensures value { Gives self.now events_view result (names (from self.now 0) naming) }
        ensures bound { IfOk result (λ t. t.next ≤ length self.now.tokens.now) }
    {
        let mut events = Vec::new(self.alloc);
        let first = self.event(0)?;
        let mut next = first.next;
        events.push(first.event)?;
        while self.is_at(Separator::Comma, next) {
            let event = self.event(next + 1)?;
            next = event.next;
            events.push(event.event)?;
        }
        Ok(TakenEvents { events, next })
    }

    /// All of a filter.
    #[tactic(auto, using(crate::proofs::EventSteps::no_events, crate::proofs::EventSteps::events_only, crate::proofs::EventSteps::other_behind, crate::proofs::EventSteps::cond_stops, crate::proofs::EventSteps::cond_goes_on, crate::proofs::EventSteps::cond_is_all, crate::proofs::EventSteps::end_there, crate::proofs::EventSteps::some_there))]
    pub fn filter(&self) -> Result<Filter, ParseFault>
        ensures { Gives self.now filter_view result (filter_in (from self.now 0)) }
    {
        let events = self.events()?;
        if events.next == self.tokens.len() {
            return Ok(Filter {
                events: ListOf::from_vec(events.events),
                cond: None,
            });
        }
        if !self.is_at(Separator::Colon, events.next) {
            return Err(ParseFault::Before(events.next));
        }
        let cond = self.level(10, DEEPEST, events.next + 1)?;
        if cond.next != self.tokens.len() {
            return Err(ParseFault::Before(cond.next));
        }
        Ok(Filter {
            events: ListOf::from_vec(events.events),
            cond: Some(Box::into_inner(cond.expr)),
        })
    }
}
