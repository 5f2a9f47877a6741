//! Directives over arguments.

ghost use Rattle.std.specs.Prelude.{◌≡◌, length, Some, IfSome};
ghost use Rattle.trace_base.specs.Kept.{put_held};
ghost use Rattle.trace_base.specs.TailView.{held, lent};
ghost use Rattle.fmt_directives.specs.Directives.{IsWithin};
ghost use Rattle.fmt_eval.specs.Values.{given};
ghost use Rattle.fmt_print.specs.ArgumentView.{trees};
ghost use Rattle.fmt_print.specs.PlanView.{plan_view};
ghost use Rattle.fmt_print.specs.Printed.{printed, printed_one, print_text};
ghost use Rattle.fmt_print.specs.Steps.{plain_spec, a_literal, literal_directive, literal_start, literal_text, shown_directive, printed_some, printed_step, sixteen_at, IsPlaced};

use crate::argument::Argument;
use crate::arguments::{first_of, taken};
use crate::conversions::{PLAIN, Printer};
use crate::plan::PrintPlan;
use crate::step::{Content, Literal, Shown, Step};
use fmt_directives::{Base, Length, PointerForm, Spec};
use symbols::Symbols;
use trace_base::{Rec, Tail};

impl<'a> Printer<'a> {
    ghost use Rattle.fmt_print.specs.Contents.{directive_of};
    ghost use Rattle.fmt_forms.specs.Shows.{Shows};
    ghost use Rattle.fmt_print.specs.Takes.{Takes};
    ghost use Rattle.fmt_print.specs.Sources.{source};

    /// Shows a conversion of any form. Gives the arguments after those that it takes.
    #[inline(never)]
    fn formed<'b>(
        &self,
        what: &Content,
        spec: &Spec,
        args: &'b [Argument],
        into: &mut Tail<'_>,
    ) -> &'b [Argument]
        ensures { Takes into.old into.new result.now (printed_one (source self.now) (directive_of what.now spec.now) (trees args.now)) }
    {
        match taken(self.rec, *spec, args) {
            Some(of) => {
                self.content(*what, spec.length, &of.form, of.argument, into);
                of.rest
            }
            None => &[],
        }
    }

    /// Shows a plain conversion. Gives the arguments after its own. What it shows and its form are known when this is compiled.
    #[inline(always)]
    fn plain<'b>(
        &self,
        what: Content,
        length: Length,
        args: &'b [Argument],
        into: &mut Tail<'_>,
    ) -> &'b [Argument]
        ensures { Takes into.old into.new result.now (printed_one (source self.now) (directive_of what (plain_spec length)) (trees args.now)) }
    {
        match first_of(args) {
            Some((argument, rest)) => {
                self.content(what, length, &PLAIN, argument, into);
                rest
            }
            None => &[],
        }
    }

    /// Shows a literal of any length.
    #[inline(never)]
    #[tactic(auto, using(fmt_forms::proofs::Gathering::put_shown))]
    fn any_literal(&self, literal: &Literal, into: &mut Tail<'_>)
        requires { IsWithin (length (source self.now).text) (a_literal literal.now) }
        ensures { Shows into.old into.new (literal_text (source self.now).text (Some literal.now)) }
    {
        into.put(&self.plan.text()[literal.start as usize..literal.end as usize]);
    }

    /// Shows the literal of a step, if there is one. Most have up to sixteen bytes, which the step keeps.
    #[inline(always)]
    fn literal(&self, step: &Step, into: &mut Tail<'_>)
        requires { IsPlaced (source self.now).text step.now }
        ensures { Shows into.old into.new (literal_text (source self.now).text step.now.literal) }
    {
        match &step.literal {
            Some(literal) => {
                let len = literal.end - literal.start;
                if len <= 16 {
                    into.put_front(&step.front, len as usize);
                } else {
                    self.any_literal(literal, into);
                }
            }
            None => {}
        }
    }

    /// Shows what follows a literal. Gives the arguments after those that it takes.
    #[inline(always)]
    #[tactic(auto, using(fmt_forms::proofs::Gathering::nothing_joined))]
    fn shown<'b>(&self, shown: &Shown, args: &'b [Argument], into: &mut Tail<'_>) -> &'b [Argument]
        requires { IfSome (shown_directive shown.now) (IsWithin (length (source self.now).text)) }
        ensures { Takes into.old into.new result.now (printed_some (source self.now) (shown_directive shown.now) (trees args.now)) }
    {
        match shown {
            Shown::Nothing => args,
            Shown::Again(literal) => {
                self.any_literal(literal, into);
                args
            }
            Shown::Signed(length) => {
                self.plain(Content::Number(Base::Signed), *length, args, into)
            }
            Shown::Unsigned(length) => {
                self.plain(Content::Number(Base::Unsigned), *length, args, into)
            }
            Shown::Text => self.plain(Content::Text, Length::Usual, args, into),
            Shown::Name => {
                self.plain(
                    Content::Pointer(PointerForm::Name),
                    Length::Usual,
                    args,
                    into,
                )
            }
            Shown::Pointer(form) => {
                self.plain(Content::Pointer(*form), Length::Usual, args, into)
            }
            Shown::Formed(what, spec) => self.formed(what, spec, args, into),
        }
    }

    /// Shows a step. Gives the arguments after those that it takes.
    #[inline(always)]
    fn step<'b>(&self, step: &Step, args: &'b [Argument], into: &mut Tail<'_>) -> &'b [Argument]
        requires { IsPlaced (source self.now).text step.now }
        ensures { Takes into.old into.new result.now (printed_step (source self.now) step.now (trees args.now)) }
    {
        self.literal(step, into);
        self.shown(&step.shown, args, into)
    }

    /// Shows the plan's steps, one after another.
    fn steps(&self, args: &[Argument], into: &mut Tail<'_>)
        ensures { Shows into.old into.new (printed (source self.now) (plan_view self.now.plan.now).directives (trees args.now)) }
    {
        let steps = self.plan.steps();
        let mut left = args;
        for step in steps {
            left = self.step(step, left, into);
        }
    }
}

/// Puts the text that a plan prints of a record.
pub fn print(plan: &PrintPlan, rec: &Rec<'_>, symbols: &Symbols, into: &mut Tail<'_>)
    ensures same_slice { lent into.new ≡ lent into.old }
    ensures value { held into.new ≡ put_held (held into.old) (print_text (plan_view plan.now) (given rec.now) symbols.now) }
{
    let printer = Printer { plan, rec, symbols };
    printer.steps(plan.folded(), into);
}
