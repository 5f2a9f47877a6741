//! What a conversion takes of the arguments.

ghost use Rattle.std.specs.Prelude.{◌≡◌, map};
ghost use Rattle.std.specs.Option.{option_map};
ghost use Rattle.fmt_eval.specs.Values.{given};
ghost use Rattle.fmt_print.specs.ArgumentView.{argument_tree};
ghost use Rattle.fmt_print.specs.Arguments.{first_of, amount_of, taken};
ghost use Rattle.fmt_print.specs.Views.{taken_view};

use crate::argument::Argument;
use fmt_directives::{Amount, Spec};
use fmt_forms::{Form, form_of};
use trace_base::Rec;

/// The form of a conversion, its argument, and the arguments after it.
#[derive(Clone, Copy)]
pub struct Conversion<'a> {
    pub form: Form,
    pub argument: &'a Argument,
    pub rest: &'a [Argument],
}

/// The first argument, and those after it.
#[inline(always)]
#[tactic(auto, using(crate::proofs::ArgumentLemmas::first_none, crate::proofs::ArgumentLemmas::first_some))]
pub fn first_of(args: &[Argument]) -> Option<(&Argument, &[Argument])>
    ensures { option_map (λ a. (argument_tree a.0.now, map argument_tree a.1.now)) result ≡ first_of (map argument_tree args.now) }
{
    if args.is_empty() {
        return None;
    }
    Some((&args[0], &args[1..]))
}

/// An amount, and the arguments after it.
#[inline(always)]
fn amount_of<'a>(
    rec: &Rec<'_>,
    amount: Amount,
    args: &'a [Argument],
) -> Option<(Option<i128>, &'a [Argument])>
    ensures { option_map (λ a. (a.0, map argument_tree a.1.now)) result ≡ amount_of (given rec.now) amount (map argument_tree args.now) }
{
    match amount {
        Amount::Absent => Some((None, args)),
        Amount::Fixed(n) => Some((Some(n as i128), args)),
        Amount::FromArgument => {
            let (argument, rest) = first_of(args)?;
            Some((Some(argument.number(rec).exact()), rest))
        }
    }
}

/// What a conversion takes; none where an argument is missing.
#[inline(always)]
#[tactic(auto, unfolding(crate::specs::Arguments::taken))]
pub fn taken<'a>(rec: &Rec<'_>, spec: Spec, args: &'a [Argument]) -> Option<Conversion<'a>>
    ensures { option_map taken_view result ≡ taken (given rec.now) spec (map argument_tree args.now) }
{
    let (width, args) = amount_of(rec, spec.width, args)?;
    let (precision, args) = amount_of(rec, spec.precision, args)?;
    let (argument, rest) = first_of(args)?;
    Some(Conversion {
        form: form_of(spec, width, precision),
        argument,
        rest,
    })
}
