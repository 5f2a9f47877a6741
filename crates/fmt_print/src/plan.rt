ghost use Rattle.std.specs.Prelude.{◌≡◌, length, map};
ghost use Rattle.std.specs.List.{All, flat_map};
ghost use Rattle.std.proofs.Props.{props};
ghost use Rattle.fmt_directives.specs.Directives.{IsWithin};
ghost use Rattle.fmt_directives.proofs.Withins.{within_prop};
ghost use Rattle.fmt_expr.specs.TreeView.{tree_of};
ghost use Rattle.fmt_fold.specs.Same.{SameTrees};
ghost use Rattle.fmt_print.specs.ArgumentView.{argument_tree};
ghost use Rattle.fmt_print.specs.Steps.{directives_of, front_of, front_in, IsPlaced};
ghost use Rattle.std.specs.Coded.{codes};

use crate::argument::Argument;
use crate::step::Step;
use fmt_directives::Directive;
use fmt_expr::Expr;
use trace_base::{ByteText, ListOf};

/// A print fmt whose format text was read: its directives, and the arguments that they show. Contracts see it as a `Plan`.
#[derive(Drop)]
pub struct PrintPlan {
    pub(crate) text: ByteText,
    pub(crate) directives: Vec<Directive>,
    /// The directives, by how they are shown.
    pub(crate) steps: Vec<Step>,
    pub(crate) args: ListOf<Expr>,
    /// The arguments as they are computed: each the same over every record.
    pub(crate) folded: Vec<Argument>,
    pub(crate) long: u32,
    ghost within: { All (IsWithin (length text)) directives.items } by { Prim.hlevel (props, within_prop) },
    ghost shown: { flat_map directives_of steps.items ≡ directives.items } by { Prim.hlevel (props, codes) },
    ghost copied: { map front_of steps.items ≡ map (front_in text) steps.items } by { Prim.hlevel (props, codes) },
    ghost same: { SameTrees (map argument_tree folded.items) (map tree_of args) } by { Prim.hlevel props },
}

impl PrintPlan {
    ghost use Rattle.fmt_print.specs.PlanView.{plan_view};

    /// The format text, with its escapes resolved. The places of a literal are places in it.
    pub fn text(&self) -> &[u8]
        ensures { result.now ≡ (plan_view self.now).text }
    {
        self.text.as_bytes()
    }

    /// The directives that spell the format text, in order.
    pub fn directives(&self) -> &[Directive]
        ensures value { result.now ≡ (plan_view self.now).directives }
        ensures within { All (IsWithin (length (plan_view self.now).text)) result.now }
    {
        self.directives.as_slice()
    }

    /// The steps that show the directives, in order.
    pub(crate) fn steps(&self) -> &[Step]
        ensures value { flat_map directives_of result.now ≡ (plan_view self.now).directives }
        ensures within { All (IsPlaced (plan_view self.now).text) result.now }
    {
        self.steps.as_slice()
    }

    /// The arguments, in order.
    pub fn args(&self) -> &[Expr]
        ensures { map tree_of result.now ≡ (plan_view self.now).args }
    {
        self.args.as_slice()
    }

    /// Arguments that are the same over every record, with their constant parts computed.
    pub(crate) fn folded(&self) -> &[Argument]
        ensures { SameTrees (map argument_tree result.now) (plan_view self.now).args }
    {
        self.folded.as_slice()
    }

    /// The kernel's long size in bytes.
    pub fn long(&self) -> u32
        ensures { result ≡ (plan_view self.now).long }
    {
        self.long
    }
}
