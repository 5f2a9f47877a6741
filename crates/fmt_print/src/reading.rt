//! Format texts, read into plans.

ghost use Rattle.std.specs.Prelude.{◌≡◌, IfOk, IfSome, IfNone, map};
ghost use Rattle.std.specs.Option.{option_map};
ghost use Rattle.fmt_expr.specs.FmtView.{fmt_of};
ghost use Rattle.fmt_expr.specs.TreeView.{tree_of};
ghost use Rattle.fmt_fold.specs.Same.{SameTrees};
ghost use Rattle.fmt_print.specs.ArgumentView.{argument_tree};
ghost use Rattle.fmt_print.specs.Plan.{IsPlanOf, IsUnread, plan_of};
ghost use Rattle.fmt_print.specs.PlanView.{plan_view};

use crate::argument::Argument;
use crate::plan::PrintPlan;
use crate::step::steps_of;
use fmt_directives::directives;
use fmt_expr::{Expr, PrintFmt};
use fmt_fold::folded;
use std::alloc::{AllocError, Global};

/// Arguments that are each the same over every record, with their constant parts computed.
#[tactic(auto, using(crate::proofs::Folding::arguments_none, crate::proofs::Folding::arguments_more, crate::proofs::Folding::arguments_all))]
fn folded_arguments(alloc: Global, args: &[Expr]) -> Result<Vec<Argument>, AllocError>
    ensures { IfOk result (λ made. SameTrees (map argument_tree made.items) (map tree_of args.now)) }
{
    let mut made = Vec::with_capacity(alloc, args.len())?;
    for arg in args {
        made.push(Argument::new(folded(alloc, arg)?))?;
    }
    Ok(made)
}

/// Reads the format text of a print fmt. None exactly where a conversion in it is not listed, or where it is longer than
/// 2^32 - 1 bytes.
///
/// # Errors
///
/// Want of memory alone.
#[tactic(auto, unfolding(crate::specs::Plan::plan_of))]
pub fn compile(alloc: Global, fmt: PrintFmt) -> Result<Option<PrintPlan>, AllocError>
    ensures found { IfOk result (λ plan. IfSome plan (λ p. IsPlanOf (fmt_of fmt) (plan_view p))) }
    ensures none { IfOk result (λ plan. IfNone plan (IsUnread fmt.text)) }
    ensures exact { IfOk result (λ plan. option_map plan_view plan ≡ plan_of (fmt_of fmt)) }
{
    let PrintFmt { text, args, long } = fmt;
    if text.as_bytes().len() > u32::MAX as usize {
        return Ok(None);
    }
    let Some(directives) = directives(alloc, text.as_bytes())? else {
        return Ok(None);
    };
    let steps = steps_of(alloc, text.as_bytes(), directives.as_slice())?;
    let folded = folded_arguments(alloc, args.as_slice())?;
    Ok(Some(PrintPlan {
        text,
        directives,
        steps,
        args,
        folded,
        long,
    }))
}
