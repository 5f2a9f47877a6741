ghost use Rattle.std.specs.Prelude.{◌≡◌, ◌≤◌, Err, IfOk, IfSome, length, sum_by};
ghost use Rattle.trace_outside.specs.Causes.{Rose, raised};
ghost use Rattle.trace_outside.specs.Keeping.{KeepsFile};
ghost use Rattle.subpage.specs.Arrangement.{CpusRise};
ghost use Rattle.subpage.specs.Cut.{cut_of};
ghost use Rattle.item_pass.specs.Faults.{KeptUnlessRead};
ghost use Rattle.graph_report.specs.Gathered.{reached_calls, cut_place};

use crate::call_gatherer::CallGatherer;
use call_pairs::{Call, Tracing};
use format_index::FormatRoles;
use item_pass::{PassFault, pass};
use report_print::Context;
use std::alloc::Global;
use subpage::CutPlace;
use trace_base::{Layout, Part};
use trace_outside::File;

/// The calls of a trace, and where its items end before their end.
#[derive(Drop)]
pub struct Calls {
    /// One for each entry, exit and loss, in the order in which they happened.
    pub list: Vec<Call>,
    /// The processor and the number of the first malformed sub-buffer in the order of the items; `None` exactly where there is
    /// none.
    pub cut: Option<CutPlace>,
}

/// Gathers the calls of all reached items of these processors, whatever the filters of the context.
///
/// It takes memory for what the events of each format are, for 64 bytes a call, and for what is open. Each sub-buffer is read
/// once. A malformed sub-buffer is no fault: the items end before it.
pub fn gather_calls<F: File>(
    alloc: Global,
    context: &Context,
    layout: &Layout,
    file: &mut F,
    parts: &[(u32, Part)],
) -> Result<Calls, PassFault>
    requires few { length parts.now ≤ 1024 }
    requires rise { CpusRise parts.now }
    ensures list { IfSome (F.bytes file.old) (λ bytes. IfOk result (λ calls. calls.list.items ≡ reached_calls context.now layout.now bytes parts.now)) }
    ensures cut { IfSome (F.bytes file.old) (λ bytes. IfOk result (λ calls. calls.cut ≡ cut_place (cut_of layout.now bytes parts.now))) }
    ensures reads { F.reads file.new ≤ raised (F.reads file.old) (sum_by (λ part. part.1.size) parts.now) }
    ensures read { result ≡ Err PassFault.Read → Rose (F.faults file.old) (F.faults file.new) }
    ensures kept { KeptUnlessRead (F.faults file.old) (F.faults file.new) result }
    ensures keeps { KeepsFile F.File file.old file.new }
{
    let Ok(roles) = FormatRoles::of(alloc, context.formats()) else {
        return Err(PassFault::Memory);
    };
    let gatherer = CallGatherer {
        context,
        roles: &roles,
    };
    let mut tracing = Tracing::new(alloc);
    let cut = pass(alloc, &gatherer, layout, file, parts, &mut tracing)?;
    Ok(Calls {
        list: tracing.into_calls(),
        cut,
    })
}
