ghost use Rattle.std.specs.Prelude.{◌≡◌, ◌≤◌, IfOk, IfSome, Err, length, sum_by};
ghost use Rattle.trace_outside.specs.Causes.{Rose, raised};
ghost use Rattle.trace_outside.specs.Keeping.{KeepsFile};
ghost use Rattle.subpage.specs.Arrangement.{CpusRise};
ghost use Rattle.subpage.specs.Cut.{reached_of};
ghost use Rattle.item_pass.specs.Faults.{KeptUnlessRead};
ghost use Rattle.wakeup_pairs.specs.Pairs.{ArePairs};
ghost use Rattle.wakeup_lat.specs.Roles.{all_seen};

use crate::wakeup_gatherer::WakeupGatherer;
use format_index::FormatRoles;
use item_pass::{PassFault, pass};
use report_print::Context;
use std::alloc::Global;
use trace_base::{Layout, Part};
use trace_outside::File;
use wakeup_pairs::Wakeups;

/// The pairs of wake-ups and switches among the reached items of these processors, whose numbers rise. A malformed
/// sub-buffer ends these items, and is no fault. Each sub-buffer is read once, and the memory of all is taken here and given
/// back, but for the pairs.
pub fn gather<F: File>(
    alloc: Global,
    context: &Context,
    layout: &Layout,
    file: &mut F,
    parts: &[(u32, Part)],
) -> Result<Wakeups, PassFault>
    requires few { length parts.now ≤ 1024 }
    requires rise { CpusRise parts.now }
    ensures pairs { IfSome (F.bytes file.old) (λ bytes. IfOk result (λ wakeups.
        ArePairs (all_seen context.now (reached_of layout.now bytes parts.now)) wakeups.pairs)) }
    ensures read { result ≡ Err PassFault.Read → Rose (F.faults file.old) (F.faults file.new) }
    ensures kept { KeptUnlessRead (F.faults file.old) (F.faults file.new) result }
    ensures reads { F.reads file.new ≤ raised (F.reads file.old) (sum_by (λ part. part.1.size) parts.now) }
    ensures keeps { KeepsFile F.File file.old file.new }
{
    let Ok(roles) = FormatRoles::of(alloc, context.formats()) else {
        return Err(PassFault::Memory);
    };
    let gatherer = WakeupGatherer {
        context,
        roles: &roles,
    };
    let mut wakeups = Wakeups::new(alloc);
    pass(alloc, &gatherer, layout, file, parts, &mut wakeups)?;
    Ok(wakeups)
}
