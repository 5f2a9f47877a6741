ghost use Rattle.std.specs.Prelude.{◌≡◌, ◌<◌, ◌≤◌, [], Err, All, IfOk, IfSome, OnOk, length, filter, sum_by};
ghost use Rattle.trace_outside.specs.Causes.{Rose, raised};
ghost use Rattle.trace_outside.specs.Keeping.{KeepsFile};
ghost use Rattle.subpage.specs.Arrangement.{CpusRise};
ghost use Rattle.subpage.specs.Cut.{cut_of, reached_of};
ghost use Rattle.subpage.specs.CutPlaces.{place_of};
ghost use Rattle.page_pool.specs.declared.lane.Lane.{Lane};
ghost use Rattle.time_merge.specs.LaneNexts.{cut_at};
ghost use Rattle.time_merge.specs.LaneRows.{parts_of};
ghost use Rattle.time_merge.specs.Skipping.{by_item};
ghost use Rattle.time_merge.specs.Unused.{IsUnused};
ghost use Rattle.item_pass.specs.Faults.{KeptUnlessRead};
ghost use Rattle.item_pass.specs.Gathering.{cut_place};
ghost use Rattle.item_pass.specs.declared.passing.PassFault.TheVariants.{Read};

use crate::gatherer::Gatherer;
use crate::taking::take_head;
use std::alloc::Global;
use subpage::CutPlace;
use thiserror::Error;
use time_merge::{LaneNext, Lanes};
use trace_base::{Layout, Part};
use trace_outside::{Failed, File};

/// Why a pass, or the gathering that it is part of, ended early.
#[derive(Clone, Copy, Debug, PartialEq, Eq, Error)]
pub enum PassFault {
    /// A read failed. The lanes are not to be used again.
    #[error("read failed")]
    Read,
    /// There is no memory.
    #[error("out of memory")]
    Memory,
}

impl From<Failed> for PassFault {
    ghost from_gives = { λ failed fault. fault ≡ Read };

    fn from(_failed: Failed) -> PassFault {
        PassFault::Read
    }
}

/// Gathers of all reached items of these processors that matter, in their order, and tells the processor and the number of the
/// first malformed sub-buffer in the order of the items, if there is one. Each sub-buffer is read once. A malformed one is no
/// fault: the items end before it. The memory of all processors is taken here and given back, but for what the gatherer takes.
pub fn pass<G: Gatherer, F: File>(
    alloc: Global,
    gatherer: &G,
    layout: &Layout,
    file: &mut F,
    parts: &[(u32, Part)],
    gathered: &mut G::Gathered,
) -> Result<Option<CutPlace>, PassFault>
    requires few { length parts.now ≤ 1024 }
    requires rise { CpusRise parts.now }
    requires sound { G.is_sound gatherer.now }
    requires none { G.holds gatherer.now [] gathered.old }
    ensures gathered { OnOk result (IfSome (F.bytes file.old) (λ bytes. G.holds gatherer.now
        (filter (by_item (G.matters gatherer.now)) (reached_of layout.now bytes parts.now)) gathered.new)) }
    ensures cut { IfOk result (λ cut. IfSome (F.bytes file.old) (λ bytes.
        cut ≡ cut_place (cut_of layout.now bytes parts.now))) }
    ensures reads { F.reads file.new
        ≤ raised (F.reads file.old) (sum_by (λ part. part.1.size) parts.now) }
    ensures read { result ≡ Err PassFault.Read → Rose (F.faults file.old) (F.faults file.new) }
    ensures kept { KeptUnlessRead (F.faults file.old) (F.faults file.new) result }
    ensures keeps { KeepsFile F.File file.old file.new }
{
    let Ok(mut lanes) = Lanes::new(alloc, layout, parts) else {
        return Err(PassFault::Memory);
    };
    pass_lanes(gatherer, file, &mut lanes, gathered)
}

// The same over lanes before their first items.
fn pass_lanes<G: Gatherer, F: File>(
    gatherer: &G,
    file: &mut F,
    lanes: &mut Lanes,
    gathered: &mut G::Gathered,
) -> Result<Option<CutPlace>, PassFault>
    requires unused { All (IsUnused lanes.old.layout 0) lanes.old.all }
    requires sound { G.is_sound gatherer.now }
    requires none { G.holds gatherer.now [] gathered.old }
    ensures gathered { OnOk result (IfSome (F.bytes file.old) (λ bytes. G.holds gatherer.now
        (filter (by_item (G.matters gatherer.now)) (reached_of lanes.old.layout bytes (parts_of lanes.old.all))) gathered.new)) }
    ensures cut { IfOk result (λ cut. IfSome (F.bytes file.old) (λ bytes.
        cut ≡ cut_place (cut_of lanes.old.layout bytes (parts_of lanes.old.all)))) }
    ensures reads { F.reads file.new
        ≤ raised (F.reads file.old) (sum_by (λ part. part.1.size) (parts_of lanes.old.all)) }
    ensures read { result ≡ Err PassFault.Read → Rose (F.faults file.old) (F.faults file.new) }
    ensures kept { KeptUnlessRead (F.faults file.old) (F.faults file.new) result }
    ensures keeps { KeepsFile F.File file.old file.new }
{
    loop {
        lanes.make_ready(file)?;
        match lanes.next() {
            LaneNext::Item(i) => match take_head(gatherer, lanes, i, gathered) {
                Ok(()) => lanes.use_up(i, gatherer),
                Err(_) => return Err(PassFault::Memory),
            },
            LaneNext::Cut(i) => return Ok(Some(place_before(lanes, i))),
            LaneNext::Done => return Ok(None),
        }
    }
}

// Which sub-buffer a lane stands before.
fn place_before(lanes: &Lanes, i: usize) -> CutPlace
    requires { i < length lanes.now.all }
    ensures { (d : Lane) → result ≡ place_of (cut_at lanes.now.all i d) }
{
    let lane = &lanes.all()[i];
    CutPlace {
        cpu: lane.cpu,
        page: lane.cursor.next,
    }
}
