// The lists that a split cuts.

ghost use Rattle.std.specs.Prelude.{◌≡◌, ◌<◌, ◌≤◌, All, length, IfOk};
ghost use Rattle.subpage.specs.Arrangement.{CpusRise};
ghost use Rattle.page_pool.specs.Fresh.{IsFresh};
ghost use Rattle.time_merge.specs.LaneRows.{parts_of};
ghost use Rattle.split_tool.specs.Lists.{lanes_of};
ghost use Rattle.split_tool.specs.Work.{AreLists, AreOwn, IsAlone};

use dat_header::Header;
use split_passes::LaneList;
use split_pieces::Rules;
use std::alloc::{AllocError, Global};
use trace_base::{Layout, Part};

/// The lists that are cut by these rules of processors' parts, before their first items: all lanes in one, or each lane in one of
/// its own.
pub fn lists_over(
    alloc: Global,
    rules: &Rules,
    header: &Header,
    parts: &[(u32, Part)],
) -> Result<Vec<LaneList>, AllocError>
    requires few { length parts.now ≤ 1024 }
    requires rise { CpusRise parts.now }
    requires cpus { All (λ part. part.0 < header.now.cpus) parts.now }
    ensures lists { IfOk result (λ lists. AreLists rules.now header.now lists.items) }
    ensures parts { IfOk result (λ lists. parts_of (lanes_of lists.items) ≡ parts.now) }
    ensures fresh { IfOk result (λ lists. All (λ lane. IsFresh lane.cursor) (lanes_of lists.items)) }
{
    if rules.is_apart() {
        own_lists(alloc, &header.layout, parts)
    } else {
        one_list(alloc, &header.layout, parts)
    }
}

// All lanes in one.
fn one_list(
    alloc: Global,
    layout: &Layout,
    parts: &[(u32, Part)],
) -> Result<Vec<LaneList>, AllocError>
    requires few { length parts.now ≤ 1024 }
    requires rise { CpusRise parts.now }
    ensures { IfOk result (λ lists. IsAlone layout.now parts.now lists.items) }
{
    let mut lists = Vec::with_capacity(alloc, 1)?;
    lists.push(LaneList::new(alloc, layout, parts)?)?;
    Ok(lists)
}

// Each lane in one of its own.
fn own_lists(
    alloc: Global,
    layout: &Layout,
    parts: &[(u32, Part)],
) -> Result<Vec<LaneList>, AllocError>
    ensures { IfOk result (λ lists. AreOwn layout.now parts.now lists.items) }
{
    let mut lists = Vec::with_capacity(alloc, parts.len())?;
    for i in 0..parts.len() {
        lists.push(LaneList::new(alloc, layout, &[parts[i]])?)?;
    }
    Ok(lists)
}
