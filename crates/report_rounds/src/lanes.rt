ghost use Rattle.std.specs.Prelude.{◌≡◌, ◌≤◌, All, true, length, replicate, IfOk};
ghost use Rattle.subpage.specs.Arrangement.{CpusRise};
ghost use Rattle.time_merge.specs.LaneRows.{parts_of};

use page_pool::Pool;
use std::alloc::{AllocError, Global};
use std::marker::Model;
use time_merge::pool_over;
use tournament_tree::TournamentTree;
use trace_base::{Layout, Part};

/// The lanes of a report in rounds, before their first items.
///
/// All memory of the rounds is in them: a region of lines a lane, and what tells of the lanes which of them a round is to look
/// at. They have one layout. A contract sees it and the lanes.
#[derive(Drop)]
pub struct RoundLanes {
    pub(crate) layout: Layout,
    pub(crate) pool: Pool,
    // A tree for the lanes' first lines, and one for their greatest times.
    pub(crate) heads: TournamentTree,
    pub(crate) highs: TournamentTree,
    // The dirty bits: all are set, since the first round looks at every lane.
    pub(crate) moved: Vec<bool>,
}

impl Model for RoundLanes {
    ghost use Rattle.std.specs.Coded.{codes};
    ghost use Rattle.page_pool.specs.InOrder.{in_order_coded};
    ghost use Rattle.report_rounds.specs.LanesSeen.{LanesSeen};

    ghost Value = { LanesSeen };

    ghost coded = { Prim.hlevel (codes, in_order_coded) };

    ghost use Rattle.report_rounds.specs.LanesView.{lanes_view, AreAtStart};

    ghost view = { lanes_view };

    ghost invariant = { AreAtStart };
}

impl RoundLanes {
    /// Lanes over these parts, with regions of `room` bytes.
    pub fn new(
        alloc: Global,
        layout: &Layout,
        room: u32,
        parts: &[(u32, Part)],
    ) -> Result<RoundLanes, AllocError>
        requires few { length parts.now ≤ 1024 }
        requires rise { CpusRise parts.now }
        ensures layout { IfOk result (λ lanes. lanes.layout ≡ layout.now) }
        ensures parts { IfOk result (λ lanes. parts_of lanes.all ≡ parts.now) }
        ensures room { IfOk result (λ lanes. All (λ lane. lane.region.room ≡ room) lanes.all) }
    {
        let count = parts.len() as u32;
        let pool = pool_over(alloc, layout, room, parts)?;
        let heads = TournamentTree::new(alloc, count)?;
        let highs = TournamentTree::new(alloc, count)?;
        let moved = all_dirty(alloc, parts.len())?;
        Ok(RoundLanes {
            layout: *layout,
            pool,
            heads,
            highs,
            moved,
        })
    }
}

fn all_dirty(alloc: Global, count: usize) -> Result<Vec<bool>, AllocError>
    ensures { IfOk result (λ moved. moved.items ≡ replicate count true) }
{
    vec![in alloc; true; count]
}
