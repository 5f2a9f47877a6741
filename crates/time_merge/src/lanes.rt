ghost use Rattle.std.specs.Prelude.{◌≡◌, ◌<◌, ◌≤◌, ℕ, List, All, length, map, option_map, slice_index_or, IfOk, OnOk};
ghost use Rattle.trace_outside.specs.Causes.{HasCause};
ghost use Rattle.subpage.specs.Arrangement.{CpusRise};
ghost use Rattle.page_pool.specs.declared.cursor.LaneState.TheVariants as state;
ghost use Rattle.page_pool.specs.declared.lane.Lane.{Lane};
ghost use Rattle.event_cursor.specs.Keys.{first_of};
ghost use Rattle.event_cursor.specs.Standing.{Stands, held_left, keyed_held};
ghost use Rattle.event_cursor.specs.Stepping.{head_view};
ghost use Rattle.time_merge.specs.LaneNexts.{HoldsLaneNext, IsLaneNext};
ghost use Rattle.time_merge.specs.LaneRows.{HasLayout, IsReady, next_of, parts_of};
ghost use Rattle.time_merge.specs.LaneSteps.{IsLaneStep};
ghost use Rattle.time_merge.specs.Loading.{LoadsLanes};
ghost use Rattle.time_merge.specs.Nexts.{IsInStep};
ghost use Rattle.time_merge.specs.Skipping.{IsLaneUsedUp};
ghost use Rattle.time_merge.specs.Unused.{IsUnused};

use crate::in_step::make_ready_by;
use crate::lane_nexts::{LaneNext, lane_next};
use crate::others::{Others, use_up};
use crate::readiness::Readiness;
use crate::setting::pool_over;
use event_cursor::{head, step};
use page_pool::{Lane, Pool};
use std::alloc::{AllocError, Global};
use std::marker::Model;
use subpage::Item;
use tournament_tree::TournamentTree;
use trace_base::{Layout, Part};
use trace_outside::{Failed, File};

/// The lanes of several processors over one file, gone through together by what comes next of each.
///
/// The processors' numbers rise, and the sub-buffers of all lanes have one layout. A contract sees this layout, the
/// lanes, and of which of them it is known what comes next.
#[derive(Drop)]
pub struct Lanes {
    layout: Layout,
    pool: Pool,
    // What comes next of each lane for which that is known.
    nexts: TournamentTree,
    readiness: Readiness,
}

impl Model for Lanes {
    ghost use Rattle.std.specs.Coded.{codes};
    ghost use Rattle.page_pool.specs.InOrder.{in_order_coded};
    ghost use Rattle.time_merge.specs.LanesSeen.{LanesSeen};

    ghost Value = { LanesSeen };

    ghost coded = { Prim.hlevel (codes, in_order_coded) };

    ghost use Rattle.time_merge.specs.LanesView.{lanes_view, AreLanes};

    ghost view = { lanes_view };

    ghost invariant = { AreLanes };
}

impl Lanes {
    /// Lanes over these parts, before their first items. They keep no lines.
    pub fn new(alloc: Global, layout: &Layout, parts: &[(u32, Part)]) -> Result<Lanes, AllocError>
        requires few { length parts.now ≤ 1024 }
        requires rise { CpusRise parts.now }
        ensures layout { IfOk result (λ lanes. lanes.layout ≡ layout.now) }
        ensures parts { IfOk result (λ lanes. parts_of lanes.all ≡ parts.now) }
        ensures unused { IfOk result (λ lanes. All (IsUnused layout.now 0) lanes.all) }
    {
        let pool = pool_over(alloc, layout, 0, parts)?;
        let nexts = TournamentTree::new(alloc, parts.len() as u32)?;
        Ok(Lanes {
            layout: *layout,
            pool,
            nexts,
            readiness: Readiness::Unready,
        })
    }

    /// All of them, to be looked at.
    #[inline]
    pub fn all(&self) -> &[Lane]
        ensures value { result.now ≡ self.now.all }
        ensures layouts { All (HasLayout self.now.layout) result.now }
    {
        self.pool.all()
    }

    /// Makes every lane ready. After the first call it looks at one lane alone, however many there are: that of which an item
    /// was used up. It takes no memory.
    ///
    /// # Errors
    /// `Failed` where a read failed. The lanes are not to be used again then.
    pub fn make_ready<F: File>(&mut self, file: &mut F) -> Result<(), Failed>
        ensures layout { self.new.layout ≡ self.old.layout }
        ensures loads { LoadsLanes F.File file.old file.new self.old.all self.new.all }
        ensures readiness { OnOk result (self.new.readiness ≡ Readiness.Ready) }
        ensures ready { OnOk result (All IsReady self.new.all) }
        ensures cause { HasCause (F.faults file.old) (F.faults file.new) result }
    {
        let used = self.readiness.used();
        self.readiness = Readiness::Unready;
        make_pool_ready(file, &mut self.pool, &mut self.nexts, used)?;
        self.readiness = Readiness::Ready;
        Ok(())
    }

    /// What comes next of the lanes, which are ready.
    pub fn next(&self) -> LaneNext
        requires { self.now.readiness ≡ Readiness.Ready }
        ensures holds { HoldsLaneNext self.now.all result }
        ensures next { (file : List ℕ) → All (Stands file) self.now.all
            → IsLaneNext file self.now.all result }
    {
        lane_next(self.pool.all(), &self.nexts)
    }

    /// The first item of a lane that is not used up, with its key. `None` exactly where the lane holds none.
    #[inline]
    pub fn head(&self, i: usize) -> Option<(u64, Item<'_>)>
        requires { i < length self.now.all }
        ensures { (d : Lane) → option_map (λ head. head_view (slice_index_or self.now.all i d).cpu head) result
            ≡ first_of (keyed_held (slice_index_or self.now.all i d)) }
    {
        let lanes = self.pool.all();
        head(&lanes[i])
    }

    /// Uses up the item that a lane holds, where all are ready.
    #[inline]
    pub fn step(&mut self, i: usize)
        requires ready { self.old.readiness ≡ Readiness.Ready }
        requires inside { i < length self.old.all }
        requires held { (d : Lane) → ((slice_index_or self.old.all i d).cursor.state ≡ state.Held)
            × (0 < length (held_left (slice_index_or self.old.all i d))) }
        ensures layout { self.new.layout ≡ self.old.layout }
        ensures stepped { IsLaneStep self.old.all i self.new.all }
    {
        step_in(&mut self.pool, i);
        self.readiness = Readiness::AllBut(i);
    }

    /// Uses up the item that a lane holds, where all are ready, and after it those that do not matter.
    pub fn use_up<O: Others>(&mut self, i: usize, others: &O)
        requires sound { O.is_sound others.now }
        requires ready { self.old.readiness ≡ Readiness.Ready }
        requires inside { i < length self.old.all }
        requires held { (d : Lane) → ((slice_index_or self.old.all i d).cursor.state ≡ state.Held)
            × (0 < length (held_left (slice_index_or self.old.all i d))) }
        ensures layout { self.new.layout ≡ self.old.layout }
        ensures used { IsLaneUsedUp (O.matters others.now) self.old.all i self.new.all }
    {
        use_up_in(&mut self.pool, i, others);
        self.readiness = Readiness::AllBut(i);
    }
}

// Makes the lanes of a pool ready, by a tree that is in step with them but for the lane of which an item was used up.
fn make_pool_ready<F: File>(
    file: &mut F,
    pool: &mut Pool,
    nexts: &mut TournamentTree,
    used: Option<usize>,
) -> Result<(), Failed>
    requires slots { length nexts.old ≡ length pool.old }
    requires in_step { IsInStep pool.old nexts.old used }
    ensures loads { LoadsLanes F.File file.old file.new pool.old pool.new }
    ensures nexts { OnOk result (nexts.new ≡ map next_of pool.new) }
    ensures slots { length nexts.new ≡ length nexts.old }
    ensures ready { OnOk result (All IsReady pool.new) }
    ensures cause { HasCause (F.faults file.old) (F.faults file.new) result }
{
    make_ready_by(file, pool.lanes(), nexts, used)?;
    Ok(())
}

// Uses up the item that a lane of a pool holds.
#[inline]
fn step_in(pool: &mut Pool, i: usize)
    requires inside { i < length pool.old }
    requires held { (d : Lane) → ((slice_index_or pool.old i d).cursor.state ≡ state.Held)
        × (0 < length (held_left (slice_index_or pool.old i d))) }
    ensures stepped { IsLaneStep pool.old i pool.new }
{
    let lanes = pool.lanes();
    step(&mut lanes[i]);
}

// Uses up the item that a lane of a pool holds, and after it those that do not matter.
fn use_up_in<O: Others>(pool: &mut Pool, i: usize, others: &O)
    requires sound { O.is_sound others.now }
    requires inside { i < length pool.old }
    requires held { (d : Lane) → ((slice_index_or pool.old i d).cursor.state ≡ state.Held)
        × (0 < length (held_left (slice_index_or pool.old i d))) }
    ensures used { IsLaneUsedUp (O.matters others.now) pool.old i pool.new }
{
    let lanes = pool.lanes();
    use_up(others, &mut lanes[i]);
}
