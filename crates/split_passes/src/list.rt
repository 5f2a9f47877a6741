ghost use Rattle.std.specs.Prelude.{◌≡◌, ◌-◌, ◌≤◌, ℕ, List, [], All, length, slice_index_or, IfOk, IfSome, IsErrOf, Ok, OnOk, Some};
ghost use Rattle.trace_outside.specs.Causes.{HasCause, Rose, raised};
ghost use Rattle.trace_outside.specs.Keeping.{KeepsFile, KeepsSink};
ghost use Rattle.trace_base.specs.declared.layout.Layout.{Layout};
ghost use Rattle.subpage.specs.Arrangement.{CpusRise};
ghost use Rattle.subpage.specs.ItemData.{ItemData};
ghost use Rattle.page_pool.specs.declared.lane.Lane.{Lane};
ghost use Rattle.event_cursor.specs.Standing.{Stands};
ghost use Rattle.time_merge.specs.LaneRows.{HasLayout, IsReady, parts_of};
ghost use Rattle.time_merge.specs.Loading.{LoadsLanes};
ghost use Rattle.time_merge.specs.Reads.{all_unread};
ghost use Rattle.time_merge.specs.Unused.{IsUnused};
ghost use Rattle.split_passes.specs.AllAgain.{AreFronts, IsPackedAll, TellsStop};
ghost use Rattle.split_passes.specs.Begun.{AreNoted, IsBegun};
ghost use Rattle.split_passes.specs.Measures.{IsMeasured, SkipsOver, Tallied};
ghost use Rattle.split_passes.specs.Packs.{GainsSome};
ghost use Rattle.split_passes.specs.Reads.{all_packing, numbers_of};
ghost use Rattle.split_passes.specs.Starting.{ListStarted};
ghost use Rattle.split_passes.specs.Tallies.{IsTally};
ghost use Rattle.split_passes.specs.Through.{GoThrough};
ghost use Rattle.split_passes.specs.declared.tally.Tally.{Tally};

use crate::measuring::{PieceEnd, measure};
use crate::start::pass_over;
use crate::tally::Tally;
use crate::whole::{clear, note_fronts, pack_all};
use event_cursor::Place;
use page_pool::{Lane, Pool};
use split_pieces::Gauge;
use std::alloc::{AllocError, Global};
use std::marker::Model;
use time_merge::{End, IoFault, make_all_ready, pool_over};
use tournament_tree::TournamentTree;
use trace_base::{Layout, Part};
use trace_outside::{Failed, File, Sink};
use word_values::Moment;

/// The lanes of a list that is cut into pieces, with what the second pass over a piece goes by: of each lane the place where the
/// piece begins, and the tally of what it takes.
///
/// The processors' numbers rise, and the lanes have the layout of the list. A contract sees the layout of their sub-buffers, the
/// lanes, the places and the tallies.
#[derive(Drop)]
pub struct LaneList {
    layout: Layout,
    pool: Pool,
    // What comes next of each lane, while items are gone through.
    nexts: TournamentTree,
    fronts: Vec<Place>,
    tallies: Vec<Tally>,
}

impl Model for LaneList {
    ghost use Rattle.std.specs.Coded.{codes};
    ghost use Rattle.page_pool.specs.InOrder.{in_order_coded};
    ghost use Rattle.split_passes.specs.ListSeen.{ListSeen};

    ghost Value = { ListSeen };

    ghost coded = { Prim.hlevel (codes, in_order_coded) };

    ghost use Rattle.split_passes.specs.ListView.{list_view, IsLaneList};

    ghost view = { list_view };

    ghost invariant = { IsLaneList };
}

impl LaneList {
    /// Lanes over these parts, before their first items. No other call takes memory.
    pub fn new(
        alloc: Global,
        layout: &Layout,
        parts: &[(u32, Part)],
    ) -> Result<LaneList, AllocError>
        requires few { length parts.now ≤ 1024 }
        requires rise { CpusRise parts.now }
        ensures layout { IfOk result (λ list. list.layout ≡ layout.now) }
        ensures parts { IfOk result (λ list. parts_of list.all ≡ parts.now) }
        ensures unused { IfOk result (λ list. All (IsUnused layout.now 0) list.all) }
    {
        let pool = pool_over(alloc, layout, 0, parts)?;
        let nexts = TournamentTree::new(alloc, parts.len() as u32)?;
        let fronts = no_places(alloc, parts.len())?;
        let tallies = no_tallies(alloc, parts.len())?;
        Ok(LaneList {
            layout: *layout,
            pool,
            nexts,
            fronts,
            tallies,
        })
    }

    /// The lanes, to be looked at.
    pub fn lanes(&self) -> &[Lane]
        ensures value { result.now ≡ self.now.all }
        ensures layouts { All (HasLayout self.now.layout) self.now.all }
    {
        self.pool.all()
    }

    /// The tally of each lane.
    pub fn tallies(&self) -> &[Tally]
        ensures value { result.now ≡ self.now.tallies }
        ensures long { length result.now ≡ length self.now.all }
    {
        self.tallies.as_slice()
    }

    /// Passes over the items that stand before the start, where there is one.
    ///
    /// # Errors
    /// `Failed` where a read failed.
    pub fn pass_over<F: File>(&mut self, file: &mut F, start: Option<Moment>) -> Result<(), Failed>
        ensures layout { self.new.layout ≡ self.old.layout }
        ensures layouts { All (HasLayout self.old.layout) self.old.all }
        ensures through { GoThrough F.File file.old file.new self.old.all self.new.all }
        ensures told { OnOk result (IfSome (F.bytes file.old) (λ bytes. All (Stands bytes) self.old.all
            → ListStarted bytes start self.old.all self.new.all)) }
        ensures reads_done { OnOk result (F.reads file.new ≤ raised (F.reads file.old)
            (all_unread (F.size file.old) self.old.all - all_unread (F.size file.old) self.new.all)) }
        ensures cause { HasCause (F.faults file.old) (F.faults file.new) result }
    {
        pass_in(file, &mut self.pool, start, &mut self.nexts)
    }

    /// Makes the lanes ready for a piece, and notes where they stand. Their tallies count nothing then.
    ///
    /// # Errors
    /// `Failed` where a read failed.
    pub fn begin<F: File>(&mut self, file: &mut F) -> Result<(), Failed>
        ensures layout { self.new.layout ≡ self.old.layout }
        ensures layouts { All (HasLayout self.old.layout) self.old.all }
        ensures loads { LoadsLanes F.File file.old file.new self.old.all self.new.all }
        ensures begun { OnOk result (IsBegun self.new) }
        ensures fronts_long { length self.new.fronts ≡ length self.new.all }
        ensures tallies_long { length self.new.tallies ≡ length self.new.all }
        ensures cause { HasCause (F.faults file.old) (F.faults file.new) result }
    {
        begin_in(file, &mut self.pool, &mut self.fronts, &mut self.tallies)
    }

    /// Goes through the items of a piece, in their order, and counts each lane's items and their sub-buffers.
    ///
    /// # Errors
    /// `Failed` where a read failed.
    pub fn measure<F: File>(
        &mut self,
        file: &mut F,
        stop: Option<Moment>,
        gauge: &mut Gauge,
    ) -> Result<PieceEnd, Failed>
        ensures layout { self.new.layout ≡ self.old.layout }
        ensures fronts { self.new.fronts ≡ self.old.fronts }
        ensures through { GoThrough F.File file.old file.new self.old.all self.new.all }
        ensures tallies_long { length self.new.tallies ≡ length self.new.all }
        ensures measured { IfOk result (λ end. IfSome (F.bytes file.old) (λ bytes. All (Stands bytes) self.old.all
            → Tallied self.old.all [] self.old.tallies
            → IsMeasured bytes stop (record { gauge = gauge.old; lanes = self.old.all })
            (record { gauge = gauge.new; lanes = self.new.all }) self.new.tallies end)) }
        ensures ready { OnOk result (All IsReady self.new.all) }
        ensures over { SkipsOver self.old.all self.old.tallies self.new.tallies }
        ensures cause { HasCause (F.faults file.old) (F.faults file.new) result }
    {
        measure_in(
            file,
            &mut self.pool,
            stop,
            gauge,
            &mut self.tallies,
            &mut self.nexts,
        )
    }

    /// Packs each lane's items of the piece, one lane after another, and leaves each where it stands after the piece. Of a lane
    /// whose front is in the sub-buffer that it holds nothing is read, and otherwise each sub-buffer from the front's on once.
    /// `page` is room for one sub-buffer.
    ///
    /// # Errors
    /// Whether a read or a write failed.
    pub fn pack<F: File, O: Sink>(
        &mut self,
        file: &mut F,
        page: &mut [u8],
        out: &mut O,
    ) -> Result<End, IoFault>
        requires whole { length page.old ≡ self.old.layout.page }
        ensures kept { self.new ≡ (record self.old { all = self.new.all }) }
        ensures parts { parts_of self.new.all ≡ parts_of self.old.all }
        ensures fronts_long { length self.old.fronts ≡ length self.old.all }
        ensures tallies_long { length self.old.tallies ≡ length self.old.all }
        ensures whole { length page.new ≡ self.old.layout.page }
        ensures told { IfSome (F.bytes file.old) (λ bytes. All (Stands bytes) self.old.all
            → (lists : List (List ItemData)) → AreFronts bytes self.old.all self.old.fronts self.old.tallies lists
            → IsPackedAll self.old.layout bytes lists (record { lanes = self.old.all; written = O.written out.old })
            (record { lanes = self.new.all; written = O.written out.new }) result) }
        // The next three hold of any file, also of one that gives other bytes than when the piece was measured.
        ensures malformed { TellsStop self.old.all self.new.all result }
        ensures gains { result ≡ Ok End.Done → GainsSome (O.written out.old) (O.written out.new) }
        ensures numbers { result ≡ Ok End.Done → numbers_of self.new.all ≡ numbers_of self.old.all }
        ensures reads { F.reads file.new ≤ raised (F.reads file.old)
            (all_packing (F.size file.old) self.old.all self.old.fronts self.old.tallies) }
        ensures read { IsErrOf result IoFault.Read → Rose (F.faults file.old) (F.faults file.new) }
        ensures write { IsErrOf result IoFault.Write → Rose (O.faults out.old) (O.faults out.new) }
        ensures keeps_out { KeepsSink O.Sink out.old out.new }
        ensures keeps { KeepsFile F.File file.old file.new }
    {
        pack_in(
            &self.layout,
            file,
            &mut self.pool,
            self.fronts.as_slice(),
            self.tallies.as_slice(),
            page,
            out,
        )
    }
}

fn no_places(alloc: Global, count: usize) -> Result<Vec<Place>, AllocError>
    ensures { IfOk result (λ places. length places.items ≡ count) }
{
    let place = Place {
        page: 0,
        at: 0,
        high: None,
    };
    vec![in alloc; place; count]
}

fn no_tallies(alloc: Global, count: usize) -> Result<Vec<Tally>, AllocError>
    ensures { IfOk result (λ tallies. length tallies.items ≡ count) }
{
    let mut tallies = Vec::with_capacity(alloc, count)?;
    for _ in 0..count {
        tallies.push(Tally::new())?;
    }
    Ok(tallies)
}

// The same over the parts of a list.
fn pass_in<F: File>(
    file: &mut F,
    pool: &mut Pool,
    start: Option<Moment>,
    nexts: &mut TournamentTree,
) -> Result<(), Failed>
    requires rise { CpusRise (parts_of pool.old) }
    requires slots { length nexts.old ≡ length pool.old }
    ensures through { GoThrough F.File file.old file.new pool.old pool.new }
    ensures slots { length nexts.new ≡ length nexts.old }
    ensures told { OnOk result (IfSome (F.bytes file.old) (λ bytes. All (Stands bytes) pool.old
        → ListStarted bytes start pool.old pool.new)) }
    ensures reads_done { OnOk result (F.reads file.new ≤ raised (F.reads file.old)
        (all_unread (F.size file.old) pool.old - all_unread (F.size file.old) pool.new)) }
    ensures cause { HasCause (F.faults file.old) (F.faults file.new) result }
{
    let Some(start) = start else {
        return Ok(());
    };
    pass_over(file, pool.lanes(), start, nexts)
}

fn begin_in<F: File>(
    file: &mut F,
    pool: &mut Pool,
    fronts: &mut Vec<Place>,
    tallies: &mut Vec<Tally>,
) -> Result<(), Failed>
    requires fronts_long { length fronts.old.items ≡ length pool.old }
    requires tallies_long { length tallies.old.items ≡ length pool.old }
    ensures loads { LoadsLanes F.File file.old file.new pool.old pool.new }
    ensures ready { OnOk result (All IsReady pool.new) }
    ensures noted { OnOk result (AreNoted pool.new fronts.new.items) }
    ensures none { OnOk result ((layout : Layout) → All (λ tally. IsTally layout tally []) tallies.new.items) }
    ensures fronts_long { length fronts.new.items ≡ length pool.new }
    ensures tallies_long { length tallies.new.items ≡ length pool.new }
    ensures cause { HasCause (F.faults file.old) (F.faults file.new) result }
{
    make_all_ready(file, pool.lanes())?;
    note_fronts(pool.all(), fronts.as_mut_slice());
    clear(tallies.as_mut_slice());
    Ok(())
}

fn measure_in<F: File>(
    file: &mut F,
    pool: &mut Pool,
    stop: Option<Moment>,
    gauge: &mut Gauge,
    tallies: &mut Vec<Tally>,
    nexts: &mut TournamentTree,
) -> Result<PieceEnd, Failed>
    requires rise { CpusRise (parts_of pool.old) }
    requires long { length tallies.old.items ≡ length pool.old }
    requires slots { length nexts.old ≡ length pool.old }
    ensures through { GoThrough F.File file.old file.new pool.old pool.new }
    ensures slots { length nexts.new ≡ length nexts.old }
    ensures long { length tallies.new.items ≡ length pool.new }
    ensures measured { IfOk result (λ end. IfSome (F.bytes file.old) (λ bytes. All (Stands bytes) pool.old
        → Tallied pool.old [] tallies.old.items
        → IsMeasured bytes stop (record { gauge = gauge.old; lanes = pool.old }) (record { gauge = gauge.new; lanes = pool.new })
        tallies.new.items end)) }
    ensures ready { OnOk result (All IsReady pool.new) }
    ensures over { SkipsOver pool.old tallies.old.items tallies.new.items }
    ensures cause { HasCause (F.faults file.old) (F.faults file.new) result }
{
    measure(
        file,
        pool.lanes(),
        stop,
        gauge,
        tallies.as_mut_slice(),
        nexts,
    )
}

fn pack_in<F: File, O: Sink>(
    layout: &Layout,
    file: &mut F,
    pool: &mut Pool,
    fronts: &[Place],
    tallies: &[Tally],
    page: &mut [u8],
    out: &mut O,
) -> Result<End, IoFault>
    requires layouts { All (HasLayout layout.now) pool.old }
    requires whole { length page.old ≡ layout.now.page }
    requires fronts { length fronts.now ≡ length pool.old }
    requires tallies { length tallies.now ≡ length pool.old }
    ensures layouts { All (HasLayout layout.now) pool.new }
    ensures parts { parts_of pool.new ≡ parts_of pool.old }
    ensures whole { length page.new ≡ layout.now.page }
    ensures told { IfSome (F.bytes file.old) (λ bytes. All (Stands bytes) pool.old
        → (lists : List (List ItemData)) → AreFronts bytes pool.old fronts.now tallies.now lists
        → IsPackedAll layout.now bytes lists (record { lanes = pool.old; written = O.written out.old })
        (record { lanes = pool.new; written = O.written out.new }) result) }
    ensures malformed { TellsStop pool.old pool.new result }
    ensures gains { result ≡ Ok End.Done → GainsSome (O.written out.old) (O.written out.new) }
    ensures numbers { result ≡ Ok End.Done → numbers_of pool.new ≡ numbers_of pool.old }
    ensures reads { F.reads file.new ≤ raised (F.reads file.old)
        (all_packing (F.size file.old) pool.old fronts.now tallies.now) }
    ensures read { IsErrOf result IoFault.Read → Rose (F.faults file.old) (F.faults file.new) }
    ensures write { IsErrOf result IoFault.Write → Rose (O.faults out.old) (O.faults out.new) }
    ensures keeps_out { KeepsSink O.Sink out.old out.new }
    ensures keeps { KeepsFile F.File file.old file.new }
{
    pack_all(layout, file, pool.lanes(), fronts, tallies, page, out)
}
