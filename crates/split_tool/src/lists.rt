// The lists that one file takes its pieces of.

ghost use Rattle.std.specs.Prelude.{◌≡◌, ◌-◌, ◌≤◌, ◌&&◌, ◌||◌, false, not, List, [], All, IfOk, IfSome, IsErrOf, None, Ok, OnOk, length};
ghost use Rattle.std.specs.Option.{option_or};
ghost use Rattle.trace_outside.specs.Causes.{HasCause, Rose, raised};
ghost use Rattle.trace_outside.specs.Keeping.{KeepsFile, KeepsSink};
ghost use Rattle.subpage.specs.Arrangement.{Keyed};
ghost use Rattle.event_cursor.specs.Standing.{Stands};
ghost use Rattle.time_merge.specs.LaneRows.{IsReady};
ghost use Rattle.time_merge.specs.Reads.{all_unread};
ghost use Rattle.split_pieces.specs.Gauging.{closes_by};
ghost use Rattle.split_passes.specs.AllAgain.{IsPackedAll, TellsHeld, owns};
ghost use Rattle.split_passes.specs.Measures.{SkipsOver, Tallied};
ghost use Rattle.split_passes.specs.Packs.{GainsSome};
ghost use Rattle.split_passes.specs.Reads.{numbers_of};
ghost use Rattle.split_passes.specs.Through.{GoThrough};
ghost use Rattle.split_tool.specs.Going.{KeepsList, ListBegun, ListDone, ListsGo, StaysToCome};
ghost use Rattle.split_tool.specs.Lists.{EachList, lanes_of};
ghost use Rattle.split_tool.specs.Made.{AreFrontsOf};
ghost use Rattle.split_tool.specs.Measured.{FileMeasured, ListMeasured, bad_of_end, is_full};
ghost use Rattle.split_tool.specs.Reads.{lists_packing};
ghost use Rattle.split_tool.specs.Work.{AreLists, HasOwnLayouts};

use crate::splitting::SplitPlan;
use split_passes::{LaneList, PieceEnd};
use split_pieces::{Gauge, Rules};
use subpage::CutPlace;
use time_merge::{End, IoFault};
use trace_outside::{Failed, File, Sink};

/// What is left after a file's pieces.
#[derive(Clone, Copy, Debug, PartialEq, Eq)]
pub(crate) struct Ends {
    /// A list has an item left that its unit leaves to the next file.
    pub(crate) more: bool,
    /// The first list that nothing closed ends before this malformed sub-buffer.
    pub(crate) bad: Option<CutPlace>,
}

impl Ends {
    // Of no list.
    fn none() -> Ends
        ensures more { result.more ≡ false }
        ensures bad { result.bad ≡ None }
    {
        Ends {
            more: false,
            bad: None,
        }
    }

    // With the piece of a further list.
    fn and(self, end: PieceEnd, closed: bool) -> Ends
        ensures more { result.more ≡ (self.more || is_full end) }
        ensures bad { result.bad ≡ option_or self.bad (bad_of_end end closed) }
    {
        Ends {
            more: self.more || is_full(end),
            bad: self.bad.or(bad_of_end(end, closed)),
        }
    }
}

fn is_full(end: PieceEnd) -> bool
    ensures { result ≡ is_full end }
{
    match end {
        PieceEnd::Full => true,
        PieceEnd::Past => false,
        PieceEnd::Done => false,
        PieceEnd::Malformed(_) => false,
    }
}

// The malformed sub-buffer after a list, unless something closed it.
fn bad_of_end(end: PieceEnd, closed: bool) -> Option<CutPlace>
    ensures { result ≡ bad_of_end end closed }
{
    match end {
        PieceEnd::Malformed(cut) => {
            if closed {
                return None;
            }
            Some(cut)
        }
        PieceEnd::Full => None,
        PieceEnd::Past => None,
        PieceEnd::Done => None,
    }
}

// Whether the unit of the one file closes its list, though nothing follows.
fn is_closed(repeat: bool, gauge: &Gauge) -> bool
    ensures { result ≡ (not repeat && closes_by gauge.now []) }
{
    !repeat && gauge.is_full()
}

// Measures the piece of one list.
fn measure_list<F: File>(
    rules: &Rules,
    file: &mut F,
    list: &mut LaneList,
    before: Ends,
) -> Result<Ends, Failed>
    ensures layout { list.new.layout ≡ list.old.layout }
    ensures fronts { list.new.fronts ≡ list.old.fronts }
    ensures through { GoThrough F.File file.old file.new list.old.all list.new.all }
    ensures long { length list.new.tallies ≡ length list.new.all }
    ensures told { IfOk result (λ ends. IfSome (F.bytes file.old) (λ bytes. All (Stands bytes) list.old.all
        → Tallied list.old.all [] list.old.tallies
        → ListMeasured bytes rules.now (record { lanes = list.old.all; ends = before })
        (record { lanes = list.new.all; ends = ends }) list.new.tallies)) }
    ensures ready { OnOk result (All IsReady list.new.all) }
    ensures over { SkipsOver list.old.all list.old.tallies list.new.tallies }
    ensures reads_done { OnOk result (F.reads file.new ≤ raised (F.reads file.old)
        (all_unread (F.size file.old) list.old.all - all_unread (F.size file.old) list.new.all)) }
    ensures cause { HasCause (F.faults file.old) (F.faults file.new) result }
{
    let mut gauge = Gauge::new(rules.unit);
    let end = list.measure(file, rules.stop, &mut gauge)?;
    let closed = is_closed(rules.repeat, &gauge);
    Ok(before.and(end, closed))
}

/// Measures the pieces of a file, list by list.
///
/// # Errors
/// `Failed` where a read failed.
pub(crate) fn measure_lists<F: File>(
    plan: &SplitPlan<'_>,
    file: &mut F,
    lists: &mut [LaneList],
) -> Result<Ends, Failed>
    requires { AreLists plan.now.rules plan.now.header.now lists.old }
    ensures go { ListsGo F.File file.old file.new lists.old lists.new }
    ensures told { IfOk result (λ ends. IfSome (F.bytes file.old) (λ bytes. All (Stands bytes) (lanes_of lists.old)
        → All ListBegun lists.old
        → FileMeasured bytes plan.now.rules lists.old lists.new ends)) }
    ensures done { OnOk result (EachList ListDone lists.old lists.new) }
    ensures reads_done { OnOk result (F.reads file.new ≤ raised (F.reads file.old)
        (all_unread (F.size file.old) (lanes_of lists.old)
        - all_unread (F.size file.old) (lanes_of lists.new))) }
    ensures cause { HasCause (F.faults file.old) (F.faults file.new) result }
{
    let mut ends = Ends::none();
    for i in 0..lists.len() {
        ends = measure_list(&plan.rules, file, &mut lists[i], ends)?;
    }
    Ok(ends)
}

/// Makes each list ready for its next piece.
///
/// # Errors
/// `Failed` where a read failed.
pub(crate) fn begin_lists<F: File>(
    plan: &SplitPlan<'_>,
    file: &mut F,
    lists: &mut [LaneList],
) -> Result<(), Failed>
    requires { AreLists plan.now.rules plan.now.header.now lists.old }
    ensures go { ListsGo F.File file.old file.new lists.old lists.new }
    ensures layouts { OnOk result (All HasOwnLayouts lists.old) }
    ensures begun { OnOk result (All ListBegun lists.new) }
    ensures told { OnOk result (IfSome (F.bytes file.old) (λ bytes.
        StaysToCome bytes (lanes_of lists.old) (lanes_of lists.new))) }
    ensures reads_done { OnOk result (F.reads file.new ≤ raised (F.reads file.old)
        (all_unread (F.size file.old) (lanes_of lists.old)
        - all_unread (F.size file.old) (lanes_of lists.new))) }
    ensures cause { HasCause (F.faults file.old) (F.faults file.new) result }
{
    for i in 0..lists.len() {
        lists[i].begin(file)?;
    }
    Ok(())
}

/// Packs the pieces of all lists, one list after another. `page` is room for one sub-buffer.
///
/// # Errors
/// Whether a read or a write failed.
pub(crate) fn pack_lists<F: File, O: Sink>(
    plan: &SplitPlan<'_>,
    file: &mut F,
    lists: &mut [LaneList],
    page: &mut [u8],
    out: &mut O,
) -> Result<End, IoFault>
    requires lists { AreLists plan.now.rules plan.now.header.now lists.old }
    requires whole { length page.old ≡ plan.now.header.now.layout.page }
    ensures kept { EachList KeepsList lists.old lists.new }
    ensures long { length lists.new ≡ length lists.old }
    ensures whole { length page.new ≡ plan.now.header.now.layout.page }
    ensures told { IfSome (F.bytes file.old) (λ bytes. All (Stands bytes) (lanes_of lists.old)
        → (taken : List Keyed) → AreFrontsOf bytes lists.old taken
        → IsPackedAll plan.now.header.now.layout bytes (owns (lanes_of lists.old) taken)
        (record { lanes = lanes_of lists.old; written = O.written out.old }) (record { lanes = lanes_of lists.new; written = O.written out.new }) result) }
    ensures malformed { TellsHeld (lanes_of lists.new) result }
    ensures gains { result ≡ Ok End.Done → GainsSome (O.written out.old) (O.written out.new) }
    ensures numbers { result ≡ Ok End.Done → numbers_of (lanes_of lists.new) ≡ numbers_of (lanes_of lists.old) }
    ensures reads { F.reads file.new ≤ raised (F.reads file.old)
        (lists_packing (F.size file.old) lists.old) }
    ensures read { IsErrOf result IoFault.Read → Rose (F.faults file.old) (F.faults file.new) }
    ensures write { IsErrOf result IoFault.Write → Rose (O.faults out.old) (O.faults out.new) }
    ensures keeps_out { KeepsSink O.Sink out.old out.new }
    ensures keeps { KeepsFile F.File file.old file.new }
{
    for i in 0..lists.len() {
        match lists[i].pack(file, page, out)? {
            End::Done => {}
            end => return Ok(end),
        }
    }
    Ok(End::Done)
}
