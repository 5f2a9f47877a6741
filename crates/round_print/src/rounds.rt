ghost use Rattle.std.specs.Prelude.{◌≡◌, ◌<◌, ◌≤◌, [], length, map, take, IfOk, None};
ghost use Rattle.trace_outside.specs.Causes.{HasCause};
ghost use Rattle.trace_outside.specs.Pending.{Puts};
ghost use Rattle.round_print.specs.Prints.{ArePlain, filled_text, front_of, head_kept, last_of, printed};
ghost use Rattle.round_print.specs.Rounds.{AreRising, Gains, IsFrontDropped, IsRound, KeepsSlots, round_over};

use crate::filling::put_front;
use crate::heads::{drop_front, head_kept, least_due, run_of};
use page_pool::Lane;
use time_merge::Horizon;
use tournament_tree::TournamentTree;
use trace_outside::{Failed, Pending, Sink};

/// Puts a lane's first lines, filled from the last time, and keeps them no longer. Before the first time none of several has a
/// hole.
fn print_front<O: Sink>(
    horizon: &Horizon,
    lane: &mut Lane,
    count: u32,
    last: &mut Option<u64>,
    pending: &mut Pending,
    out: &mut O,
) -> Result<(), Failed>
    requires kept { (0 < count) × (count ≤ length lane.old.region.kept) }
    requires plain { last.old ≡ None → 1 < count → ArePlain (take count lane.old.region.kept) }
    ensures puts { Puts (filled_text last.old (front_of count lane.old)) (O.written out.old) pending.old
        (O.written out.new) pending.new result }
    ensures last { IfOk result (λ _. last.new ≡ last_of last.old (front_of count lane.old)) }
    ensures name { O.name out.new ≡ O.name out.old }
    ensures cause { HasCause (O.faults out.old) (O.faults out.new) result }
    ensures dropped { IfOk result (λ _. IsFrontDropped count lane.old lane.new) }
    ensures cpu { lane.new.cpu ≡ lane.old.cpu }
    ensures layout { lane.new.layout ≡ lane.old.layout }
    ensures part { lane.new.part ≡ lane.old.part }
{
    put_front(lane, count, last, pending, out)?;
    drop_front(horizon, lane, count);
    Ok(())
}

/// Writes the lines that the lanes keep and that stand at or before the horizon, by key, then processor, then position,
/// and keeps them no longer. Each is filled from the last time, `last` at first; after the call it is that of the last
/// line with a hole. A region that keeps no line any more has all its bytes free.
///
/// The lines go through `pending`, in which nothing waits before or after: all of them are written when the call returns,
/// in pieces as large as it has room for, or as lines of a lane lie side by side. `heads` is a tree of the lanes' first
/// lines, a slot for each lane with its `head_kept`, in step before and after: the next line, with those that come right
/// after it in its lane, costs a step or two for each doubling of their number. `moved` has a dirty bit for each lane: a lane
/// that is clean after the call is as it was before, no bit is cleared, and only that of a lane of which a line was printed is
/// set anew. After `Failed` the sink has a prefix of the lines' text, and the lanes, which are still those of their
/// processors and have their layouts, keep no longer what was put: they are not to be used again.
pub fn print_round<O: Sink>(
    horizon: &Horizon,
    lanes: &mut [Lane],
    heads: &mut TournamentTree,
    moved: &mut [bool],
    last: &mut Option<u64>,
    pending: &mut Pending,
    out: &mut O,
) -> Result<(), Failed>
    requires rising { AreRising lanes.old }
    requires heads { heads.old ≡ map head_kept lanes.old }
    requires marks { length moved.old ≡ length lanes.old }
    requires empty { pending.old ≡ [] }
    ensures written { Gains (O.written out.old) (O.written out.new)
        (filled_text last.old (printed horizon.now lanes.old)) result }
    ensures round { IfOk result (λ _. IsRound horizon.now
        (round_over lanes.old heads.old moved.old last.old)
        (round_over lanes.new heads.new moved.new last.new)) }
    ensures slots { KeepsSlots (round_over lanes.old heads.old moved.old last.old)
        (round_over lanes.new heads.new moved.new last.new) }
    ensures name { O.name out.new ≡ O.name out.old }
    ensures cause { HasCause (O.faults out.old) (O.faults out.new) result }
    ensures empty { IfOk result (λ _. pending.new ≡ []) }
{
    // Of which lane a line went out alone just before.
    let mut alone = None;
    while let Some(i) = least_due(horizon, lanes, heads) {
        let count = run_of(horizon, &lanes[i], heads, i, alone, *last);
        print_front(horizon, &mut lanes[i], count, last, pending, out)?;
        heads.set(i, head_kept(&lanes[i]));
        moved[i] = true;
        alone = (count == 1).then_some(i);
    }
    pending.flush(out)
}
