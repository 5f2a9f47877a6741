ghost use Rattle.std.specs.Prelude.{◌≡◌, ◌<◌, length, slice_index_or, IfOk, OnOk};
ghost use Rattle.trace_outside.specs.Causes.{HasCause};
ghost use Rattle.event_cursor.specs.Standing.{held_left};
ghost use Rattle.page_pool.specs.declared.lane.Lane.{Lane};
ghost use Rattle.page_pool.specs.declared.cursor.LaneState.TheVariants as state;
ghost use Rattle.multi_report.specs.Nexts.{IsLaneStepped};
ghost use Rattle.multi_report.specs.Sources.{HasOwnLayouts, IsKnown, IsPrepared, IsReadied, Keeps, next_key, seen};

use event_cursor::head_key;
use line_holes::LineFormat;
use time_merge::{LaneNext, Lanes};
use tournament_tree::SlotKey;
use trace_outside::{Failed, File};

/// One of several files, with all that its lines stand on.
pub struct Source<'a, F, L> {
    /// Its name, which stands before each line.
    pub name: &'a str,
    pub file: F,
    /// How many processors it has.
    pub cpus: u32,
    /// How its items become lines.
    pub form: L,
    /// The lanes of its selected processors: none for a file that has no items.
    pub lanes: Lanes,
}

/// The key of what comes next of a file: of its first item, or of its cut.
fn key_of_next<F: File, L: LineFormat>(source: &Source<'_, F, L>) -> SlotKey
    requires { IsPrepared (seen F.File L.text source.now) }
    ensures key { IsKnown (seen F.File L.text source.now) → result ≡ next_key (seen F.File L.text source.now) }
    ensures layouts { HasOwnLayouts (seen F.File L.text source.now) }
{
    let lanes = source.lanes.all();
    match source.lanes.next() {
        LaneNext::Item(i) => match head_key(&lanes[i]) {
            Some(key) => SlotKey::At(key),
            None => SlotKey::Empty,
        },
        LaneNext::Cut(i) => SlotKey::from_time(lanes[i].cursor.high),
        LaneNext::Done => SlotKey::Empty,
    }
}

/// Makes the lanes of a file ready, and tells the key of what comes next.
pub(crate) fn make_source_ready<F: File, L: LineFormat>(
    source: &mut Source<'_, F, L>,
) -> Result<SlotKey, Failed>
    ensures keeps { Keeps (seen F.File L.text source.old) (seen F.File L.text source.new) }
    ensures readied { OnOk result (IsReadied (seen F.File L.text source.old) (seen F.File L.text source.new)) }
    ensures key { IfOk result (λ key. IsKnown (seen F.File L.text source.new)
        → key ≡ next_key (seen F.File L.text source.new)) }
    ensures layouts { OnOk result (HasOwnLayouts (seen F.File L.text source.old)) }
    ensures cause { HasCause (F.faults source.old.file) (F.faults source.new.file) result }
{
    source.lanes.make_ready(&mut source.file)?;
    Ok(key_of_next(source))
}

/// Uses up the item that a lane of a file holds.
pub(crate) fn use_item<F: File, L: LineFormat>(source: &mut Source<'_, F, L>, i: usize)
    requires prepared { IsPrepared (seen F.File L.text source.old) }
    requires inside { i < length source.old.lanes.all }
    requires held { (d : Lane) → ((slice_index_or source.old.lanes.all i d).cursor.state ≡ state.Held)
        × (0 < length (held_left (slice_index_or source.old.lanes.all i d))) }
    ensures { IsLaneStepped (seen F.File L.text source.old) i (seen F.File L.text source.new) }
{
    source.lanes.step(i)
}
