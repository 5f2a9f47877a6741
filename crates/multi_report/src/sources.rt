ghost use Rattle.std.specs.Prelude.{◌≡◌, ◌<◌, All, length, map, IfSome, IfNone, slice_index_or};
ghost use Rattle.trace_outside.specs.Causes.{Rose};
ghost use Rattle.multi_report.specs.Sources.{AllKeep, HasOwnLayouts, IsKnown, SourceView, next_key, seen};
ghost use Rattle.multi_report.specs.Turns.{AreReadied};

use crate::source::{Source, make_source_ready};
use line_holes::LineFormat;
use tournament_tree::TournamentTree;
use trace_outside::{Failed, File};

/// Makes all lanes of all files ready, and gives a tree the key of what comes next of each file. Some: a read of that file
/// failed.
pub(crate) fn make_sources_ready<F: File, L: LineFormat>(
    sources: &mut [Source<'_, F, L>],
    nexts: &mut TournamentTree,
) -> Option<usize>
    requires { length nexts.old ≡ length sources.old }
    ensures keeps { AllKeep (map (seen F.File L.text) sources.old) (map (seen F.File L.text) sources.new) }
    ensures count { length sources.new ≡ length sources.old }
    ensures slots { length nexts.new ≡ length nexts.old }
    ensures readied { IfNone result
        (AreReadied (map (seen F.File L.text) sources.old) (map (seen F.File L.text) sources.new)) }
    ensures keys { IfNone result (All IsKnown (map (seen F.File L.text) sources.new)
        → nexts.new ≡ map next_key (map (seen F.File L.text) sources.new)) }
    ensures layouts { IfNone result (All HasOwnLayouts (map (seen F.File L.text) sources.old)) }
    ensures read { IfSome result (λ j. (j < length sources.old) × ((d : SourceView)
        → Rose (slice_index_or (map (seen F.File L.text) sources.old) j d).faults
        (slice_index_or (map (seen F.File L.text) sources.new) j d).faults)) }
{
    for j in 0..sources.len() {
        match make_source_ready(&mut sources[j]) {
            Ok(key) => nexts.set(j, key),
            Err(Failed) => return Some(j),
        }
    }
    None
}
