ghost use Rattle.std.specs.Prelude.{◌≡◌, All, IfSome, IsErrOf, Ok};
ghost use Rattle.trace_outside.specs.Causes.{Rose};
ghost use Rattle.trace_outside.specs.Keeping.{KeepsFile, KeepsSink};
ghost use Rattle.event_cursor.specs.Standing.{Stands};
ghost use Rattle.report_rounds.specs.Between.{AreBetween};
ghost use Rattle.report_rounds.specs.Turns.{CanGoOn, HasLoaded, IsTurned};

use crate::ends::{Outcome, outcome_at};
use crate::settle::settle;
use crate::work::RoundWork;
use cpu_workers::{Workers, format_lanes};
use line_holes::LineFormat;
use page_pool::Lane;
use round_print::print_round;
use std::thread::Threads;
use time_merge::{IoFault, horizon, make_moved_ready};
use trace_base::Layout;
use trace_outside::{Failed, File, Gate, Sink};

/// One round: makes the lanes ready, forms lines, and prints those up to the horizon. It looks at the dirty lanes alone, and
/// after it those are dirty that it printed lines of, or that are to be loaded.
pub(crate) fn turn<R: Threads + Sync, F: File, L: LineFormat, G: Gate, O: Sink>(
    workers: &Workers<'_, R, G>,
    form: &L,
    layout: &Layout,
    file: &mut F,
    lanes: &mut [Lane],
    work: &mut RoundWork,
    last: &mut Option<u64>,
    out: &mut O,
) -> Result<Outcome, IoFault>
    requires between { AreBetween (L.text form.now) layout.now lanes.old work.old }
    ensures between { result ≡ Ok Outcome.GoesOn → AreBetween (L.text form.now) layout.now lanes.new work.new }
    ensures goes_on { result ≡ Ok Outcome.GoesOn
        → CanGoOn F.File file.old file.new lanes.old lanes.new }
    ensures turned { IfSome (F.bytes file.old) (λ bytes. All (Stands bytes) lanes.old
        → IsTurned (L.text form.now) layout.now bytes
        (record { lanes = lanes.old; last = last.old; written = O.written out.old })
        (record { lanes = lanes.new; last = last.new; written = O.written out.new }) result) }
    ensures read { IsErrOf result IoFault.Read → Rose (F.faults file.old) (F.faults file.new) }
    ensures write { IsErrOf result IoFault.Write → Rose (O.faults out.old) (O.faults out.new) }
    ensures loaded { HasLoaded (F.bytes file.old) (F.size file.old) lanes.old (F.reads file.old)
        (F.reads file.new) }
    ensures keeps_out { KeepsSink O.Sink out.old out.new }
    ensures keeps { KeepsFile F.File file.old file.new }
{
    let Ok(()) = make_moved_ready(file, lanes, work.moved.as_slice()) else {
        return Err(IoFault::Read);
    };
    format_lanes(workers, form, layout.page, lanes, work.moved.as_slice());
    settle(lanes, work);
    let least = work.highs.least();
    let known = horizon(lanes, least);
    match print_round(
        &known,
        lanes,
        &mut work.heads,
        work.moved.as_mut_slice(),
        last,
        &mut work.pending,
        out,
    ) {
        Ok(()) => Ok(outcome_at(least, lanes)),
        Err(Failed) => Err(IoFault::Write),
    }
}
