// Where and when an event was, written from the right.

ghost use Rattle.std.specs.Prelude.{◌≡◌, ◌<◌, ◌≤◌, ◌+◌, ◌++◌, [], codes, length, true};
ghost use Rattle.std.specs.Fmt.{decimal};
ghost use Rattle.line_columns.specs.Columns.{zeros};
ghost use Rattle.line_fronts.specs.When as spec;
ghost use Rattle.line_fronts.specs.When.{IsUsual};

use crate::show::Show;
use crate::usual::USUAL_CPUS;
use line_columns::{
    BEFORE_PID, BEFORE_PLACE, Front, LONGEST_BEHIND, LONGEST_PROCESSOR, USUAL_LABEL, USUAL_TIMES,
};
use trace_base::Common;

/// Whether the columns of the time and the processor have their usual widths.
#[inline(always)]
pub fn are_usual(show: &Show, cpu: u32, time: u64) -> bool
    ensures { result ≡ true → IsUsual show.now cpu time }
{
    !show.line.latency && !show.line.full && cpu < USUAL_CPUS && time < USUAL_TIMES
}

/// Puts where and when it was, in columns of their usual widths, in front of a text.
#[inline(always)]
pub fn put_usual_when(cpu: u32, time: u64, label: &[u8], front: &mut Front)
    requires empty { front.old ≡ [] }
    requires cpu { cpu < USUAL_CPUS }
    requires time { time < USUAL_TIMES }
    requires label { length label.now ≡ USUAL_LABEL }
    ensures value { front.new ≡ spec.usual_when cpu time ++ label.now }
    ensures short { length front.new ≤ BEFORE_PID }
{
    front.start(label);
    front.prepend_text(b": ");
    front.prepend_usual_time(time);
    put_usual_place(cpu, front);
}

/// Puts the processor in front. Most machines have fewer than a hundred.
#[inline(always)]
fn put_usual_place(cpu: u32, front: &mut Front)
    requires { length front.old ≤ BEFORE_PLACE }
    ensures longer { length front.new ≤ length front.old + LONGEST_PROCESSOR }
    ensures value { front.new ≡ (codes " [" ++ (zeros 3 (decimal cpu) ++ codes "] ")) ++ front.old }
{
    if cpu < 100 {
        front.prepend_usual_processor(cpu);
    } else {
        front.prepend_processor(cpu);
    }
}

/// Puts the columns after the task in front, of any widths.
pub fn put_when(show: &Show, cpu: u32, time: u64, common: &Common, front: &mut Front)
    requires room { length front.old ≤ LONGEST_BEHIND }
    ensures value { front.new ≡ spec.when_of show.now cpu time common.now ++ front.old }
    ensures longer { length front.new ≤ BEFORE_PID }
{
    front.prepend_text(b": ");
    front.prepend_time(show.line.full, time);
    put_place(show, cpu, common.flags, common.preempt, front);
}

/// Puts the processor in front, and with the latency columns what an event says of its context.
#[tactic(auto, unfolding(crate::specs::When::place_text))]
fn put_place(show: &Show, cpu: u32, flags: u32, preempt: u32, front: &mut Front)
    requires { length front.old ≤ BEFORE_PLACE }
    ensures longer { length front.new ≤ length front.old + LONGEST_PROCESSOR }
    ensures value { front.new ≡ spec.place_text show.now cpu flags preempt ++ front.old }
{
    if show.line.latency {
        front.prepend_latency(cpu, flags, preempt);
    } else {
        front.prepend_processor(cpu);
    }
}
