// The front of a line: the columns before what is said.

ghost use Rattle.std.specs.Prelude.{◌≡◌, ◌<◌, ◌≤◌, ◌+◌, ◌++◌, ℕ, length, true};
ghost use Rattle.trace_base.specs.Kept.{put_held};
ghost use Rattle.trace_base.specs.TailView.{held, lent};
ghost use Rattle.line_fronts.specs.Tasks.{task_front};
ghost use Rattle.line_fronts.specs.When.{IsUsual, usual_when};
ghost use Rattle.report_print.specs.Line as line;
ghost use Rattle.report_print.specs.Prefix.{columns};

use crate::context::Context;
use line_columns::{BEFORE_PID, Front, LONGEST_BEHIND, USUAL_LABEL, USUAL_TIMES};
use line_fronts::{
    TaskStart, USUAL_CPUS, are_usual, put_made, put_unnamed, put_usual_when, put_when,
    put_with_made_task, put_with_named_task,
};
use trace_base::{Common, Order, Tail};

impl Context {
    /// The order of the numbers in the file's events.
    pub fn order(&self) -> Order
        ensures { result ≡ self.now.show.order }
    {
        self.show().order
    }

    /// The numbers that an event begins with.
    pub fn common(&self, payload: &[u8]) -> Common
        ensures { result ≡ line.common_in self.now payload.now }
    {
        self.common_of(self.id(payload), payload)
    }

    /// The same where the number of the event's format was read already.
    #[inline(always)]
    pub fn common_of(&self, id: u32, payload: &[u8]) -> Common
        requires { id ≡ line.id_of self.now payload.now }
        ensures { result ≡ line.common_in self.now payload.now }
    {
        Common {
            id,
            flags: self.flags(payload),
            preempt: self.preempt_count(payload),
            pid: self.pid(payload),
        }
    }

    /// The same as far as an event's line shows them, where the task was read already.
    #[inline(always)]
    #[tactic(auto, using(crate::proofs::FrontLemmas::shown_prefix))]
    fn shown_common(&self, pid: i32, payload: &[u8]) -> Common
        requires { pid ≡ line.pid_of self.now payload.now }
        ensures { (cpu : ℕ) (time : ℕ) → line.prefix_text self.now cpu time result ≡ line.front_text self.now cpu time payload.now }
    {
        let (flags, preempt) = self.shown_marks(payload);
        Common {
            id: 0,
            flags,
            preempt,
            pid,
        }
    }

    /// What the latency columns show of an event. Most lines have none, and nothing is read for them.
    #[inline(always)]
    fn shown_marks(&self, payload: &[u8]) -> (u32, u32)
        ensures { self.now.show.line.latency ≡ true → (result.0 ≡ line.flags_of self.now payload.now) × (result.1 ≡ line.preempt_count_of self.now payload.now) }
    {
        if self.show().line.latency {
            return self.marks(payload);
        }
        (0, 0)
    }

    #[inline(never)]
    fn marks(&self, payload: &[u8]) -> (u32, u32)
        ensures flags { result.0 ≡ line.flags_of self.now payload.now }
        ensures preempt { result.1 ≡ line.preempt_count_of self.now payload.now }
    {
        (self.flags(payload), self.preempt_count(payload))
    }
}

/// Puts the columns of a line up to the colon after the time: the task with its pid, where and when it was.
pub fn prefix(context: &Context, cpu: u32, time: u64, common: &Common, into: &mut Tail<'_>)
    ensures same_slice { lent into.new ≡ lent into.old }
    ensures value { held into.new ≡ put_held (held into.old) (line.prefix_text context.now cpu time common.now) }
{
    put_columns(context, cpu, time, common, b"", into);
}

/// Puts the columns of an event's line, and a text after them. Gives where the time ends: a colon and a space follow it. Most
/// lines have columns of the usual widths: they are put together at places that are known beforehand.
#[inline(always)]
pub(crate) fn put_front(
    context: &Context,
    cpu: u32,
    time: u64,
    pid: i32,
    payload: &[u8],
    behind: &[u8],
    into: &mut Tail<'_>,
) -> usize
    requires { pid ≡ line.pid_of context.now payload.now }
    ensures same_slice { lent into.new ≡ lent into.old }
    ensures value { held into.new ≡ put_held (put_held (held into.old) (line.front_text context.now cpu time payload.now)) behind.now }
    ensures until { result + 2 ≡ length (line.front_text context.now cpu time payload.now) }
{
    if behind.len() == USUAL_LABEL && are_usual(context.show(), cpu, time) {
        let len = put_usual(context, cpu, time, pid, behind, into);
        return len - (behind.len() + 2);
    }
    put_unusual(context, cpu, time, pid, payload, behind, into)
}

/// Puts the columns where those of the time and the processor have their usual widths.
#[inline(always)]
fn put_usual(
    context: &Context,
    cpu: u32,
    time: u64,
    pid: i32,
    label: &[u8],
    into: &mut Tail<'_>,
) -> usize
    requires usual { IsUsual context.now.show cpu time }
    requires label { length label.now ≡ USUAL_LABEL }
    ensures same_slice { lent into.new ≡ lent into.old }
    ensures value { held into.new ≡ put_held (held into.old) (task_front context.now.show context.now.symbols.tasks pid ++ (usual_when cpu time ++ label.now)) }
    ensures len { result ≡ length (task_front context.now.show context.now.symbols.tasks pid ++ (usual_when cpu time ++ label.now)) }
{
    match context.task_start(pid) {
        TaskStart::Made(task) => put_made(task, cpu, time, label, into),
        TaskStart::Unnamed => put_unnamed(pid, cpu, time, label, into),
        TaskStart::Unknown => put_unmade(context, cpu, time, pid, label, into),
    }
}

/// The same where the task's text was not made beforehand.
#[inline(never)]
fn put_unmade(
    context: &Context,
    cpu: u32,
    time: u64,
    pid: i32,
    label: &[u8],
    into: &mut Tail<'_>,
) -> usize
    requires cpu { cpu < USUAL_CPUS }
    requires time { time < USUAL_TIMES }
    requires label { length label.now ≡ USUAL_LABEL }
    ensures same_slice { lent into.new ≡ lent into.old }
    ensures value { held into.new ≡ put_held (held into.old) (task_front context.now.show context.now.symbols.tasks pid ++ (usual_when cpu time ++ label.now)) }
    ensures len { result ≡ length (task_front context.now.show context.now.symbols.tasks pid ++ (usual_when cpu time ++ label.now)) }
{
    let mut front = Front::new();
    put_usual_when(cpu, time, label, &mut front);
    put_with_any_task(context, pid, &mut front, into)
}

/// The same where the columns have any widths. What the latency columns show is read here, since most lines have none.
#[inline(never)]
#[tactic(auto, using(trace_base::proofs::TailJoins::put_held_twice))]
fn put_unusual(
    context: &Context,
    cpu: u32,
    time: u64,
    pid: i32,
    payload: &[u8],
    behind: &[u8],
    into: &mut Tail<'_>,
) -> usize
    requires { pid ≡ line.pid_of context.now payload.now }
    ensures same_slice { lent into.new ≡ lent into.old }
    ensures value { held into.new ≡ put_held (put_held (held into.old) (line.front_text context.now cpu time payload.now)) behind.now }
    ensures until { result + 2 ≡ length (line.front_text context.now cpu time payload.now) }
{
    let common = context.shown_common(pid, payload);
    if behind.len() > LONGEST_BEHIND {
        let until = put_columns(context, cpu, time, &common, b"", into);
        into.put(behind);
        return until;
    }
    put_columns(context, cpu, time, &common, behind, into)
}

/// Puts the columns of any widths, and a short text after them. Gives where the time ends.
#[inline(always)]
fn put_columns(
    context: &Context,
    cpu: u32,
    time: u64,
    common: &Common,
    behind: &[u8],
    into: &mut Tail<'_>,
) -> usize
    requires { length behind.now ≤ LONGEST_BEHIND }
    ensures same_slice { lent into.new ≡ lent into.old }
    ensures value { held into.new ≡ put_held (put_held (held into.old) (line.prefix_text context.now cpu time common.now)) behind.now }
    ensures until { result + 2 ≡ length (line.prefix_text context.now cpu time common.now) }
{
    let len = put_any(context, cpu, time, common, behind, into);
    len - (behind.len() + 2)
}

/// Puts the columns of any widths.
#[inline(always)]
fn put_any(
    context: &Context,
    cpu: u32,
    time: u64,
    common: &Common,
    behind: &[u8],
    into: &mut Tail<'_>,
) -> usize
    requires short { length behind.now ≤ LONGEST_BEHIND }
    ensures same_slice { lent into.new ≡ lent into.old }
    ensures value { held into.new ≡ put_held (held into.old) (columns context.now cpu time common.now behind.now) }
    ensures len { result ≡ length (columns context.now cpu time common.now behind.now) }
{
    let mut front = Front::new();
    front.start(behind);
    put_when(context.show(), cpu, time, common, &mut front);
    put_with_task(context, common.pid, &mut front, into)
}

/// Puts a text with the task in front of it, and gives the length of both.
#[inline(always)]
fn put_with_task(context: &Context, pid: i32, front: &mut Front, into: &mut Tail<'_>) -> usize
    requires { length front.old ≤ BEFORE_PID }
    ensures same_slice { lent into.new ≡ lent into.old }
    ensures value { held into.new ≡ put_held (held into.old) (task_front context.now.show context.now.symbols.tasks pid ++ front.old) }
    ensures len { result ≡ length (task_front context.now.show context.now.symbols.tasks pid ++ front.old) }
{
    match context.task_start(pid) {
        TaskStart::Made(task) => put_with_made_task(task, front, into),
        _ => put_with_any_task(context, pid, front, into),
    }
}

/// The same where the task's text was not made beforehand.
#[inline(never)]
fn put_with_any_task(context: &Context, pid: i32, front: &mut Front, into: &mut Tail<'_>) -> usize
    requires { length front.old ≤ BEFORE_PID }
    ensures same_slice { lent into.new ≡ lent into.old }
    ensures value { held into.new ≡ put_held (held into.old) (task_front context.now.show context.now.symbols.tasks pid ++ front.old) }
    ensures len { result ≡ length (task_front context.now.show context.now.symbols.tasks pid ++ front.old) }
{
    let name = context.symbols().comm_of(pid);
    put_with_named_task(context.show(), name, pid, front, into)
}
