// The other columns of a line, put with the task in front of them.

ghost use Rattle.std.specs.Prelude.{◌≡◌, ◌≤◌, ◌++◌, length};
ghost use Rattle.trace_base.specs.Kept.{put_held};
ghost use Rattle.trace_base.specs.TailView.{held, lent};
ghost use Rattle.line_fronts.specs.Tasks.{named_front};

use crate::show::Show;
use crate::tasks::{USUAL_TASK, WIDE_TASK, task_width};
use line_columns::{BEFORE_PID, Front, LONGEST_TASK};
use trace_base::Tail;

/// Puts a text with that of a task in front of it, and gives the length of both.
#[inline(always)]
pub fn put_with_made_task(task: &[u8], front: &mut Front, into: &mut Tail<'_>) -> usize
    requires { length front.old ≤ BEFORE_PID }
    ensures same_slice { lent into.new ≡ lent into.old }
    ensures value { held into.new ≡ put_held (held into.old) (task.now ++ front.old) }
    ensures len { result ≡ length (task.now ++ front.old) }
{
    if task.len() <= WIDE_TASK {
        put_task(task, front);
        into.put(front.as_bytes());
        front.len()
    } else {
        put_pair(task, front.as_bytes(), into);
        task.len() + front.len()
    }
}

/// Puts the text of a task in front. Most have the same length.
#[inline(always)]
fn put_task(task: &[u8], front: &mut Front)
    requires short { length task.now ≤ WIDE_TASK }
    requires room { length front.old ≤ BEFORE_PID }
    ensures { front.new ≡ task.now ++ front.old }
{
    if task.len() == USUAL_TASK {
        front.prepend_text(&task[..USUAL_TASK]);
    } else {
        front.prepend_text(task);
    }
}

/// Puts a text with a task of this name in front of it, and gives the length of both.
#[inline(always)]
#[tactic(auto, using(crate::proofs::TaskTexts::wide_task, crate::proofs::TaskTexts::behind_task))]
pub fn put_with_named_task(
    show: &Show,
    name: &[u8],
    pid: i32,
    front: &mut Front,
    into: &mut Tail<'_>,
) -> usize
    requires { length front.old ≤ BEFORE_PID }
    ensures same_slice { lent into.new ≡ lent into.old }
    ensures value { held into.new ≡ put_held (held into.old) (named_front show.now name.now pid ++ front.old) }
    ensures len { result ≡ length (named_front show.now name.now pid ++ front.old) }
{
    front.prepend_pid(pid);
    front.prepend_byte(b'-');
    if name.len() <= LONGEST_TASK {
        front.prepend_task(task_width(show), name);
        into.put(front.as_bytes());
        front.len()
    } else {
        put_pair(name, front.as_bytes(), into);
        name.len() + front.len()
    }
}

/// Puts two pieces.
#[tactic(auto, using(trace_base::proofs::TailJoins::put_held_twice))]
fn put_pair(one: &[u8], two: &[u8], into: &mut Tail<'_>)
    ensures same_slice { lent into.new ≡ lent into.old }
    ensures value { held into.new ≡ put_held (held into.old) (one.now ++ two.now) }
{
    into.put(one);
    into.put(two);
}
