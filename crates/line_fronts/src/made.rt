// The front of a line whose task's text was made beforehand, where the other columns have their usual widths.

ghost use Rattle.std.specs.Prelude.{◌≡◌, ◌<◌, ◌++◌, length};
ghost use Rattle.trace_base.specs.Kept.{put_held};
ghost use Rattle.trace_base.specs.TailView.{held, lent};
ghost use Rattle.line_fronts.specs.When.{usual_when};

use crate::tasks::USUAL_TASK;
use crate::usual::{USUAL_CPUS, USUAL_FRONT, write_front, write_when};
use line_columns::{USUAL_LABEL, USUAL_TIMES};
use trace_base::Tail;

/// How long a task's text is where its pid has six digits, and where it has seven.
const SIX_DIGITS: usize = USUAL_TASK + 1;

const SEVEN_DIGITS: usize = USUAL_TASK + 2;

/// Puts the columns, and gives the length of all that was put.
#[inline(always)]
pub fn put_made(task: &[u8], cpu: u32, time: u64, label: &[u8], into: &mut Tail<'_>) -> usize
    requires cpu { cpu < USUAL_CPUS }
    requires time { time < USUAL_TIMES }
    requires label { length label.now ≡ USUAL_LABEL }
    ensures same_slice { lent into.new ≡ lent into.old }
    ensures value { held into.new ≡ put_held (held into.old) (task.now ++ (usual_when cpu time ++ label.now)) }
    ensures len { result ≡ length (task.now ++ (usual_when cpu time ++ label.now)) }
{
    if task.len() == USUAL_TASK {
        put_straight(task, cpu, time, label, into)
    } else {
        put_any_made(task, cpu, time, label, into)
    }
}

/// Puts the columns of most lines: all have their usual widths, and stand at places that are known beforehand.
#[inline(always)]
fn put_straight(task: &[u8], cpu: u32, time: u64, label: &[u8], into: &mut Tail<'_>) -> usize
    requires task { length task.now ≡ USUAL_TASK }
    requires label { length label.now ≡ USUAL_LABEL }
    requires cpu { cpu < USUAL_CPUS }
    requires time { time < USUAL_TIMES }
    ensures same_slice { lent into.new ≡ lent into.old }
    ensures value { held into.new ≡ put_held (held into.old) (task.now ++ (usual_when cpu time ++ label.now)) }
    ensures len { result ≡ length (task.now ++ (usual_when cpu time ++ label.now)) }
{
    let mut text = [0; USUAL_FRONT];
    write_front(task, cpu, time, label, &mut text);
    into.put(&text);
    USUAL_FRONT
}

/// The same where the task's text has another length.
#[inline(never)]
fn put_any_made(task: &[u8], cpu: u32, time: u64, label: &[u8], into: &mut Tail<'_>) -> usize
    requires cpu { cpu < USUAL_CPUS }
    requires time { time < USUAL_TIMES }
    requires label { length label.now ≡ USUAL_LABEL }
    ensures same_slice { lent into.new ≡ lent into.old }
    ensures value { held into.new ≡ put_held (held into.old) (task.now ++ (usual_when cpu time ++ label.now)) }
    ensures len { result ≡ length (task.now ++ (usual_when cpu time ++ label.now)) }
{
    let mut text = [0; USUAL_FRONT];
    write_when(cpu, time, &label[..USUAL_LABEL], &mut text);
    put_known_length(task, into);
    let when = &text[USUAL_TASK..];
    into.put(when);
    task.len() + when.len()
}

/// Puts the text of a task. Most that have not the usual length have one of two others, since most pids have no more than seven
/// digits: a text of a length that is known beforehand needs no call.
#[inline(always)]
fn put_known_length(task: &[u8], into: &mut Tail<'_>)
    ensures same_slice { lent into.new ≡ lent into.old }
    ensures value { held into.new ≡ put_held (held into.old) task.now }
{
    match task.len() {
        SIX_DIGITS => into.put(&task[..SIX_DIGITS]),
        SEVEN_DIGITS => into.put(&task[..SEVEN_DIGITS]),
        _ => put_piece(task, into),
    }
}

#[inline(never)]
fn put_piece(piece: &[u8], into: &mut Tail<'_>)
    ensures same_slice { lent into.new ≡ lent into.old }
    ensures value { held into.new ≡ put_held (held into.old) piece.now }
{
    into.put(piece);
}
