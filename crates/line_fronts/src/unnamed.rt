// The front of a line that tells of a task without a name, where the other columns have their usual widths.

ghost use Rattle.std.specs.Prelude.{◌≡◌, ◌<◌, ◌≤◌, ◌+◌, ◌++◌, length, drop, codes, replicate};
ghost use Rattle.std.specs.Fmt.{decimal, signed_decimal};
ghost use Rattle.trace_base.specs.Kept.{put_held};
ghost use Rattle.trace_base.specs.TailView.{held, lent};
ghost use Rattle.symbols.specs.Maps.{unnamed};
ghost use Rattle.line_columns.specs.Columns.{left, right};
ghost use Rattle.line_fronts.specs.When.{usual_when};

use crate::places::three_digits;
use crate::tasks::USUAL_TASK;
use crate::usual::{USUAL_CPUS, USUAL_FRONT, put_at, put_six, write_when};
use crate::when::put_usual_when;
use line_columns::{BEFORE_PID, Front, USUAL_LABEL, USUAL_TIMES, two_digits};
use trace_base::Tail;

/// Where the pid starts, if it is not wider than its column.
const PID: usize = 17;

/// Pids before this one have at most seven digits, as all of the kernel's have.
const SHORT_PIDS: u32 = 10_000_000;

/// Puts the columns, and gives the length of all that was put.
#[inline(never)]
pub fn put_unnamed(pid: i32, cpu: u32, time: u64, label: &[u8], into: &mut Tail<'_>) -> usize
    requires cpu { cpu < USUAL_CPUS }
    requires time { time < USUAL_TIMES }
    requires label { length label.now ≡ USUAL_LABEL }
    ensures same_slice { lent into.new ≡ lent into.old }
    ensures value { held into.new ≡ put_held (held into.old) ((right 16 unnamed ++ codes "-") ++ (left 5 (signed_decimal pid) ++ (usual_when cpu time ++ label.now))) }
    ensures len { result ≡ length ((right 16 unnamed ++ codes "-") ++ (left 5 (signed_decimal pid) ++ (usual_when cpu time ++ label.now))) }
{
    if pid < 0 || SHORT_PIDS as i32 <= pid {
        return put_any_unnamed(pid, cpu, time, label, into);
    }
    put_short(pid as u32, cpu, time, label, into)
}

/// The same where the pid has at most seven digits. The task of a pid that is wider than its column begins with spaces: the
/// first of them are put before, so that what is left has the usual width.
#[inline(always)]
fn put_short(pid: u32, cpu: u32, time: u64, label: &[u8], into: &mut Tail<'_>) -> usize
    requires pid { pid < SHORT_PIDS }
    requires cpu { cpu < USUAL_CPUS }
    requires time { time < USUAL_TIMES }
    requires label { length label.now ≡ USUAL_LABEL }
    ensures same_slice { lent into.new ≡ lent into.old }
    ensures value { held into.new ≡ put_held (held into.old) ((right 16 unnamed ++ codes "-") ++ (left 5 (decimal pid) ++ (usual_when cpu time ++ label.now))) }
    ensures len { result ≡ length ((right 16 unnamed ++ codes "-") ++ (left 5 (decimal pid) ++ (usual_when cpu time ++ label.now))) }
{
    let mut text = [0; USUAL_FRONT];
    write_when(cpu, time, &label[..USUAL_LABEL], &mut text);
    let spaces = write_unnamed(pid, &mut text);
    put_spaces(spaces, into);
    into.put(&text);
    spaces + USUAL_FRONT
}

/// Puts up to two spaces.
#[inline(always)]
fn put_spaces(count: usize, into: &mut Tail<'_>)
    requires { count ≤ 2 }
    ensures same_slice { lent into.new ≡ lent into.old }
    ensures value { held into.new ≡ put_held (held into.old) (replicate count 32) }
{
    match count {
        0 => {}
        1 => into.put(b" "),
        _ => into.put(b"  "),
    }
}

/// Writes the task, and gives how many spaces are to stand before it.
#[inline(always)]
fn write_unnamed(pid: u32, text: &mut [u8; USUAL_FRONT]) -> usize
    requires { pid < SHORT_PIDS }
    ensures few { result ≤ 2 }
    ensures value { replicate result 32 ++ text.new ≡ (right 16 unnamed ++ codes "-") ++ (left 5 (decimal pid) ++ drop USUAL_TASK text.old) }
{
    if pid < 100_000 {
        put_pid(pid, text);
        put_at(0, PID, b"           <...>-", text);
        0
    } else if pid < 1_000_000 {
        put_six(PID - 1, pid, text);
        put_at(0, PID - 1, b"          <...>-", text);
        1
    } else {
        put_seven(PID - 2, pid, text);
        put_at(0, PID - 2, b"         <...>-", text);
        2
    }
}

/// Puts a number of seven digits.
#[inline(always)]
#[tactic(auto, using(crate::proofs::Pids::seven_front))]
fn put_seven(from: usize, n: u32, text: &mut [u8; USUAL_FRONT])
    requires least { 1000000 ≤ n }
    requires most { n < 10000000 }
    requires inside { from + 7 ≤ USUAL_FRONT }
    ensures { drop from text.new ≡ decimal n ++ drop (from + 7) text.old }
{
    let high = n / 10_000;
    let low = n % 10_000;
    put_at(from + 5, from + 7, &two_digits(low % 100), text);
    put_at(from + 3, from + 5, &two_digits(low / 100), text);
    put_at(from, from + 3, three_digits(high), text);
}

/// Puts a pid at the left of its column.
#[inline(always)]
#[tactic(auto, using(crate::proofs::Pids::one_digit, crate::proofs::Pids::two_digits, crate::proofs::Pids::three_digits))]
fn put_pid(pid: u32, text: &mut [u8; USUAL_FRONT])
    requires { pid < 100000 }
    ensures { drop PID text.new ≡ left 5 (decimal pid) ++ drop USUAL_TASK text.old }
{
    if pid < 10 {
        put_at(PID + 1, USUAL_TASK, b"    ", text);
        put_at(PID, PID + 1, &[b'0' + pid as u8], text);
    } else if pid < 100 {
        put_at(PID + 2, USUAL_TASK, b"   ", text);
        put_at(PID, PID + 2, &two_digits(pid), text);
    } else if pid < 1000 {
        put_at(PID + 3, USUAL_TASK, b"  ", text);
        put_at(PID + 1, PID + 3, &two_digits(pid % 100), text);
        put_at(PID, PID + 1, &[b'0' + (pid / 100) as u8], text);
    } else {
        put_long_pid(pid, text);
    }
}

/// Puts a pid of four or five digits.
#[inline(always)]
#[tactic(auto, using(crate::proofs::Pids::four_digits, crate::proofs::Pids::five_digits))]
fn put_long_pid(pid: u32, text: &mut [u8; USUAL_FRONT])
    requires least { 1000 ≤ pid }
    requires most { pid < 100000 }
    ensures { drop PID text.new ≡ left 5 (decimal pid) ++ drop USUAL_TASK text.old }
{
    let high = pid / 100;
    if pid < 10_000 {
        put_at(PID + 4, USUAL_TASK, b" ", text);
        put_at(PID + 2, PID + 4, &two_digits(pid % 100), text);
        put_at(PID, PID + 2, &two_digits(high), text);
    } else {
        put_at(PID + 3, USUAL_TASK, &two_digits(pid % 100), text);
        put_at(PID + 1, PID + 3, &two_digits(high % 100), text);
        put_at(PID, PID + 1, &[b'0' + (high / 100) as u8], text);
    }
}

/// Puts the columns where the pid is any.
#[inline(never)]
fn put_any_unnamed(pid: i32, cpu: u32, time: u64, label: &[u8], into: &mut Tail<'_>) -> usize
    requires cpu { cpu < USUAL_CPUS }
    requires time { time < USUAL_TIMES }
    requires label { length label.now ≡ USUAL_LABEL }
    ensures same_slice { lent into.new ≡ lent into.old }
    ensures value { held into.new ≡ put_held (held into.old) ((right 16 unnamed ++ codes "-") ++ (left 5 (signed_decimal pid) ++ (usual_when cpu time ++ label.now))) }
    ensures len { result ≡ length ((right 16 unnamed ++ codes "-") ++ (left 5 (signed_decimal pid) ++ (usual_when cpu time ++ label.now))) }
{
    let mut front = Front::new();
    put_usual_when(cpu, time, label, &mut front);
    put_without_name(pid, &mut front, into)
}

/// How a line begins that tells of a task without a name, up to its pid.
fn no_name() -> &'static [u8; 17]
    ensures value { result.now ≡ right 16 unnamed ++ codes "-" }
    ensures len { length result.now ≡ 17 }
{
    b"           <...>-"
}

/// Puts a text with a task without a name in front of it, and gives the length of both.
#[inline(always)]
fn put_without_name(pid: i32, front: &mut Front, into: &mut Tail<'_>) -> usize
    requires { length front.old ≤ BEFORE_PID }
    ensures same_slice { lent into.new ≡ lent into.old }
    ensures value { held into.new ≡ put_held (held into.old) ((right 16 unnamed ++ codes "-") ++ (left 5 (signed_decimal pid) ++ front.old)) }
    ensures len { result ≡ length ((right 16 unnamed ++ codes "-") ++ (left 5 (signed_decimal pid) ++ front.old)) }
{
    front.prepend_pid(pid);
    front.prepend_text(no_name());
    into.put(front.as_bytes());
    front.len()
}
