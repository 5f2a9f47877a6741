// The front of most lines: its columns have their usual widths, so that each stands at a place that is known beforehand.

ghost use Rattle.std.specs.Prelude.{◌≡◌, ◌++◌, ◌+◌, ◌%◌, ◌/◌, ◌^◌, ◌<◌, ◌≤◌, drop, length, codes, false};
ghost use Rattle.std.specs.Fmt.{decimal};
ghost use Rattle.trace_base.specs.Times.{micros};
ghost use Rattle.line_columns.specs.Columns.{right, zeros, time_text};
ghost use Rattle.line_fronts.specs.When.{usual_when};

use crate::places::place;
use crate::tasks::USUAL_TASK;
use line_columns::{USUAL_COLUMNS, USUAL_LABEL, USUAL_TIMES, two_digits};

/// How long most fronts are.
pub(crate) const USUAL_FRONT: usize = USUAL_COLUMNS + USUAL_LABEL;

/// Processors before this one have no more digits than their column is wide.
pub const USUAL_CPUS: u32 = 1000;

/// Where the processor ends with its brackets, after the task.
const PLACE_END: usize = USUAL_TASK + 7;

/// Where the whole seconds end.
const SECONDS_END: usize = PLACE_END + 5;

/// Where the time ends.
const TIME_END: usize = SECONDS_END + 7;

/// Puts a text in front of what stands from `to` on.
#[inline(always)]
pub(crate) fn put_at(from: usize, to: usize, piece: &[u8], text: &mut [u8; USUAL_FRONT])
    requires whole { from + length piece.now ≡ to }
    requires inside { to ≤ USUAL_FRONT }
    ensures { drop from text.new ≡ piece.now ++ drop to text.old }
{
    text[from..to].copy_from_slice(piece);
}

/// The same of a text of a known length that is not the program's own: a copy by way of a place of its own needs no test whether
/// the texts overlap.
#[inline(always)]
fn put_copy<const N: usize>(from: usize, piece: &[u8], text: &mut [u8; USUAL_FRONT])
    requires whole { length piece.now ≡ N }
    requires inside { from + N ≤ USUAL_FRONT }
    ensures { drop from text.new ≡ piece.now ++ drop (from + N) text.old }
{
    let mut copy = [0; N];
    copy.copy_from_slice(piece);
    put_at(from, from + N, &copy, text);
}

/// A time as whole seconds and what is left of it in microseconds, where it is rounded to them.
#[inline(always)]
fn rounded(time: u64) -> (u32, u32)
    requires { time < USUAL_TIMES }
    ensures seconds { result.0 ≡ micros time / 10 ^ 6 }
    ensures rest { result.1 ≡ micros time % 10 ^ 6 }
    ensures few { result.0 < 100000 }
    ensures small { result.1 < 1000000 }
{
    let time = time + 500;
    let rest = (time % 1_000_000_000) as u32;
    ((time / 1_000_000_000) as u32, rest / 1000)
}

/// Puts a time.
#[inline(always)]
#[tactic(auto, unfolding(line_columns::specs::Columns::time_text))]
fn put_time(time: u64, text: &mut [u8; USUAL_FRONT])
    requires { time < USUAL_TIMES }
    ensures { drop PLACE_END text.new ≡ time_text false time ++ drop TIME_END text.old }
{
    let (seconds, micros) = rounded(time);
    put_six(SECONDS_END + 1, micros, text);
    put_at(SECONDS_END, SECONDS_END + 1, b".", text);
    put_seconds(seconds, text);
}

/// Puts a number as six digits.
#[inline(always)]
#[tactic(auto, using(crate::proofs::UsualFronts::six_front))]
pub(crate) fn put_six(from: usize, n: u32, text: &mut [u8; USUAL_FRONT])
    requires small { n < 1000000 }
    requires inside { from + 6 ≤ USUAL_FRONT }
    ensures { drop from text.new ≡ zeros 6 (decimal n) ++ drop (from + 6) text.old }
{
    let low = n % 10_000;
    put_at(from + 4, from + 6, &two_digits(low % 100), text);
    put_at(from + 2, from + 4, &two_digits(low / 100), text);
    put_at(from, from + 2, &two_digits(n / 10_000), text);
}

/// Puts a number below 100, with a space in place of a leading zero.
#[inline(always)]
#[tactic(auto, using(crate::proofs::UsualFronts::wide_pair, crate::proofs::UsualFronts::narrow_pair))]
fn put_spaced(from: usize, n: u32, text: &mut [u8; USUAL_FRONT])
    requires small { n < 100 }
    requires inside { from + 2 ≤ USUAL_FRONT }
    ensures { drop from text.new ≡ right 2 (decimal n) ++ drop (from + 2) text.old }
{
    if n < 10 {
        put_at(from + 1, from + 2, &[b'0' + n as u8], text);
        put_at(from, from + 1, b" ", text);
    } else {
        put_at(from, from + 2, &two_digits(n), text);
    }
}

/// Puts the seconds, at the right of their column.
#[inline(always)]
#[tactic(auto, using(crate::proofs::UsualFronts::two_places, crate::proofs::UsualFronts::four_places, crate::proofs::UsualFronts::five_places))]
fn put_seconds(n: u32, text: &mut [u8; USUAL_FRONT])
    requires { n < 100000 }
    ensures { drop PLACE_END text.new ≡ right 5 (decimal n) ++ drop SECONDS_END text.old }
{
    if n < 100 {
        put_spaced(SECONDS_END - 2, n, text);
        put_at(PLACE_END, SECONDS_END - 2, b"   ", text);
    } else if n < 10_000 {
        put_at(SECONDS_END - 2, SECONDS_END, &two_digits(n % 100), text);
        put_spaced(PLACE_END + 1, n / 100, text);
        put_at(PLACE_END, PLACE_END + 1, b" ", text);
    } else {
        let high = n / 100;
        put_at(SECONDS_END - 2, SECONDS_END, &two_digits(n % 100), text);
        put_at(
            PLACE_END + 1,
            SECONDS_END - 2,
            &two_digits(high % 100),
            text,
        );
        put_at(PLACE_END, PLACE_END + 1, &[b'0' + (high / 100) as u8], text);
    }
}

/// Puts the processor.
#[inline(always)]
#[tactic(auto, using(crate::proofs::UsualFronts::in_brackets))]
fn put_place(cpu: u32, text: &mut [u8; USUAL_FRONT])
    requires { cpu < USUAL_CPUS }
    ensures { drop USUAL_TASK text.new ≡ (codes " [" ++ (zeros 3 (decimal cpu) ++ codes "] ")) ++ drop PLACE_END text.old }
{
    put_at(PLACE_END - 1, PLACE_END, b" ", text);
    put_at(USUAL_TASK + 2, PLACE_END - 1, place(cpu), text);
    put_at(USUAL_TASK, USUAL_TASK + 2, b" [", text);
}

/// Writes the end of a front: where and when it was, and the event's name.
#[inline(always)]
pub(crate) fn write_when(cpu: u32, time: u64, label: &[u8], text: &mut [u8; USUAL_FRONT])
    requires cpu { cpu < USUAL_CPUS }
    requires time { time < USUAL_TIMES }
    requires label { length label.now ≡ USUAL_LABEL }
    ensures { drop USUAL_TASK text.new ≡ usual_when cpu time ++ label.now }
{
    put_copy::<USUAL_LABEL>(USUAL_COLUMNS, label, text);
    put_at(TIME_END, USUAL_COLUMNS, b": ", text);
    put_time(time, text);
    put_place(cpu, text);
}

/// Writes the front of a line: the task, where and when it was, and the event's name.
#[inline(always)]
pub(crate) fn write_front(
    task: &[u8],
    cpu: u32,
    time: u64,
    label: &[u8],
    text: &mut [u8; USUAL_FRONT],
)
    requires task { length task.now ≡ USUAL_TASK }
    requires cpu { cpu < USUAL_CPUS }
    requires time { time < USUAL_TIMES }
    requires label { length label.now ≡ USUAL_LABEL }
    ensures { text.new ≡ task.now ++ (usual_when cpu time ++ label.now) }
{
    write_when(cpu, time, label, text);
    // By no place of its own: a copy of 22 bytes is compiled to two that overlap, and would wait for both before it is read again.
    put_at(0, USUAL_TASK, task, text);
}
