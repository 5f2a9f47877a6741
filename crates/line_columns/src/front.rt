// The columns of a line, written from the right.

ghost use Rattle.std.specs.Prelude.{◌≡◌, ◌∷◌, ◌++◌, [], false, ◌+◌, ◌-◌, ◌/◌, ◌%◌, ◌^◌, ◌<◌, ◌≤◌, length, max, replicate, codes, FitsSigned};
ghost use Rattle.std.specs.Int.{w32};
ghost use Rattle.std.specs.Fmt.{decimal, signed_decimal};
ghost use Rattle.line_columns.specs.Columns.{left, right, zeros, time_text, bare_time_text, duration_text};
ghost use Rattle.line_columns.specs.Marks as spec;

use crate::marks::latency_marks;
use crate::pairs::two_digits;
use crate::widths::{
    BEFORE_PID, BEFORE_PLACE, BEFORE_TASK, BEFORE_TIME, CPU, DIGITS, LONGEST_DURATION, LONGEST_PID,
    LONGEST_PROCESSOR, LONGEST_TASK, LONGEST_TIME, PID, ROOM, USUAL_LABEL, USUAL_TIMES,
};
use itoa::{Buffer, write_digits};
use std::marker::Model;
use trace_base::micros;

/// A text that grows at its front, in a room of spaces. Contracts see the text.
#[derive(Drop)]
pub struct Front {
    buffer: [u8; ROOM],
    at: usize,
}

impl Model for Front {
    ghost use Rattle.std.specs.Prelude.{◌≡◌, ◌≤◌, ℕ, List, take, drop, replicate};
    ghost use Rattle.line_columns.specs.declared.widths.TheConstants.{ROOM};

    ghost Value = { List ℕ };

    ghost view = { λ f. drop f.at f.buffer };

    ghost invariant = { λ f. (f.at ≤ ROOM) × (take f.at f.buffer ≡ replicate f.at 32) };
}

impl Front {
    /// Nothing yet.
    pub fn new() -> Front
        ensures { result ≡ [] }
    {
        Front {
            buffer: [b' '; ROOM],
            at: ROOM,
        }
    }

    /// Puts the first text.
    #[inline(always)]
    pub fn start(&mut self, text: &[u8])
        requires empty { self.old ≡ [] }
        requires short { length text.now ≤ ROOM }
        ensures { self.new ≡ text.now }
    {
        if text.len() == USUAL_LABEL {
            // A copy of a known length needs no call, and one by way of a place of its own no test whether the texts overlap.
            let mut label = [0; USUAL_LABEL];
            label.copy_from_slice(&text[..USUAL_LABEL]);
            self.prepend_text(&label);
        } else {
            self.prepend_any_text(text);
        }
    }

    #[inline(never)]
    fn prepend_any_text(&mut self, text: &[u8])
        requires { length self.old + length text.now ≤ ROOM }
        ensures { self.new ≡ text.now ++ self.old }
    {
        self.prepend_text(text);
    }

    /// The text.
    pub fn as_bytes(&self) -> &[u8]
        ensures { result.now ≡ self.now }
    {
        &self.buffer[self.at..]
    }

    /// Its length.
    pub fn len(&self) -> usize
        ensures value { result ≡ length self.now }
        ensures small { result ≤ ROOM }
    {
        ROOM - self.at
    }

    /// Puts one byte in front.
    pub fn prepend_byte(&mut self, byte: u8)
        requires { length self.old < ROOM }
        ensures longer { length self.new ≡ length self.old + 1 }
        ensures value { self.new ≡ byte ∷ self.old }
    {
        self.at -= 1;
        self.buffer[self.at] = byte;
    }

    /// Puts a text in front.
    #[inline(always)]
    pub fn prepend_text(&mut self, text: &[u8])
        requires { length self.old + length text.now ≤ ROOM }
        ensures longer { length self.new ≡ length self.old + length text.now }
        ensures value { self.new ≡ text.now ++ self.old }
    {
        let at = self.at - text.len();
        self.buffer[at..self.at].copy_from_slice(text);
        self.at = at;
    }

    /// Puts spaces in front until the text is as long as this.
    fn pad_to(&mut self, len: usize)
        requires { len ≤ ROOM }
        ensures longer { length self.new ≡ max len (length self.old) }
        ensures value { self.new ≡ replicate (len - length self.old) 32 ++ self.old }
    {
        self.at = self.at.min(ROOM - len);
    }

    /// Puts a number in front.
    #[inline(always)]
    #[tactic(auto, using(crate::proofs::Lengths::short))]
    pub fn prepend_digits(&mut self, n: u64)
        requires { length self.old + DIGITS ≤ ROOM }
        ensures longer { length self.new ≤ length self.old + DIGITS }
        ensures value { self.new ≡ decimal n ++ self.old }
    {
        self.at = write_digits(n, &mut self.buffer, self.at);
    }

    /// Puts a number in front, at the right of its column.
    fn prepend_number(&mut self, width: usize, n: u64)
        requires room { length self.old + DIGITS ≤ ROOM }
        requires narrow { width ≤ DIGITS }
        ensures longer { length self.new ≡ max width (length (decimal n)) + length self.old }
        ensures value { self.new ≡ right width (decimal n) ++ self.old }
    {
        let len = self.len() + width;
        self.prepend_digits(n);
        self.pad_to(len);
    }

    /// Puts a number of two digits in front.
    #[inline(always)]
    fn prepend_two(&mut self, n: u32)
        requires room { length self.old + 2 ≤ ROOM }
        requires small { n < 100 }
        ensures longer { length self.new ≡ length self.old + 2 }
        ensures value { self.new ≡ zeros 2 (decimal n) ++ self.old }
    {
        self.prepend_text(&two_digits(n));
    }

    /// Puts a number of three digits in front.
    #[inline(always)]
    #[tactic(auto, using(crate::proofs::ZeroFills::three_front))]
    fn prepend_three(&mut self, n: u32)
        requires room { length self.old + 3 ≤ ROOM }
        requires small { n < 1000 }
        ensures longer { length self.new ≡ length self.old + 3 }
        ensures value { self.new ≡ zeros 3 (decimal n) ++ self.old }
    {
        self.prepend_two(n % 100);
        self.prepend_byte(b'0' + (n / 100) as u8);
    }

    /// Puts a number of six digits in front.
    #[inline(always)]
    #[tactic(auto, using(crate::proofs::ZeroFills::six_front))]
    fn prepend_six(&mut self, n: u32)
        requires room { length self.old + 6 ≤ ROOM }
        requires small { n < 1000000 }
        ensures longer { length self.new ≡ length self.old + 6 }
        ensures value { self.new ≡ zeros 6 (decimal n) ++ self.old }
    {
        self.prepend_two(n % 100);
        self.prepend_two(n / 100 % 100);
        self.prepend_two(n / 10_000);
    }

    /// Puts a number of nine digits in front.
    #[tactic(auto, using(crate::proofs::ZeroFills::nine_front))]
    fn prepend_nine(&mut self, n: u32)
        requires room { length self.old + 9 ≤ ROOM }
        requires small { n < 1000000000 }
        ensures longer { length self.new ≡ length self.old + 9 }
        ensures value { self.new ≡ zeros 9 (decimal n) ++ self.old }
    {
        self.prepend_three(n % 1000);
        self.prepend_six(n / 1000);
    }

    /// Puts seconds and their part in front.
    #[tactic(auto, unfolding(crate::specs::Columns::time_text))]
    pub fn prepend_time(&mut self, full: bool, time: u64)
        requires { length self.old ≤ BEFORE_TIME }
        ensures longer { length self.new ≤ length self.old + LONGEST_TIME }
        ensures value { self.new ≡ time_text full time ++ self.old }
    {
        if full {
            self.prepend_nine((time % 1_000_000_000) as u32);
            self.prepend_byte(b'.');
            self.prepend_number(5, time / 1_000_000_000);
        } else {
            let micros = micros(time);
            self.prepend_six((micros % 1_000_000) as u32);
            self.prepend_byte(b'.');
            self.prepend_number(5, micros / 1_000_000);
        }
    }

    /// Puts seconds of up to five digits and their part in front: what most times are.
    #[inline(always)]
    #[tactic(auto, unfolding(crate::specs::Columns::time_text))]
    pub fn prepend_usual_time(&mut self, time: u64)
        requires room { length self.old ≤ BEFORE_TIME }
        requires narrow { time < USUAL_TIMES }
        ensures longer { length self.new ≡ length self.old + 12 }
        ensures value { self.new ≡ time_text false time ++ self.old }
    {
        let micros = micros(time);
        self.prepend_six((micros % 1_000_000) as u32);
        self.prepend_byte(b'.');
        self.prepend_five(micros / 1_000_000);
    }

    /// Puts a number of up to five digits in front, at the right of its column.
    #[inline(always)]
    fn prepend_five(&mut self, n: u64)
        requires room { length self.old + 5 ≤ ROOM }
        requires small { n < 100000 }
        ensures longer { length self.new ≡ length self.old + 5 }
        ensures value { self.new ≡ right 5 (decimal n) ++ self.old }
    {
        let mut column = [b' '; 5];
        write_digits(n, &mut column, 5);
        self.prepend_text(&column);
    }

    /// Puts seconds and their part in front, without leading spaces.
    #[tactic(auto, unfolding(crate::specs::Columns::bare_time_text))]
    pub fn prepend_bare_time(&mut self, full: bool, time: u64)
        requires { length self.old ≤ BEFORE_TIME }
        ensures longer { length self.new ≤ length self.old + LONGEST_TIME }
        ensures value { self.new ≡ bare_time_text full time ++ self.old }
    {
        if full {
            self.prepend_nine((time % 1_000_000_000) as u32);
            self.prepend_byte(b'.');
            self.prepend_digits(time / 1_000_000_000);
        } else {
            let micros = micros(time);
            self.prepend_six((micros % 1_000_000) as u32);
            self.prepend_byte(b'.');
            self.prepend_digits(micros / 1_000_000);
        }
    }

    /// Puts so many nanoseconds in front, as microseconds with three digits after the point.
    #[tactic(auto, unfolding(crate::specs::Columns::duration_text))]
    pub fn prepend_duration(&mut self, nanos: u64)
        requires { length self.old ≤ BEFORE_TIME }
        ensures longer { length self.new ≤ length self.old + LONGEST_DURATION }
        ensures value { self.new ≡ duration_text nanos ++ self.old }
    {
        self.prepend_text(b" us");
        self.prepend_three((nanos % 1000) as u32);
        self.prepend_byte(b'.');
        self.prepend_digits(nanos / 1000);
    }

    /// Puts the processor in front.
    #[tactic(auto, using(crate::proofs::ZeroFills::between))]
    pub fn prepend_processor(&mut self, cpu: u32)
        requires { length self.old ≤ BEFORE_PLACE }
        ensures longer { length self.new ≤ length self.old + LONGEST_PROCESSOR }
        ensures value { self.new ≡ (codes " [" ++ (zeros 3 (decimal cpu) ++ codes "] ")) ++ self.old }
    {
        self.prepend_text(b"] ");
        self.prepend_cpu(cpu);
        self.prepend_text(b" [");
    }

    /// Puts the number of a processor in front.
    #[inline(always)]
    #[tactic(auto, using(crate::proofs::ZeroFills::two_of_three, crate::proofs::Lengths::no_zeros))]
    fn prepend_cpu(&mut self, cpu: u32)
        requires { length self.old + DIGITS ≤ ROOM }
        ensures longer { length self.new ≤ length self.old + CPU }
        ensures value { self.new ≡ zeros 3 (decimal cpu) ++ self.old }
    {
        if cpu < 100 {
            // Most machines have fewer processors.
            self.prepend_two(cpu);
            self.prepend_byte(b'0');
        } else if cpu < 1000 {
            self.prepend_three(cpu);
        } else {
            self.prepend_digits(cpu as u64);
        }
    }

    /// Puts a processor of up to two digits in front.
    #[inline(always)]
    #[tactic(auto, using(crate::proofs::ZeroFills::usual_between))]
    pub fn prepend_usual_processor(&mut self, cpu: u32)
        requires room { length self.old ≤ BEFORE_PLACE }
        requires small { cpu < 100 }
        ensures longer { length self.new ≡ length self.old + 7 }
        ensures value { self.new ≡ (codes " [" ++ (zeros 3 (decimal cpu) ++ codes "] ")) ++ self.old }
    {
        self.prepend_text(b"] ");
        self.prepend_two(cpu);
        self.prepend_text(b" [0");
    }

    /// Puts the processor in front, and what an event says of its context.
    pub fn prepend_latency(&mut self, cpu: u32, flags: u32, preempt_count: u32)
        requires { length self.old ≤ BEFORE_PLACE }
        ensures longer { length self.new ≤ length self.old + LONGEST_PROCESSOR }
        ensures value { self.new ≡ (codes " " ++ (right 3 (decimal cpu) ++ (spec.latency_marks flags preempt_count ++ codes " "))) ++ self.old }
    {
        self.prepend_byte(b' ');
        self.prepend_text(&latency_marks(flags, preempt_count));
        self.prepend_number(3, cpu as u64);
        self.prepend_byte(b' ');
    }

    /// Puts a task's name in front, at the right of its column.
    pub fn prepend_task(&mut self, width: usize, name: &[u8])
        requires room { length self.old ≤ BEFORE_TASK }
        requires narrow { width ≤ 16 }
        requires short { length name.now ≤ LONGEST_TASK }
        ensures { self.new ≡ right width name.now ++ self.old }
    {
        let len = self.len() + width;
        self.prepend_text(name);
        self.pad_to(len);
    }

    /// Puts a pid in front, at the left of its column.
    pub fn prepend_pid(&mut self, pid: i32)
        requires room { length self.old ≤ BEFORE_PID }
        requires range { FitsSigned w32 pid }
        ensures longer { length self.new ≤ length self.old + LONGEST_PID }
        ensures value { self.new ≡ left 5 (signed_decimal pid) ++ self.old }
    {
        match u32::try_from(pid) {
            Ok(pid) if pid < 100_000 => self.prepend_short_pid(pid as u64),
            Ok(pid) => self.prepend_wide_pid(pid),
            Err(_) => self.prepend_long_pid(pid),
        }
    }

    /// Puts a pid in front that is not wider than its column.
    fn prepend_short_pid(&mut self, pid: u64)
        requires room { length self.old ≤ BEFORE_PID }
        requires small { pid < 100000 }
        ensures longer { length self.new ≡ length self.old + PID }
        ensures value { self.new ≡ left 5 (decimal pid) ++ self.old }
    {
        let mut column = [b' '; 10];
        let start = write_digits(pid, &mut column, 5);
        self.prepend_text(&column[start..start + 5]);
    }

    /// Puts a pid in front that is wider than its column.
    #[inline(always)]
    fn prepend_wide_pid(&mut self, pid: u32)
        requires room { length self.old ≤ BEFORE_PID }
        requires wide { 100000 ≤ pid }
        ensures longer { length self.new ≤ length self.old + LONGEST_PID }
        ensures value { self.new ≡ left 5 (decimal pid) ++ self.old }
    {
        self.prepend_digits(pid as u64);
    }

    /// Puts any pid in front.
    #[inline(never)]
    fn prepend_long_pid(&mut self, pid: i32)
        requires room { length self.old ≤ BEFORE_PID }
        requires range { FitsSigned w32 pid }
        ensures longer { length self.new ≤ length self.old + LONGEST_PID }
        ensures value { self.new ≡ left 5 (signed_decimal pid) ++ self.old }
    {
        let mut buffer = Buffer::new();
        let digits = buffer.format(pid).as_bytes();
        self.pad_to(self.len() + 5usize.saturating_sub(digits.len()));
        self.prepend_text(digits);
    }
}
