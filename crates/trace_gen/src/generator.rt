// The events of a seed, one after another.

ghost use Rattle.std.specs.Prelude.{◌≡◌, ◌+◌, ◌-◌, ◌<◌, ◌≤◌, ◌/◌, ◌%◌, ◌^◌, ◌==◌, if◌then◌else◌, ℕ, slice_index};
ghost use Rattle.trace_gen.specs.Generated.{next_state, cpu_at, event_at, payload_of};
ghost use Rattle.trace_gen.specs.At.{IsAt, generated_view};

use trace_base::{Order, put_u16, put_u32};

/// The id of the one event format.
const EVENT_ID: u16 = 900;

/// How many processors there are.
const CPUS: u32 = 4;

/// Where each processor's time begins, in nanoseconds.
const START: u64 = 1_000_000_000;

/// The step of each thousandth event, which a time_delta has no room for.
const FAR_STEP: u32 = 1 << 28;

/// Makes the events of a seed, of all processors, in their order.
#[derive(Drop)]
pub(crate) struct Generator {
    state: u64,
    made: u32,
    times: [u64; 4],
}

/// A generated event.
#[derive(Drop)]
pub(crate) struct Generated {
    pub(crate) cpu: u32,
    pub(crate) time: u64,
    pub(crate) payload: [u8; 16],
}

#[tactic(auto, unfolding(crate::specs::Generated::next_state))]
fn next_of(state: u64) -> u64
    ensures { result ≡ next_state state }
{
    state
        .wrapping_mul(6364136223846793005)
        .wrapping_add(1442695040888963407)
}

fn payload_by(pid: u32, value: u32) -> [u8; 16]
    ensures { result ≡ payload_of pid value }
{
    let mut payload = [0; 16];
    put_u16(Order::Little, EVENT_ID, &mut payload);
    put_u32(Order::Little, pid, &mut payload[4..]);
    put_u32(Order::Little, value, &mut payload[8..]);
    put_u32(Order::Little, value % 8, &mut payload[12..]);
    payload
}

impl Generator {
    /// Before the first event.
    pub(crate) fn new(seed: u64) -> Generator
        ensures { IsAt seed result 0 }
    {
        Generator {
            state: seed,
            made: 0,
            times: [START; 4],
        }
    }

    // Draws a number of 31 bits.
    fn draw(&mut self) -> u32
        ensures state { self.new.state ≡ next_state self.old.state }
        ensures drawn { result ≡ next_state self.old.state / 2 ^ 33 }
        ensures made { self.new.made ≡ self.old.made }
        ensures times { self.new.times ≡ self.old.times }
        ensures few { result < 2 ^ 31 }
    {
        self.state = next_of(self.state);
        (self.state / (1 << 33)) as u32
    }

    // Draws a step. A far one is drawn all the same.
    fn draw_step(&mut self) -> u32
        ensures state { self.new.state ≡ next_state self.old.state }
        ensures step { result ≡ (if self.old.made % 1000 == 999 then 268435456 else next_state self.old.state / 2 ^ 33 % 5000) }
        ensures made { self.new.made ≡ self.old.made }
        ensures times { self.new.times ≡ self.old.times }
    {
        let drawn = self.draw();
        if self.made % 1000 == 999 {
            FAR_STEP
        } else {
            drawn % 5000
        }
    }

    /// The next event.
    pub(crate) fn make(&mut self) -> Generated
        requires made { self.old.made < 2 ^ 32 - 1 }
        requires times { (cpu : ℕ) → cpu < 4 → slice_index self.old.times cpu < 2 ^ 63 }
        ensures at { (seed n : ℕ) → IsAt seed self.old n → IsAt seed self.new (n + 1) }
        ensures event { (seed n : ℕ) → IsAt seed self.old n → generated_view result ≡ event_at seed n }
        ensures cpu { (seed n : ℕ) → IsAt seed self.old n → result.cpu ≡ cpu_at seed n }
    {
        let cpu = self.draw() % CPUS;
        let step = self.draw_step();
        let pid = self.draw() % 100;
        let value = self.draw();
        let time = self.times[cpu as usize] + step as u64;
        self.times[cpu as usize] = time;
        self.made += 1;
        Generated {
            cpu,
            time,
            payload: payload_by(pid, value),
        }
    }
}
