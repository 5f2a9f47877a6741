// How long tasks waited.

ghost use Rattle.std.specs.Prelude.{◌≡◌, ◌<◌, ◌≤◌, ◌*◌, ◌-◌, ◌^◌, length, sum_by};
ghost use Rattle.wakeup_pairs.specs.Figures as spec;

use crate::wakeup_item::Pair;

/// How long a task waited, in nanoseconds; 0 where the switch has the lower time.
pub fn latency(pair: &Pair) -> u64
    ensures { result ≡ spec.latency pair.now }
{
    pair.time.saturating_sub(pair.woken)
}

// The sum of all latencies. There are fewer than 2^64 pairs, so it is below 2^128.
fn total(pairs: &[Pair]) -> u128
    ensures value { result ≡ sum_by spec.latency pairs.now }
    ensures small { result ≤ length pairs.now * (2 ^ 64 - 1) }
{
    let mut total = 0;
    for pair in pairs {
        total += u128::from(latency(pair));
    }
    total
}

/// The average latency, in whole nanoseconds.
pub fn average(pairs: &[Pair]) -> u64
    requires { 0 < length pairs.now }
    ensures { result ≡ spec.average pairs.now }
{
    (total(pairs) / pairs.len() as u128) as u64
}

/// The pair that waited longest, and of several the first, among a first one and others that follow it.
pub fn longest(first: Pair, rest: &[Pair]) -> Pair
    ensures { result ≡ spec.longest first rest.now }
{
    rest.iter().fold(first, |best, pair| longer(best, *pair))
}

fn longer(one: Pair, two: Pair) -> Pair
    ensures { result ≡ spec.longer one two }
{
    if latency(&one) < latency(&two) {
        two
    } else {
        one
    }
}

/// The pair that waited shortest, and of several the first, among a first one and others that follow it.
pub fn shortest(first: Pair, rest: &[Pair]) -> Pair
    ensures { result ≡ spec.shortest first rest.now }
{
    rest.iter().fold(first, |best, pair| shorter(best, *pair))
}

fn shorter(one: Pair, two: Pair) -> Pair
    ensures { result ≡ spec.shorter one two }
{
    if latency(&two) < latency(&one) {
        two
    } else {
        one
    }
}
