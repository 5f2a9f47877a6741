ghost use Rattle.std.specs.Prelude.{◌≡◌, ◌≤◌, ℕ, false};
ghost use Rattle.split_pieces.specs.Moments.{is_before, is_past, time_as};

use trace_base::micros;
use word_values::Moment;

// A key, in nanoseconds, as it is compared with the moment's value.
fn time_as(micro: bool, key: u64) -> u64
    ensures { result ≡ time_as micro key }
{
    if micro { micros(key) } else { key }
}

/// Whether an item of this key stands before the moment.
pub fn is_before(moment: Moment, key: u64) -> bool
    ensures { result ≡ is_before moment key }
{
    u128::from(time_as(moment.micro, key)) < moment.value
}

/// The greatest key of 64 bits of an item that does not stand past the moment.
pub fn last_until(moment: Moment) -> u64
    ensures { (key : ℕ) → key ≤ result → is_past moment key ≡ false }
{
    if u128::from(u64::MAX) <= moment.value {
        return u64::MAX;
    }
    if moment.micro {
        (moment.value * 1000 + 499).min(u128::from(u64::MAX)) as u64
    } else {
        moment.value as u64
    }
}

/// Whether an item of this key stands past the moment.
pub fn is_past(moment: Moment, key: u64) -> bool
    ensures { result ≡ is_past moment key }
{
    moment.value < u128::from(time_as(moment.micro, key))
}
