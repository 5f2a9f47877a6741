// A time on a command line.

ghost use Rattle.std.specs.Prelude.{◌≡◌, ◌*◌, ◌^◌, ◌≤◌, IfSome, OnSome, length, option_map};
ghost use Rattle.word_values.specs.Moments.{decimal_moment, decimal_part, moment_of, moment_with, whole_seconds};

use crate::cut::around_first;
use crate::number::number_within;

/// A time as it was written: seconds, with up to nine decimals.
#[derive(Clone, Copy, Debug, PartialEq, Eq)]
pub struct Moment {
    /// Whether the value is in microseconds, as for up to six decimals, and not in nanoseconds.
    pub micro: bool,
    /// How many micro- or nanoseconds.
    pub value: u128,
}

impl Moment {
    /// The moment that the text spells.
    pub fn parse(text: &[u8]) -> Option<Moment>
        ensures { result ≡ moment_of text.now }
    {
        match around_first(text, b'.') {
            Some((whole, decimals)) => decimal_moment(whole, decimals),
            None => whole_moment(text),
        }
    }
}

// The moment of whole seconds.
fn whole_moment(text: &[u8]) -> Option<Moment>
    ensures { result ≡ option_map (λ seconds. moment_with seconds 0 0) (whole_seconds text.now) }
{
    let seconds = whole_seconds(text)?;
    Some(moment_with(seconds, 0, 0))
}

// The moment with decimals.
fn decimal_moment(whole: &[u8], decimals: &[u8]) -> Option<Moment>
    ensures { result ≡ decimal_moment whole.now decimals.now }
{
    let seconds = whole_seconds(whole)?;
    let part = decimal_part(decimals)?;
    Some(moment_with(seconds, decimals.len(), part))
}

// The seconds: up to eleven digits.
#[tactic(auto, using(crate::proofs::NumberLaws::number_within_most))]
fn whole_seconds(text: &[u8]) -> Option<u64>
    ensures value { result ≡ whole_seconds text.now }
    ensures bound { IfSome result (λ seconds. seconds ≤ 99999999999) }
{
    if text.len() <= 11 {
        number_within(text, 0, 99_999_999_999)
    } else {
        None
    }
}

// The decimals: up to nine digits.
#[tactic(auto, using(crate::proofs::NumberLaws::number_within_most))]
fn decimal_part(text: &[u8]) -> Option<u64>
    ensures value { result ≡ decimal_part text.now }
    ensures bound { IfSome result (λ part. part ≤ 999999999) }
    ensures places { OnSome result (length text.now ≤ 9) }
{
    if text.len() <= 9 {
        number_within(text, 0, 999_999_999)
    } else {
        None
    }
}

// The moment of these seconds and decimals, of which so many are written.
fn moment_with(seconds: u64, places: usize, part: u64) -> Moment
    requires seconds { seconds ≤ 99999999999 }
    requires places { places ≤ 9 }
    requires part { part ≤ 999999999 }
    ensures { result ≡ moment_with seconds places part }
{
    if places <= 6 {
        Moment {
            micro: true,
            value: u128::from(seconds) * 1_000_000 + scaled(part, 6 - places),
        }
    } else {
        Moment {
            micro: false,
            value: u128::from(seconds) * 1_000_000_000 + scaled(part, 9 - places),
        }
    }
}

// The number with so many zeros after it.
#[tactic(auto, using(crate::proofs::NumberLaws::power_bound, crate::proofs::NumberLaws::scaled_bound))]
fn scaled(part: u64, zeros: usize) -> u128
    requires part { part ≤ 999999999 }
    requires zeros { zeros ≤ 9 }
    ensures value { result ≡ part * 10 ^ zeros }
    ensures bound { result ≤ 10 ^ 18 }
{
    u128::from(part) * 10u128.pow(zeros as u32)
}
