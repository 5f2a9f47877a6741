// Decimal numbers in a text.

ghost use Rattle.std.specs.Prelude.{◌≡◌};
ghost use Rattle.word_values.specs.Number.{event_count, number_within, piece_count, seed_number, within, worker_count};

use byte_classes::number_written;

/// The number that the text spells, where it spells one from `least` to `most`.
pub fn number_within(text: &[u8], least: u64, most: u64) -> Option<u64>
    ensures { result ≡ number_within least most text.now }
{
    if text.is_empty() {
        return None;
    }
    let number = number_written(10, text)?;
    between(number, least, most)
}

// The number, where it lies in a range.
fn between(number: u64, least: u64, most: u64) -> Option<u64>
    ensures { result ≡ within least most number }
{
    if least <= number && number <= most {
        Some(number)
    } else {
        None
    }
}

/// The same of a range of small numbers.
#[tactic(auto, using(crate::proofs::NumberLaws::number_within_most))]
pub fn small_within(text: &[u8], least: u32, most: u32) -> Option<u32>
    ensures { result ≡ number_within least most text.now }
{
    let number = number_within(text, u64::from(least), u64::from(most))?;
    Some(number as u32)
}

/// How many workers the text asks for.
pub fn worker_count(text: &[u8]) -> Option<u32>
    ensures { result ≡ worker_count text.now }
{
    small_within(text, 1, 64)
}

/// The seed of a self-test.
pub fn seed_number(text: &[u8]) -> Option<u64>
    ensures { result ≡ seed_number text.now }
{
    number_within(text, 0, u64::MAX)
}

/// The number of events of a self-test.
pub fn event_count(text: &[u8]) -> Option<u32>
    ensures { result ≡ event_count text.now }
{
    small_within(text, 0, 1_000_000)
}

/// The size of a piece.
pub fn piece_count(text: &[u8]) -> Option<u32>
    ensures { result ≡ piece_count text.now }
{
    small_within(text, 1, 1_000_000_000)
}
