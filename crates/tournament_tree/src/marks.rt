// Marks, by which slots are compared.
//
// Whole marks tell all keys apart. Short ones are words of 64 bits, which are compared in half the steps: they have a key's distance
// from a base, and tell keys apart that are not too far from each other.

ghost use Rattle.std.specs.Prelude.{◌≡◌, ◌≢◌, ◌⊎◌, ℕ, ◌*◌, ◌<◌, ◌≤◌, length, slice_index_or, unwrap_or, Some, IfSome, true};
ghost use Rattle.tournament_tree.specs.Nodes.{IsSmall, IsTelling, base_with, highest, mark_of, most, nothing, scale, short_of, whole};

use crate::slot_key::SlotKey;

/// A number that all slots stand below.
pub(crate) const MOST: u128 = 4_294_967_296;

/// The whole mark of an empty slot, greater than those of all keys.
pub(crate) const NOTHING: u128 = 18_446_744_073_709_551_617 * 4_294_967_296;

/// A short mark is so many times its rank, and the slot.
pub(crate) const SCALE: u64 = 1024;

/// The rank in a short mark of keys that are too far on, and of an empty slot: 2^54 - 1. In nanoseconds that is 208 days.
pub(crate) const TOP: u64 = 18_014_398_509_481_983;

/// The greatest base. Each rank below the top stands for a key then.
const HIGHEST: u64 = 18_428_729_675_200_069_632;

/// How far before the first time the base is set.
const HALF: u64 = 9_007_199_254_740_992;

/// The whole mark of a slot, by which slots are compared: lesser keys come first, and slots of one key in their order.
fn mark_of(slot: usize, key: SlotKey) -> u128
    requires { slot < most }
    ensures value { result ≡ mark_of slot key }
    ensures small { IsSmall key }
{
    match key {
        SlotKey::Empty => NOTHING,
        SlotKey::Start => slot as u128,
        SlotKey::At(key) => (u128::from(key) + 1) * MOST + slot as u128,
    }
}

/// The leaf of a slot: a short mark, which tells keys apart that stand after the base and not too far from it.
pub(crate) fn short_of(base: u64, slot: usize, key: SlotKey) -> u64
    requires { slot < scale }
    ensures value { result ≡ short_of base slot key }
    ensures small { IsSmall key }
{
    match key {
        SlotKey::Empty => TOP * SCALE,
        SlotKey::Start => slot as u64,
        SlotKey::At(key) if key < base => slot as u64,
        SlotKey::At(key) => ((key - base).min(TOP - 1) + 1) * SCALE + slot as u64,
    }
}

/// The base once a slot has this key: the first time that comes sets it, and before it any will do.
#[inline]
pub(crate) fn base_with(base: &mut Option<u64>, key: SlotKey) -> u64
    ensures set { base.new ≡ base_with base.old key }
    ensures value { result ≡ unwrap_or base.new 0 }
{
    match (*base, key) {
        (Some(base), _) => base,
        (None, SlotKey::At(key)) => {
            let first = key.saturating_sub(HALF).min(HIGHEST);
            *base = Some(first);
            first
        }
        (None, _) => 0,
    }
}

/// Whether the slot of a short mark that is the least has the least key.
pub(crate) fn is_telling(mark: u64) -> bool
    ensures { result ≡ true → IsTelling mark }
{
    SCALE <= mark && mark < TOP * SCALE
}

/// The whole mark of a short one's slot and key.
pub(crate) fn whole(base: u64, mark: u64) -> u128
    requires base { base ≤ highest }
    requires telling { IsTelling mark }
    ensures value { result ≡ whole base mark }
{
    u128::from(base + mark / SCALE) * MOST + u128::from(mark % SCALE)
}

/// The least of the whole marks of all slots but one.
pub(crate) fn least_mark(keys: &[SlotKey], but: Option<usize>) -> u128
    requires { length keys.now ≤ most }
    ensures least { (i : ℕ) → i < length keys.now → but ≢ Some i → result ≤ mark_of i (slice_index_or keys.now i SlotKey.Empty) }
    ensures among { (result ≡ nothing * most) ⊎ ((i : ℕ) × ((i < length keys.now) × (result ≡ mark_of i (slice_index_or keys.now i SlotKey.Empty)))) }
    ensures most { result ≤ nothing * most }
{
    let mut least = NOTHING;
    for i in 0..keys.len() {
        if but != Some(i) {
            least = least.min(mark_of(i, keys[i]));
        }
    }
    least
}

/// The greatest key with which a slot's whole mark is less than this one.
pub(crate) fn key_before(slot: usize, mark: u128) -> Option<u64>
    requires slot { slot < most }
    requires mark { mark ≤ nothing * most }
    ensures { IfSome result (λ key. mark_of slot (SlotKey.At key) < mark) }
{
    let first = MOST + slot as u128;
    if mark <= first {
        return None;
    }
    Some(((mark - first - 1) / MOST) as u64)
}
