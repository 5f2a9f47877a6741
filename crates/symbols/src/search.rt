// A search among numbers that rise.

ghost use Rattle.std.specs.Prelude.{◌≡◌, ◌+◌, ◌<◌, ◌≤◌, ℕ, length, slice_index, IfSome, IfNone};
ghost use Rattle.symbols.specs.Search.{keys_in, IsAdvanced, IsLastUpTo, NoneWithin, RisesKeys};

use crate::guide::Near;
use crate::names::Spot;

#[inline(always)]
fn key_at(spots: &[Spot], i: usize) -> u64
    requires { i < length spots.now }
    ensures { result ≡ slice_index (keys_in spots.now) i }
{
    spots[i].key
}

/// The place of the greatest number that is at most this one, among so many from a place on. The first of these is at most
/// this one, and all after them are above it.
#[inline(always)]
fn last_among(spots: &[Spot], from: usize, count: usize, key: u64) -> usize
    requires rises { RisesKeys (keys_in spots.now) }
    requires some { 0 < count }
    requires within { from + count ≤ length spots.now }
    requires first { slice_index (keys_in spots.now) from ≤ key }
    requires past { (k : ℕ) → from + count ≤ k → k < length spots.now → key < slice_index (keys_in spots.now) k }
    ensures { IsLastUpTo (keys_in spots.now) key result }
{
    let mut low = from;
    let mut left = count;
    while left > 1 {
        let half = left / 2;
        if key_at(spots, low + half) <= key {
            low += half;
        }
        left -= half;
    }
    low
}

/// The next place, if the number there is at most this one, and else this place. Which of both is no jump that a processor would
/// have to guess.
#[inline(always)]
fn advance(spots: &[Spot], at: usize, key: u64) -> usize
    requires { at + 1 < length spots.now }
    ensures { IsAdvanced (keys_in spots.now) key at result }
{
    at + (key_at(spots, at + 1) <= key) as usize
}

/// How far apart the places of a few numbers are at the most.
const FEW: usize = 4;

/// The place of the greatest number that is at most this one, which stands between two places that are not far apart.
#[inline(always)]
fn last_of_few(spots: &[Spot], near: Near, key: u64) -> usize
    requires rises { RisesKeys (keys_in spots.now) }
    requires within { near.to < length spots.now }
    requires few { (near.from < near.to) × (near.to ≤ near.from + FEW) }
    requires first { slice_index (keys_in spots.now) near.from ≤ key }
    requires past { key < slice_index (keys_in spots.now) near.to }
    ensures { IsLastUpTo (keys_in spots.now) key result }
{
    let second = advance(spots, near.from, key);
    let third = advance(spots, second, key);
    advance(spots, third, key)
}

/// The place of the greatest number that is at most this one, if it stands between these places.
#[inline(always)]
fn place_between(spots: &[Spot], near: Near, key: u64) -> Option<usize>
    requires { RisesKeys (keys_in spots.now) }
    ensures { IfSome result (IsLastUpTo (keys_in spots.now) key) }
{
    let Near { from, to } = near;
    if from >= to || to >= spots.len() || key < key_at(spots, from) || key_at(spots, to) <= key {
        return None;
    }
    if to - from <= FEW {
        Some(last_of_few(spots, near, key))
    } else {
        Some(last_among(spots, from, to - from, key))
    }
}

/// The place of the greatest number that is at most this one, by a search among all.
#[inline(never)]
fn place_among(spots: &[Spot], key: u64) -> Option<usize>
    requires { RisesKeys (keys_in spots.now) }
    ensures found { IfSome result (IsLastUpTo (keys_in spots.now) key) }
    ensures none { IfNone result (NoneWithin (keys_in spots.now) key) }
{
    if !spots.is_empty() && key_at(spots, 0) <= key {
        Some(last_among(spots, 0, spots.len(), key))
    } else {
        None
    }
}

/// The place of the greatest number that is at most this one. It is looked for first where it may stand.
#[inline(always)]
pub(crate) fn place_up_to(spots: &[Spot], near: Near, key: u64) -> Option<usize>
    requires { RisesKeys (keys_in spots.now) }
    ensures found { IfSome result (IsLastUpTo (keys_in spots.now) key) }
    ensures none { IfNone result (NoneWithin (keys_in spots.now) key) }
{
    match place_between(spots, near, key) {
        Some(place) => Some(place),
        None => place_among(spots, key),
    }
}
