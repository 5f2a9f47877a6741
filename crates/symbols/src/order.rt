// Spots in order of their numbers.

ghost use Rattle.std.specs.Prelude.{◌≡◌, ◌≤◌, ◌++◌, OnOk, None, List, ℕ, take, drop, length};
ghost use Rattle.std.specs.List.Sorted.{IsNonDecreasingBy, IsPermutation};
ghost use Rattle.symbols.specs.NameMap.{SamePairs};
ghost use Rattle.symbols.specs.Names.{spots_view};
ghost use Rattle.symbols.specs.Spots.{RiseUpTo, NoneBelow, AreFirst, is_key, first_spots};

use crate::names::Spot;
use std::alloc::{AllocError, Global};

/// Puts spots in order of their numbers, those of one number as they stand. Most stand in order already: kallsyms has the
/// symbols of modules, which lie above all others and are the ones that do not rise, at its end.
pub(crate) fn sort_spots(alloc: Global, spots: &mut [Spot]) -> Result<(), AllocError>
    ensures permutation { OnOk result (IsPermutation spots.old spots.new) }
    ensures rises { OnOk result (IsNonDecreasingBy (λ s. s.key) spots.new) }
    ensures same { OnOk result ((block : List ℕ) → SamePairs (spots_view block spots.old) (spots_view block spots.new)) }
{
    let front = ordered_front(spots);
    spots[front..].sort_by_key(alloc, |spot| spot.key)?;
    Ok(())
}

// How many spots at the front stand where they belong.
fn ordered_front(spots: &[Spot]) -> usize
    ensures { AreFirst spots.now result }
{
    let rising = rising_front(spots);
    let least = least_from(spots, rising);
    let mut count = rising;
    while count > 0 && least < spots[count - 1].key {
        count -= 1;
    }
    count
}

// How many spots at the front rise.
fn rising_front(spots: &[Spot]) -> usize
    ensures within { result ≤ length spots.now }
    ensures rises { RiseUpTo spots.now result }
{
    let mut last = 0;
    for i in 0..spots.len() {
        let key = spots[i].key;
        if key < last {
            return i;
        }
        last = key;
    }
    spots.len()
}

// The least number from a place on.
fn least_from(spots: &[Spot], from: usize) -> u64
    requires { from ≤ length spots.now }
    ensures { NoneBelow spots.now from result }
{
    let mut least = u64::MAX;
    for i in from..spots.len() {
        least = least.min(spots[i].key);
    }
    least
}

fn is_key(last: Option<u64>, key: u64) -> bool
    ensures { result ≡ is_key last key }
{
    match last {
        Some(last) => last == key,
        None => false,
    }
}

/// Of consecutive spots with one number keeps only the first.
pub(crate) fn keep_firsts(spots: &mut Vec<Spot>)
    ensures { spots.new.items ≡ first_spots None spots.old.items }
{
    let kept = move_firsts(spots);
    spots.truncate(kept);
    spots.shrink_to_fit();
}

// How many spots at the front have other numbers than the one before them, and the number of the last of these.
fn apart_front(spots: &[Spot]) -> (usize, Option<u64>)
    ensures within { result.0 ≤ length spots.now }
    ensures firsts { take result.0 spots.now ++ first_spots result.1 (drop result.0 spots.now) ≡ first_spots None spots.now }
{
    let mut last = None;
    for i in 0..spots.len() {
        let key = spots[i].key;
        if is_key(last, key) {
            return (i, last);
        }
        last = Some(key);
    }
    (spots.len(), last)
}

// Moves them to the front, and says how many they are. Those that stand there already stay in place.
fn move_firsts(spots: &mut [Spot]) -> usize
    ensures within { result ≤ length spots.new }
    ensures firsts { take result spots.new ≡ first_spots None spots.old }
{
    let (apart, mut last) = apart_front(spots);
    let mut kept = apart;
    for i in apart..spots.len() {
        let spot = spots[i];
        if !is_key(last, spot.key) {
            spots[kept] = spot;
            kept += 1;
            last = Some(spot.key);
        }
    }
    kept
}
