//! Slots whose keys change.

ghost use Rattle.std.specs.Prelude.{◌≡◌, ◌≤◌, length};

use std::test::Fail;
use tournament_tree::{SlotKey, TournamentTree};

fn put(tree: &mut TournamentTree, slot: usize, key: SlotKey)
    requires { length tree.old ≡ 5 }
    ensures { length tree.new ≡ 5 }
{
    if slot < 5 {
        tree.set(slot, key);
    }
}

#[test]
fn the_first_of_the_least_keys(rt: HostRuntime) -> Result<(), Fail> {
    let mut tree = TournamentTree::new(rt.alloc(), 5)?;
    assert!(rt; tree.least() == None);
    for (slot, key, least) in [
        (3, SlotKey::At(7), Some(3)),
        (1, SlotKey::At(7), Some(1)),
        (4, SlotKey::At(6), Some(4)),
        (0, SlotKey::Start, Some(0)),
        (2, SlotKey::Start, Some(0)),
        (0, SlotKey::Empty, Some(2)),
        (2, SlotKey::Empty, Some(4)),
        (4, SlotKey::At(MOST), Some(1)),
        (1, SlotKey::Empty, Some(3)),
        (3, SlotKey::Empty, Some(4)),
        (4, SlotKey::Empty, None),
    ] {
        put(&mut tree, slot, key);
        assert!(rt; tree.least() == least, "{slot}");
    }
    Ok(())
}

#[test]
fn one_slot_and_none(rt: HostRuntime) -> Result<(), Fail> {
    let mut one = TournamentTree::new(rt.alloc(), 1)?;
    assert!(rt; one.least() == None);
    one.set(0, SlotKey::At(0));
    assert!(rt; one.least() == Some(0));
    one.set(0, SlotKey::Empty);
    assert!(rt; one.least() == None);
    let none = TournamentTree::new(rt.alloc(), 0)?;
    assert!(rt; none.least() == None);
    Ok(())
}

fn up_to(tree: &TournamentTree, slot: usize) -> Option<u64>
    requires { length tree.now ≡ 5 }
{
    if slot < 5 { tree.up_to(slot) } else { None }
}

const MOST: u64 = u64::MAX;

#[test]
fn keys_up_to_the_only_other(rt: HostRuntime) -> Result<(), Fail> {
    let mut tree = TournamentTree::new(rt.alloc(), 5)?;
    assert!(rt; up_to(&tree, 2) == Some(MOST));
    for (slot, key, before, behind) in [
        (2, SlotKey::At(7), Some(7), Some(6)),
        (2, SlotKey::At(MOST), Some(MOST), Some(MOST - 1)),
        (2, SlotKey::At(0), Some(0), None),
        (2, SlotKey::Start, None, None),
        (2, SlotKey::Empty, Some(MOST), Some(MOST)),
    ] {
        put(&mut tree, slot, key);
        assert!(rt;
            up_to(&tree, 0) == before && up_to(&tree, 4) == behind,
            "{slot}"
        );
    }
    Ok(())
}

#[test]
fn keys_up_to_the_least_of_others(rt: HostRuntime) -> Result<(), Fail> {
    let mut tree = TournamentTree::new(rt.alloc(), 5)?;
    put(&mut tree, 1, SlotKey::At(5));
    put(&mut tree, 3, SlotKey::At(9));
    for (slot, most) in [
        (0, Some(5)),
        (1, Some(9)),
        (2, Some(4)),
        (3, Some(4)),
        (4, Some(4)),
    ] {
        assert!(rt; up_to(&tree, slot) == most, "{slot}");
    }
    Ok(())
}

/// The time of a clock that counts from 1970.
const NOW: u64 = 1_796_000_000_000_000_000;

/// What a short mark tells apart: 2^54 - 2 times from 2^53 before the first one on.
const FIRST: u64 = NOW - 9_007_199_254_740_992;

const LAST: u64 = FIRST + 18_014_398_509_481_981;

#[test]
fn keys_far_from_the_first(rt: HostRuntime) -> Result<(), Fail> {
    let mut tree = TournamentTree::new(rt.alloc(), 5)?;
    for (slot, key, least, before) in [
        (1, NOW, 1, NOW),
        (3, LAST, 1, NOW),
        (1, LAST + 1, 3, LAST),
        (3, LAST + 2, 1, LAST + 1),
        (1, LAST + 2, 1, LAST + 2),
        (4, MOST, 1, LAST + 2),
        (2, FIRST, 2, FIRST),
        (0, FIRST - 1, 0, FIRST),
        (2, FIRST - 1, 0, FIRST - 1),
        (2, FIRST - 2, 2, FIRST - 2),
    ] {
        put(&mut tree, slot, SlotKey::At(key));
        assert!(rt; tree.least() == Some(least), "{slot} {key}");
        assert!(rt; up_to(&tree, 0) == Some(before), "{slot} {key}");
    }
    Ok(())
}

fn least_of_many(rt: &HostRuntime, count: u32) -> Result<[Option<usize>; 3], Fail>
    requires { 1024 ≤ count }
{
    let mut tree = TournamentTree::new(rt.alloc(), count)?;
    tree.set(1023, SlotKey::At(9));
    tree.set(700, SlotKey::At(9));
    let equal = tree.least();
    tree.set(3, SlotKey::At(8));
    let less = tree.least();
    tree.set(3, SlotKey::At(10));
    Ok([equal, less, tree.least()])
}

#[test]
fn as_many_slots_as_nodes_are_for_and_more(rt: HostRuntime) -> Result<(), Fail> {
    let wanted = [Some(700), Some(3), Some(700)];
    assert!(rt; least_of_many(&rt, 1024)? == wanted);
    assert!(rt; least_of_many(&rt, 1025)? == wanted);
    Ok(())
}
