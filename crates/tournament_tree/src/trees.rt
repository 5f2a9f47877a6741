ghost use Rattle.std.specs.Prelude.{◌≡◌, ◌≢◌, ℕ, ◌*◌, ◌/◌, ◌<◌, ◌≤◌, length, replicate, slice_index_or, slice_set, Some, IfOk, IfSome};
ghost use Rattle.tournament_tree.specs.Least.{IsLeastAt};
ghost use Rattle.tournament_tree.specs.Nodes.{AllBut, IsSettled, mark_of, most, node, nothing, scale};

use crate::marks::{
    MOST, NOTHING, SCALE, TOP, base_with, is_telling, key_before, least_mark, short_of, whole,
};
use crate::slot_key::SlotKey;
use std::alloc::{AllocError, Global};
use std::marker::Model;

/// A tournament tree over slots with keys, which tells which of them has the least. A contract sees it as
/// the list of its keys.
///
/// Where the least key is more than 2^53 (in nanoseconds 104 days) from the first one that was set, or where there are more than
/// 1,024 slots, it looks at all keys instead of one for each doubling of their number.
#[derive(Drop)]
pub struct TournamentTree {
    keys: Vec<SlotKey>,
    // From where on the nodes count keys, once a slot had one.
    base: Option<u64>,
    // Short marks, if they have room for the slots. The leaves, one for each slot, stand after as many other nodes. The node at place p
    // is the lesser of those at 2 p and 2 p + 1, so that the least of all stands at place 1.
    nodes: Vec<u64>,
}

impl Model for TournamentTree {
    ghost use Rattle.std.specs.Prelude.{List};
    ghost use Rattle.tournament_tree.specs.declared.slot_key.SlotKey.{SlotKey};
    ghost use Rattle.tournament_tree.specs.Nodes.{IsTree, nexts_in};

    ghost Value = { List SlotKey };

    ghost view = { nexts_in };

    ghost invariant = { IsTree };
}

/// Brings the nodes above a place up to date.
fn settle(nodes: &mut [u64], slots: usize, place: usize)
    requires size { length nodes.old ≡ 2 * slots }
    requires small { slots ≤ scale }
    requires inside { (slots ≤ place) × (place < 2 * slots) }
    requires but { AllBut slots nodes.old (place / 2) }
    ensures settled { (q : ℕ) → 1 ≤ q → q < slots → IsSettled nodes.new q }
    ensures leaves { (i : ℕ) → slots ≤ i → node nodes.new i ≡ node nodes.old i }
    ensures size { length nodes.new ≡ length nodes.old }
{
    let mut at = place / 2;
    while at > 0 {
        nodes[at] = nodes[2 * at].min(nodes[2 * at + 1]);
        at /= 2;
    }
}

/// The least of all leaves but one.
fn least_but(nodes: &[u64], slots: usize, place: usize) -> u64
    requires size { length nodes.now ≡ 2 * slots }
    requires small { slots ≤ scale }
    requires inside { (slots ≤ place) × (place < 2 * slots) }
    requires settled { (q : ℕ) → 1 ≤ q → q < slots → IsSettled nodes.now q }
    ensures { (q : ℕ) → slots ≤ q → q < 2 * slots → q ≢ place → result ≤ node nodes.now q }
{
    let mut at = place;
    let mut least = TOP * SCALE;
    while at > 1 {
        let beside = if at % 2 == 0 { at + 1 } else { at - 1 };
        least = least.min(nodes[beside]);
        at /= 2;
    }
    least
}

impl TournamentTree {
    /// So many empty slots.
    pub fn new(alloc: Global, slots: u32) -> Result<TournamentTree, AllocError>
        ensures { IfOk result (λ tree. tree ≡ replicate slots SlotKey.Empty) }
    {
        let keys = vec![in alloc; SlotKey::Empty; slots as usize]?;
        let places = if u64::from(slots) <= SCALE {
            2 * slots as usize
        } else {
            0
        };
        let nodes = vec![in alloc; TOP * SCALE; places]?;
        Ok(TournamentTree {
            keys,
            base: None,
            nodes,
        })
    }

    /// Gives a slot another key, or empties it. Where that changes nothing it takes no steps.
    pub fn set(&mut self, slot: usize, key: SlotKey)
        requires { slot < length self.old }
        ensures { self.new ≡ slice_set self.old slot key }
    {
        if self.keys[slot] == key {
            return;
        }
        let slots = self.keys.len();
        self.keys[slot] = key;
        if self.nodes.is_empty() {
            return;
        }
        let base = base_with(&mut self.base, key);
        self.nodes[slots + slot] = short_of(base, slot, key);
        settle(self.nodes.as_mut_slice(), slots, slots + slot);
    }

    /// The slot with the least key, and the first of several such. `None` exactly where no slot has one.
    pub fn least(&self) -> Option<usize>
        ensures least { IsLeastAt self.now result }
        ensures inside { IfSome result (λ i. i < length self.now) }
    {
        if !self.nodes.is_empty() {
            let first = self.nodes[1];
            if is_telling(first) {
                return Some((first % SCALE) as usize);
            }
        }
        self.least_of_all()
    }

    /// The same, by a look at all keys.
    #[inline(never)]
    fn least_of_all(&self) -> Option<usize>
        ensures least { IsLeastAt self.now result }
        ensures inside { IfSome result (λ i. i < length self.now) }
    {
        let least = least_mark(&self.keys, None);
        if least == NOTHING {
            None
        } else {
            Some((least % MOST) as usize)
        }
    }

    /// The greatest key with which a slot would have the least of all keys, and would be the first of several such: with each
    /// key up to it the slot has. `None`: with no key.
    pub fn up_to(&self, slot: usize) -> Option<u64>
        requires { slot < length self.now }
        ensures { IfSome result (λ most. (key : ℕ) → key ≤ most → IsLeastAt (slice_set self.now slot (SlotKey.At key)) (Some slot)) }
    {
        key_before(slot, self.least_beside(slot))
    }

    /// The least of the whole marks of the other slots.
    fn least_beside(&self, slot: usize) -> u128
        requires { slot < length self.now }
        ensures least { (i : ℕ) → i < length self.now → i ≢ slot → result ≤ mark_of i (slice_index_or self.now i SlotKey.Empty) }
        ensures few { length self.now ≤ most }
        ensures most { result ≤ nothing * most }
    {
        let slots = self.keys.len();
        if !self.nodes.is_empty() {
            let least = least_but(self.nodes.as_slice(), slots, slots + slot);
            if is_telling(least) {
                return whole(self.base.unwrap_or(0), least);
            }
        }
        least_mark(&self.keys, Some(slot))
    }
}
