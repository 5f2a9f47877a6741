// A direct-mapped cache of where numbers stand in a list.

ghost use Rattle.std.specs.Prelude.{◌≡◌, ◌+◌, ◌<◌, ◌≤◌, ◌%◌, length, replicate, set, slice_index, IfOk};
ghost use Rattle.std.specs.Int.{IsPowerOfTwo, IsNextPowerOfTwo};
ghost use Rattle.noted_places.specs.Noted.{noted, wanted};

use std::alloc::{AllocError, Global};
use std::marker::Model;

/// How many entries there are for each number, so that few numbers share one.
const EACH: usize = 8;

/// How many there are at the least.
const LEAST: usize = 64;

/// How many there are at the most: more of them would take more memory than they save steps.
const MOST: usize = 1 << 20;

/// A direct-mapped cache: the place of a number is found in one step. There are as many entries as the least power of two that
/// gives each number eight. Numbers that are equal modulo that share an entry. It has the place of the one that was noted last,
/// and whoever asks for another looks elsewhere. An entry in which no number is noted has the list's end. Contracts see the
/// entries.
#[derive(Drop)]
pub struct Places {
    slots: Vec<usize>,
    /// One less than there are entries: what is left of a number modulo these is what this leaves of its bits.
    mask: usize,
}

impl Model for Places {
    ghost use Rattle.std.specs.Prelude.{◌≡◌, ◌+◌, ℕ, List, length};
    ghost use Rattle.std.specs.Int.{IsPowerOfTwo};

    ghost Value = { List ℕ };

    ghost view = { λ p. p.slots.items };

    ghost invariant = { λ p. (length p.slots.items ≡ p.mask + 1) × IsPowerOfTwo (p.mask + 1) };
}

/// How many entries so many numbers are to have at the least.
fn wanted(count: usize) -> usize
    ensures { result ≡ wanted count }
{
    count.saturating_mul(EACH).clamp(LEAST, MOST)
}

/// What is left of a number modulo a power of two, by the mask of the bits below it.
#[inline(always)]
fn masked(number: u64, mask: usize) -> usize
    requires { IsPowerOfTwo (mask + 1) }
    ensures value { result ≡ number % (mask + 1) }
    ensures within { result ≤ mask }
{
    number as usize & mask
}

/// So many entries, each with this place.
fn filled(alloc: Global, room: usize, place: usize) -> Result<Vec<usize>, AllocError>
    ensures { IfOk result (λ slots. slots.items ≡ replicate room place) }
{
    vec![in alloc; place; room]
}

impl Places {
    /// A cache of the places of these numbers.
    pub fn noted(alloc: Global, numbers: &[u64]) -> Result<Places, AllocError>
        ensures places { IfOk result (λ places. places ≡ noted (length places) numbers.now) }
        ensures room { IfOk result (λ places. IsNextPowerOfTwo (wanted (length numbers.now)) (length places)) }
    {
        let mut places = Places::new(alloc, numbers.len())?;
        for place in 0..numbers.len() {
            places.note(numbers[place], place);
        }
        Ok(places)
    }

    /// Entries for so many numbers, in none of which one is noted.
    fn new(alloc: Global, count: usize) -> Result<Places, AllocError>
        ensures places { IfOk result (λ places. places ≡ replicate (length places) count) }
        ensures room { IfOk result (λ places. IsNextPowerOfTwo (wanted count) (length places)) }
    {
        let room = wanted(count).next_power_of_two();
        let mask = room - 1;
        let slots = filled(alloc, room, count)?;
        Ok(Places { slots, mask })
    }

    /// Notes the place of a number in its entry.
    fn note(&mut self, number: u64, place: usize)
        ensures { self.new ≡ set self.old (number % length self.old) place }
    {
        let slot = masked(number, self.mask);
        self.slots[slot] = place;
    }

    /// The place that was noted last for the number, or for one that shares its entry.
    #[inline(always)]
    pub fn of(&self, number: u64) -> usize
        ensures value { result ≡ slice_index self.now (number % length self.now) }
        ensures some { 0 < length self.now }
    {
        let slot = masked(number, self.mask);
        self.slots[slot]
    }
}
