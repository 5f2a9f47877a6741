ghost use Rattle.std.specs.Prelude.{◌≡◌, ◌+◌, ◌-◌, ◌++◌, ◌<◌, ◌≤◌, drop, false, length, replicate, take, true};
ghost use Rattle.std.specs.List.{slice_index_or};
ghost use Rattle.word_values.specs.CpuList.{with_range};
ghost use Rattle.word_values.specs.Views.{range_view};

use std::marker::Model;

/// A set of processor numbers from 0 to 1,023. Contracts see for each number whether it is in the set.
#[derive(Drop)]
pub struct CpuSet {
    members: [bool; 1024],
}

impl Model for CpuSet {
    ghost use Rattle.std.specs.Prelude.{Bool, List};

    ghost Value = { List Bool };

    ghost view = { λ set. set.members };
}

impl CpuSet {
    /// One more than the highest number that a set may have.
    pub const LIMIT: u32 = 1024;

    /// The empty set.
    pub(crate) fn new() -> CpuSet
        ensures { result ≡ replicate 1024 false }
    {
        CpuSet {
            members: [false; 1024],
        }
    }

    /// Whether the number is in the set.
    pub fn has(&self, cpu: u32) -> bool
        ensures { result ≡ slice_index_or self.now cpu false }
    {
        cpu < CpuSet::LIMIT && self.members[cpu as usize]
    }

    /// Adds the numbers from `first` to `last`.
    #[tactic(auto, using(crate::proofs::CpuLaws::filled_is_marked))]
    pub(crate) fn insert(&mut self, first: u32, last: u32)
        requires order { first ≤ last }
        requires bound { last < 1024 }
        ensures { self.new ≡ with_range self.old (range_view (first, last)) }
    {
        fill(&mut self.members, first as usize, last as usize);
    }
}

// Sets the members from `first` to `last`.
fn fill(members: &mut [bool], first: usize, last: usize)
    requires order { first ≤ last }
    requires bound { last < length members.old }
    ensures { members.new ≡ take first members.old
        ++ (replicate (last + 1 - first) true ++ drop (last + 1) members.old) }
{
    members[first..last + 1].fill(true);
}
