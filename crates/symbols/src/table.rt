// Names by rising numbers.

ghost use Rattle.std.specs.Prelude.{◌≡◌, Some, length, slice_get, IfOk, IfSome, IfNone};
ghost use Rattle.std.specs.Option.{option_map};
ghost use Rattle.symbols.specs.NameMap.{first_at, name_if, nearest, IsMapOf, IsNearest, NoneUpTo, HasMap, OneMap};
ghost use Rattle.std.specs.Map.{keys_of};
ghost use Rattle.symbols.specs.Names.{names_view, AreInside};
ghost use Rattle.noted_places.specs.Noted.{noted};

use crate::guide::{Guide, Near};
use crate::names::Names;
use noted_places::Places;
use std::alloc::{AllocError, Global};
use std::marker::Model;

/// Names by rising numbers. Contracts see the list of them.
#[derive(Drop)]
pub(crate) struct NameTable {
    names: Names,
}

impl Model for NameTable {
    ghost use Rattle.std.specs.Prelude.{List};
    ghost use Rattle.symbols.specs.NameMap.{Pair, RisesFrom};
    ghost use Rattle.symbols.specs.Names.{names_view, AreInside};

    ghost Value = { List Pair };

    ghost view = { λ t. names_view t.names };

    ghost invariant = { λ t. AreInside t.names × RisesFrom 0 (names_view t.names) };
}

impl NameTable {
    /// The names that were found; of equal numbers the first counts.
    #[tactic(auto, using(crate::proofs::PairLemmas::rises_all, crate::proofs::PairLemmas::same_firsts))]
    pub fn build(alloc: Global, names: Names) -> Result<NameTable, AllocError>
        requires { AreInside names }
        ensures { IfOk result (IsMapOf (names_view names)) }
    {
        let mut names = names;
        names.sort(alloc)?;
        names.keep_firsts();
        Ok(NameTable { names })
    }

    /// How many names there are.
    pub fn len(&self) -> usize
        ensures { result ≡ length self.now }
    {
        self.names.len()
    }

    /// The name at a place.
    pub fn row(&self, i: usize) -> Option<(u64, &[u8])>
        ensures { option_map (λ r. (r.0, r.1.now)) result ≡ slice_get self.now i }
    {
        self.names.row(i)
    }

    /// The name at a place, if it is that of this number.
    #[tactic(auto, using(crate::proofs::PairLemmas::name_at))]
    pub fn name_at(&self, place: usize, key: u64) -> Option<&[u8]>
        ensures found { IfSome result (λ name. first_at key self.now ≡ Some name.now) }
        ensures exact { option_map (λ name. name.now) result ≡ name_if key (slice_get self.now place) }
    {
        let (number, name) = self.names.row(place)?;
        if number == key { Some(name) } else { None }
    }

    /// The places of the numbers.
    pub fn places(&self, alloc: Global) -> Result<Places, AllocError>
        ensures { IfOk result (λ places. places ≡ noted (length places) (keys_of self.now)) }
    {
        let keys = self.names.keys(alloc)?;
        Places::noted(alloc, &keys)
    }

    /// A guide to the numbers.
    pub fn guide(&self, alloc: Global) -> Result<Guide, AllocError> {
        Guide::to(alloc, &self.names.spots)
    }

    /// The name of the greatest number that is at most this one, and how far past it this one is. It is looked for
    /// first where it may stand.
    #[inline(always)]
    #[tactic(auto, unfolding(crate::specs::NameMap::nearest))]
    pub fn nearest(&self, near: Near, address: u64) -> Option<(&[u8], u64)>
        ensures found { IfSome result (λ r. IsNearest self.now address r.0.now r.1) }
        ensures none { IfNone result (NoneUpTo address self.now) }
        ensures exact { option_map (λ r. (r.0.now, r.1)) result ≡ nearest address self.now }
    {
        match self.names.row_up_to(near, address) {
            Some((key, name)) => Some((name, address - key)),
            None => None,
        }
    }

    /// The name of this number.
    #[tactic(auto, using(crate::proofs::PairLemmas::name_here, crate::proofs::PairLemmas::name_not, crate::proofs::PairLemmas::name_none))]
    pub fn name(&self, key: u64) -> Option<&[u8]>
        ensures { option_map (λ r. r.now) result ≡ first_at key self.now }
    {
        match self.nearest(Near::NOWHERE, key) {
            Some((name, 0)) => Some(name),
            Some((_, _)) => None,
            None => None,
        }
    }
}

/// Pairs stand for exactly one map, and that is the computed one.
pub fn one_map()
    ensures there { HasMap }
    ensures one { OneMap }
{}
