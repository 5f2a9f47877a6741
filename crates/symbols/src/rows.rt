// Names by rising numbers, looked up.

ghost use Rattle.std.specs.Prelude.{◌≡◌, ◌<◌, ◌≤◌, ◌-◌, Some, IfSome, IfNone, IfOk, length, slice_get};
ghost use Rattle.std.specs.Map.{keys_of};
ghost use Rattle.std.specs.Option.{option_map};
ghost use Rattle.symbols.specs.NameMap.{RisesFrom, IsNearest, NoneUpTo, last_up_to};
ghost use Rattle.symbols.specs.Names.{names_view, AreInside};

use crate::guide::Near;
use crate::names::{Names, Span};
use crate::search::place_up_to;
use std::alloc::{AllocError, Global};

impl Names {
    // The name at a place that is there.
    #[inline(always)]
    fn row_at(&self, i: usize) -> (u64, &[u8])
        requires names { AreInside self.now }
        requires inside { i < length self.now.spots.items }
        ensures { slice_get (names_view self.now) i ≡ Some (result.0, result.1.now) }
    {
        let spot = self.spots[i];
        let Span { start, len } = spot.span;
        (spot.key, &self.text.as_bytes()[start..start + len])
    }

    /// The name at a place.
    #[tactic(auto, using(crate::proofs::RowLemmas::row_past))]
    pub fn row(&self, i: usize) -> Option<(u64, &[u8])>
        requires { AreInside self.now }
        ensures { option_map (λ r. (r.0, r.1.now)) result ≡ slice_get (names_view self.now) i }
    {
        if i < self.spots.len() {
            Some(self.row_at(i))
        } else {
            None
        }
    }

    /// How many names there are.
    #[tactic(auto, using(crate::proofs::RowLemmas::rows_long))]
    pub fn len(&self) -> usize
        ensures { result ≡ length (names_view self.now) }
    {
        self.spots.len()
    }

    /// The numbers.
    pub fn keys(&self, alloc: Global) -> Result<Vec<u64>, AllocError>
        ensures { IfOk result (λ keys. keys.items ≡ keys_of (names_view self.now)) }
    {
        let mut keys = Vec::with_capacity(alloc, self.spots.len())?;
        for spot in &self.spots {
            keys.push(spot.key)?;
        }
        Ok(keys)
    }

    /// The greatest number that is at most this one, and its name. It is looked for first where it may stand.
    #[inline(always)]
    pub fn row_up_to(&self, near: Near, address: u64) -> Option<(u64, &[u8])>
        requires names { AreInside self.now }
        requires rises { RisesFrom 0 (names_view self.now) }
        ensures found { IfSome result (λ r. r.0 ≤ address) }
        ensures nearest { IfSome result (λ r. IsNearest (names_view self.now) address r.1.now (address - r.0)) }
        ensures none { IfNone result (NoneUpTo address (names_view self.now)) }
        ensures exact { option_map (λ r. (r.0, r.1.now)) result ≡ last_up_to address (names_view self.now) }
    {
        match place_up_to(&self.spots, near, address) {
            Some(place) => Some(self.row_at(place)),
            None => None,
        }
    }
}
