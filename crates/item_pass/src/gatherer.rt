ghost use Rattle.std.specs.Prelude.{ℕ, List, OnOk};
ghost use Rattle.subpage.specs.Arrangement.{Keyed};
ghost use Rattle.subpage.specs.ItemView.{item_view};
ghost use Rattle.item_pass.specs.Gathering.{and_item};

use std::alloc::AllocError;
use subpage::Item;
use time_merge::Others;

/// What gathers something from the items of a trace that matter to it. The others are left out.
pub trait Gatherer: Others {
    /// What is gathered.
    type Gathered;

    /// What was gathered of items that matter, one after another.
    ghost holds: { Self → List Keyed → Self.Gathered → Type 0 };

    /// Takes in one more item. After `AllocError` what was gathered is not to be used again.
    fn take(
        &self,
        cpu: u32,
        item: &Item<'_>,
        gathered: &mut Self::Gathered,
    ) -> Result<(), AllocError>
        requires sound { Self.is_sound self.now }
        requires known { (xs : List Keyed) × holds self.now xs gathered.old }
        ensures known { OnOk result ((xs : List Keyed) × holds self.now xs gathered.new) }
        ensures taken { (xs : List Keyed) (key : ℕ) → holds self.now xs gathered.old → OnOk result (holds self.now
            (and_item (Self.matters self.now) xs (record { key = key; cpu = cpu; item = item_view item.now })) gathered.new) };
}
