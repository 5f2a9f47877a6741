// A lane's items are used up. Those that do not matter are passed over without a look at the other lanes.

ghost use Rattle.std.specs.Prelude.{◌≡◌, ◌<◌, ◌≤◌, ℕ, Bool, true, false, length};
ghost use Rattle.subpage.specs.ItemData.{ItemData};
ghost use Rattle.subpage.specs.ItemView.{item_view};
ghost use Rattle.page_pool.specs.declared.cursor.LaneState.{LaneState};
ghost use Rattle.event_cursor.specs.Standing.{held_left, most_left};
ghost use Rattle.time_merge.specs.Skipping.{IsOtherFirst, IsSkipped, IsUsedUp};

use event_cursor::{head, step};
use page_pool::Lane;
use subpage::Item;

/// What tells the items that do not matter from the others.
pub trait Others {
    /// Whether it pays to look at items before their turn, to pass over those that do not matter.
    const LOOKS_AHEAD: bool;

    /// What must hold of it so that it can tell what items are.
    ghost is_sound: { Self → Type 0 };

    /// Whether an item of a processor matters.
    ghost matters: { Self → ℕ → ItemData → Bool };

    /// Whether it is known at a look that an item does not matter.
    fn is_other(&self, cpu: u32, item: &Item<'_>) -> bool
        requires { is_sound self.now }
        ensures { result ≡ true → matters self.now cpu (item_view item.now) ≡ false };
}

// Whether it pays to look, a lane holds an item, and the first that is not used up does not matter.
fn holds_other<O: Others>(others: &O, lane: &Lane) -> bool
    requires sound { O.is_sound others.now }
    ensures other { result ≡ true → IsOtherFirst (O.matters others.now) lane.now }
    ensures held { result ≡ true → lane.now.cursor.state ≡ LaneState.Held }
    ensures some { result ≡ true → 0 < length (held_left lane.now) }
{
    if !O::LOOKS_AHEAD {
        return false;
    }
    match head(lane) {
        Some((_, item)) => others.is_other(lane.cpu, &item),
        None => false,
    }
}

// Uses up the items of the held sub-buffer up to the first that matters.
fn skip_others<O: Others>(others: &O, lane: &mut Lane)
    requires sound { O.is_sound others.now }
    ensures skipped { IsSkipped (O.matters others.now) lane.old lane.new }
    ensures most { most_left lane.new ≤ most_left lane.old }
{
    while holds_other(others, lane) {
        step(lane);
    }
}

/// Uses up the first item of a lane, and after it those that do not matter.
pub(crate) fn use_up<O: Others>(others: &O, lane: &mut Lane)
    requires sound { O.is_sound others.now }
    requires held { lane.old.cursor.state ≡ LaneState.Held }
    requires some { 0 < length (held_left lane.old) }
    ensures used { IsUsedUp (O.matters others.now) lane.old lane.new }
    ensures most { most_left lane.new < most_left lane.old }
{
    step(lane);
    skip_others(others, lane)
}
