//! When items happened.

ghost use Rattle.std.specs.Prelude.{◌≡◌};
ghost use Rattle.subpage.specs.ItemData.{item_time};
ghost use Rattle.subpage.specs.ItemView.{item_view};

use subpage::Item;

/// The time of an event, or before which events were lost.
pub(super) fn time_of(item: &Item<'_>) -> u64
    ensures { result ≡ item_time (item_view item.now) }
{
    match item {
        Item::Event { time, .. } | Item::Loss { time, .. } => *time,
    }
}
