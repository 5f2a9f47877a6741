ghost use Rattle.std.specs.Prelude.{◌≡◌, ◌+◌, ◌-◌, ◌++◌, ◌≤◌, List, None, IfSome, length};
ghost use Rattle.trace_base.specs.declared.layout.Layout.{Layout};
ghost use Rattle.subpage.specs.ItemData.{ItemData, last_time};
ghost use Rattle.subpage.specs.ItemView.{item_view};
ghost use Rattle.page_write.specs.Adding.{Adds, HasRoom, IsRunAfter};
ghost use Rattle.page_write.specs.Fill.{filled, opened, gone_on, number_len, Fills, IsFill, IsSmall};
ghost use Rattle.page_write.specs.PageBytes.{area_len, data_text, IsPackable};

use crate::added::Added;
use crate::bits::STEP_BITS;
use crate::fill::Fill;
use crate::len::{len_of_event, len_of_record};
use std::marker::Model;
use subpage::Item;
use trace_base::Layout;

/// The packing rule in numbers alone: how full an open sub-buffer is, if one is open.
///
/// A contract sees it as that. A room and a [`Packer`](crate::Packer) that were given the same items answer alike.
#[derive(Drop)]
pub struct Room {
    open: Option<Fill>,
}

impl Model for Room {
    ghost use Rattle.std.specs.Prelude.{Option};
    ghost use Rattle.page_write.specs.declared.fill.Fill.{Fill};
    ghost use Rattle.page_write.specs.Fill.{IsSmall};

    ghost Value = { Option Fill };

    ghost view = { λ room. room.open };

    ghost invariant = { λ room. IsSmall room.open };
}

impl Room {
    /// No sub-buffer is open.
    pub fn new() -> Room
        ensures { result ≡ None }
    {
        Room { open: None }
    }

    /// Adds the item to the open sub-buffer, or opens the first one. `Full` exactly where one is open and the item opens a
    /// further one; the room is unchanged then.
    pub fn add(&mut self, layout: &Layout, item: &Item<'_>) -> Added
        requires packable { IsPackable layout.now (item_view item.now) }
        ensures numbers { Fills (filled layout.now self.old (item_view item.now)) self.old self.new result }
        ensures lists { (held : List ItemData) → IsFill layout.now self.old held
            → Adds layout.now held (item_view item.now) (IsFill layout.now self.new) result }
    {
        match filled_by(layout, self.open, item) {
            Some(fill) => {
                self.open = Some(fill);
                Added::Added
            }
            None => Added::Full,
        }
    }

    /// The time of the last item that was added, where a sub-buffer is open.
    pub fn last_time(&self) -> Option<u64>
        ensures { (layout : Layout) (held : List ItemData) → IsFill layout self.now held → result ≡ last_time held }
    {
        match self.open {
            None => None,
            Some(fill) => Some(fill.time),
        }
    }

    /// How many more bytes there is room for.
    pub fn room(&self, layout: &Layout) -> usize
        ensures most { result ≤ area_len layout.now }
        ensures left { IfSome self.now (λ fill. result ≡ area_len layout.now - fill.used) }
        ensures room { (held : List ItemData) → IsFill layout.now self.now held
            → length (data_text layout.now held) + result ≡ area_len layout.now }
    {
        let area = (layout.page - layout.data_at) as usize;
        match self.open {
            None => area,
            Some(fill) => area.saturating_sub(fill.used),
        }
    }

    /// Adds the events of a run of plain records, which follows the last item that was added, and for which there is room. The
    /// last of the events is at `end`.
    pub fn add_run(&mut self, layout: &Layout, run: &[u8], end: u64)
        ensures { (held xs : List ItemData) → IsFill layout.now self.old held → IsRunAfter layout.now held run.now end xs
            → HasRoom layout.now held (length run.now) → IsFill layout.now self.new (held ++ xs) }
    {
        if let Some(fill) = self.open {
            if run.len() <= self.room(layout) {
                self.open = Some(Fill {
                    time: end,
                    used: fill.used + run.len(),
                });
            }
        }
    }
}

// How full the sub-buffer is with the item, or none where the item opens a further one.
#[tactic(auto, unfolding(crate::specs::Fill::filled))]
fn filled_by(layout: &Layout, fill: Option<Fill>, item: &Item<'_>) -> Option<Fill>
    requires packable { IsPackable layout.now (item_view item.now) }
    requires small { IsSmall fill }
    ensures value { result ≡ filled layout.now fill (item_view item.now) }
    ensures still_small { IsSmall result }
{
    match fill {
        None => Some(opened_by(layout, item)),
        Some(fill) => gone_on_by(layout, fill, item),
    }
}

// How many bytes a loss keeps for its number.
fn len_of_number(layout: &Layout, count: Option<u64>) -> usize
    ensures { result ≡ number_len layout.now count }
{
    match count {
        None => 0,
        Some(_) => layout.commit_size as usize,
    }
}

// A sub-buffer that the item opens.
#[tactic(auto, unfolding(crate::specs::Fill::opened), using(crate::proofs::Filling::payload_few))]
fn opened_by(layout: &Layout, item: &Item<'_>) -> Fill
    requires packable { IsPackable layout.now (item_view item.now) }
    ensures value { result ≡ opened layout.now (item_view item.now) }
    ensures small { result.used ≤ 262144 }
{
    match *item {
        Item::Event { time, payload } => Fill {
            time,
            used: len_of_event(payload.len()),
        },
        Item::Loss { time, count } => Fill {
            time,
            used: len_of_number(layout, count),
        },
    }
}

// An open sub-buffer with the item besides.
#[tactic(auto, unfolding(crate::specs::Fill::gone_on), using(crate::proofs::Filling::payload_few))]
fn gone_on_by(layout: &Layout, fill: Fill, item: &Item<'_>) -> Option<Fill>
    requires packable { IsPackable layout.now (item_view item.now) }
    requires small { fill.used ≤ 262144 }
    ensures value { result ≡ gone_on layout.now fill (item_view item.now) }
    ensures small { IsSmall result }
{
    let Item::Event { time, payload } = *item else {
        return None;
    };
    if time < fill.time || time - fill.time >= 1 << STEP_BITS {
        return None;
    }
    let used = fill.used + len_of_record(time - fill.time, payload.len());
    if used <= (layout.page - layout.data_at) as usize {
        Some(Fill { time, used })
    } else {
        None
    }
}
