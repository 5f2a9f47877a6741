// What the definitions of packing promise.

ghost use Rattle.std.specs.Prelude.{◌≡◌, ◌<◌, slice_index, ◌≤◌, ◌+◌, ◌*◌, ◌^◌, length, map, true, false, ℕ, List, Option, [], ◌∷◌, ◌++◌, All, Some, None, flat_map};
ghost use Rattle.trace_base.specs.declared.part.Part.{Part};
ghost use Rattle.subpage.specs.Processor.{list_of, bad_of};
ghost use Rattle.page_write.specs.Adding.{Adds};
ghost use Rattle.page_write.specs.Fill.{IsFill};
ghost use Rattle.subpage.specs.ItemView.{item_view};
ghost use Rattle.page_write.specs.SoFar.{open_page, IsSoFar};
ghost use Rattle.page_write.specs.Placed.{IsPlaced, TellsBack, FitsPart, parts_from, data_of};
ghost use Rattle.page_write.specs.Pack.{Packed, packed, pack};
ghost use Rattle.trace_base.specs.declared.layout.Layout.{Layout};
ghost use Rattle.subpage.specs.ItemData.{ItemData, EventAt};
ghost use Rattle.subpage.specs.Page.{items};
ghost use Rattle.page_write.specs.Passes.{HasPages};
ghost use Rattle.page_write.specs.PageBytes.{page_of, one_page, IsPackable};

use crate::added::Added;
use crate::packer::Packer;
use crate::room::Room;
use subpage::Item;
use trace_base::Layout;

/// The sub-buffer of items that one sub-buffer can tell tells just these items.
pub fn page_reads_back()
    ensures { (layout : Layout) (xs : List ItemData)
        → All (IsPackable layout) xs → one_page layout xs ≡ true
        → items layout (page_of layout xs) ≡ Some xs }
{}

/// Items that sub-buffers can tell have exactly one packing.
pub fn one_packing()
    ensures computed { (layout : Layout) (xs : List ItemData)
        → All (IsPackable layout) xs → Packed layout xs (packed layout xs) }
    ensures one { (layout : Layout) (xs : List ItemData) (pages : List (List ItemData))
        → Packed layout xs pages → pages ≡ packed layout xs }
    ensures joined { (layout : Layout) (xs : List ItemData) (pages : List (List ItemData))
        → Packed layout xs pages → flat_map (λ page. page) pages ≡ xs }
{}

/// A part that has the sub-buffers of a processor's items reads back to just these items, and none of it is malformed.
pub fn part_reads_back()
    ensures items { (layout : Layout) (file : List ℕ) (part : Part) (xs : List ItemData)
        → All (IsPackable layout) xs → IsPlaced layout file part xs
        → list_of layout file part ≡ xs }
    ensures sound { (layout : Layout) (file : List ℕ) (part : Part) (xs : List ItemData)
        → All (IsPackable layout) xs → IsPlaced layout file part xs
        → bad_of layout file part ≡ None }
{}

/// Whatever a sub-buffer tells can be packed into sub-buffers of its layout.
pub fn told_items_can_be_packed()
    ensures page { (layout : Layout) (page : List ℕ) (xs : List ItemData)
        → length page ≡ layout.page → ((i : ℕ) → slice_index page i < 256)
        → items layout page ≡ Some xs → All (IsPackable layout) xs }
    ensures processor { (layout : Layout) (file : List ℕ) (part : Part)
        → ((i : ℕ) → slice_index file i < 256)
        → All (IsPackable layout) (list_of layout file part) }
{}

/// An event of at most 2,048 bytes can be packed into sub-buffers of every layout.
pub fn short_events_can_be_packed()
    ensures { (layout : Layout) (time : ℕ) (payload : List ℕ)
        → time < 2 ^ 64 → length payload ≤ 2048 → IsPackable layout (EventAt time payload) }
{}

/// After any front, the sub-buffers of processors' items, where their parts follow one another, read back to just these items,
/// and none of them is malformed. One by one the sub-buffers of items of any number of bytes do.
pub fn file_reads_back()
    ensures items { (layout : Layout) (front : List ℕ) (lists : List (List ItemData))
        → All (All (IsPackable layout)) lists → All (FitsPart layout) lists
        → length front + length (data_of layout lists) ≤ 2 ^ 64
        → map (list_of layout (front ++ data_of layout lists)) (parts_from layout (length front) lists) ≡ lists }
    ensures sound { (layout : Layout) (front : List ℕ) (lists : List (List ItemData))
        → All (All (IsPackable layout)) lists → All (FitsPart layout) lists
        → length front + length (data_of layout lists) ≤ 2 ^ 64
        → All (λ part. bad_of layout (front ++ data_of layout lists) part ≡ None) (parts_from layout (length front) lists) }
    ensures pages { (layout : Layout) (xs : List ItemData)
        → All (IsPackable layout) xs → All (TellsBack layout) (packed layout xs) }
    ensures size { (layout : Layout) (xs : List ItemData)
        → All (IsPackable layout) xs → length (pack layout xs) ≡ length (packed layout xs) * layout.page }
{}

/// A room and a packer that hold the same items answer alike, and then hold the same items.
pub fn both_add(
    room: &mut Room,
    packer: &mut Packer<'_>,
    layout: &Layout,
    item: &Item<'_>,
) -> (Added, Added)
    requires packable { IsPackable layout.now (item_view item.now) }
    requires layout { packer.old.layout ≡ layout.now }
    requires same { IsFill layout.now room.old packer.old.held }
    ensures alike { result.0 ≡ result.1 }
    ensures same { IsFill layout.now room.new packer.new.held }
    ensures layout { packer.new.layout ≡ packer.old.layout }
    ensures adds { Adds layout.now packer.old.held (item_view item.now) (λ held. packer.new.held ≡ held) result.1 }
{
    (room.add(layout, item), packer.add(item))
}

/// Each further item goes into the open sub-buffer of a packing or closes it, and at the end the open one is its last.
pub fn step_by_step()
    ensures nothing { (layout : Layout) → IsSoFar layout [] [] [] }
    ensures added { (layout : Layout) (xs : List ItemData) (closed : List (List ItemData)) (held : List ItemData) (x : ItemData)
        → IsSoFar layout xs closed held → one_page layout (held ++ x ∷ []) ≡ true
        → IsSoFar layout (xs ++ x ∷ []) closed (held ++ x ∷ []) }
    ensures full { (layout : Layout) (xs : List ItemData) (closed : List (List ItemData)) (held : List ItemData) (x : ItemData)
        → IsSoFar layout xs closed held → one_page layout (x ∷ []) ≡ true → one_page layout (held ++ x ∷ []) ≡ false
        → IsSoFar layout (xs ++ x ∷ []) (closed ++ held ∷ []) (x ∷ []) }
    ensures ends { (layout : Layout) (xs : List ItemData) (closed : List (List ItemData)) (held : List ItemData)
        → IsSoFar layout xs closed held → packed layout xs ≡ closed ++ open_page held }
{}

/// Before a processor's first item a sink has gained none of its sub-buffers, and none is open.
pub fn nothing_written()
    ensures { (layout : Layout) (told : Option (List ℕ)) → HasPages layout told told [] [] }
{}
