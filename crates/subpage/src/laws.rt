//! Laws of this crate's definitions. Each is the contract of a function that does nothing.

ghost use Rattle.std.specs.Prelude.{◌≡◌, ◌+◌, ◌%◌, ◌^◌, ◌<◌, ◌≤◌, max, List, [], ℕ, map, length, take, slice_index, fold, take_while, sum_by, Some, None, IfSome, IfNone, ◌↔◌};
ghost use Rattle.std.specs.List.{last_or};
ghost use Rattle.trace_base.specs.declared.layout.Layout.{Layout};
ghost use Rattle.trace_base.specs.declared.order.Order.{Order};
ghost use Rattle.trace_base.specs.declared.part.Part.{Part};
ghost use Rattle.subpage.specs.Arrangement.{CpusRise, IsArranged, Keyed, key_of, cpu_of, keyed_from, all_keyed, with_key, arranged};
ghost use Rattle.subpage.specs.Cut.{IsLeast, cut_of, cuts_of, is_up_to, last_key, lists_of, reached_of};
ghost use Rattle.subpage.specs.Element.{ElementData, Spelled};
ghost use Rattle.subpage.specs.ItemData.{ItemData, item_time};
ghost use Rattle.subpage.specs.Page.{AreItems, items};
ghost use Rattle.subpage.specs.Processor.{page_count};
ghost use Rattle.subpage.specs.RunningTime.{stamped};
ghost use Rattle.subpage.specs.WithBytes.{with_bytes};

/// At most one list of elements spells the same bytes.
pub fn one_spelling()
    ensures { (order : Order) (es fs : List ElementData) (bytes : List ℕ)
        → Spelled order es bytes → Spelled order fs bytes → es ≡ fs }
{}

/// A sub-buffer has at most one list of items, and it is the one that `items` computes.
pub fn one_list_of_items()
    ensures { (layout : Layout) (page : List ℕ) (xs : List ItemData)
        → AreItems layout page xs ↔ (items layout page ≡ Some xs) }
{}

/// A running time below 2^59 becomes the stamp. Any other becomes the first time from it on whose low 59 bits are the
/// stamp.
pub fn stamps()
    ensures below { (time stamp : ℕ) → time < 2 ^ 59 → stamped time stamp ≡ stamp }
    ensures low_bits { (time stamp : ℕ) → stamp < 2 ^ 59 → stamped time stamp % 2 ^ 59 ≡ stamp }
    ensures no_earlier { (time stamp : ℕ) → 2 ^ 59 ≤ time → stamp < 2 ^ 59
        → time ≤ stamped time stamp }
    ensures nearest { (time stamp : ℕ) → 2 ^ 59 ≤ time → stamp < 2 ^ 59
        → stamped time stamp < time + 2 ^ 59 }
{}

/// A processor's items stay as they are, the key of each is the greatest time up to it, and the last key is that of the
/// processor's cut.
pub fn keys()
    ensures kept { (cpu : ℕ) (items : List ItemData)
        → map (λ x. x.item) (keyed_from cpu 0 items) ≡ items }
    ensures greatest { (cpu : ℕ) (items : List ItemData) (i : ℕ) → i < length items
        → slice_index (map key_of (keyed_from cpu 0 items)) i
        ≡ fold max 0 (map item_time (take (i + 1) items)) }
    ensures last { (cpu : ℕ) (items : List ItemData)
        → last_or None (map key_of (keyed_from cpu 0 items)) ≡ last_key items }
{}

/// Items of processors whose numbers rise have exactly one arrangement, and it is `arranged`.
pub fn one_arrangement()
    ensures arranged { (lists : List (ℕ × List ItemData))
        → CpusRise lists → IsArranged lists (arranged lists) }
    ensures one { (lists : List (ℕ × List ItemData)) (xs : List Keyed)
        → CpusRise lists → IsArranged lists xs → xs ≡ arranged lists }
{}

/// The cut is the least of the processors' cuts, and there is none only where no processor has one.
pub fn least_cut()
    ensures least { (layout : Layout) (file : List ℕ) (parts : List (ℕ × Part))
        → IfSome (cut_of layout file parts) (λ cut. IsLeast (cuts_of layout file parts) cut) }
    ensures none { (layout : Layout) (file : List ℕ) (parts : List (ℕ × Part))
        → IfNone (cut_of layout file parts) (cuts_of layout file parts ≡ []) }
{}

/// The reached items are the first of the arranged ones, and all items of the cut's own processor are among them: those
/// of its sub-buffers before the malformed one.
pub fn reached_items()
    ensures first { (layout : Layout) (file : List ℕ) (parts : List (ℕ × Part)) → CpusRise parts
        → reached_of layout file parts
        ≡ take_while (is_up_to (cut_of layout file parts)) (arranged (lists_of layout file parts)) }
    ensures own { (layout : Layout) (file : List ℕ) (parts : List (ℕ × Part)) → CpusRise parts
        → IfSome (cut_of layout file parts) (λ cut.
        with_key cpu_of cut.cpu (reached_of layout file parts)
        ≡ with_key cpu_of cut.cpu (all_keyed (lists_of layout file parts))) }
{}

/// Processors whose part has no bytes may be left out: the cut, the reached items and the size of all parts stay, and the
/// numbers of those that are left rise. Such a part has no sub-buffer that could be read.
pub fn empty_parts()
    ensures cut { (layout : Layout) (file : List ℕ) (parts : List (ℕ × Part))
        → cut_of layout file (with_bytes parts) ≡ cut_of layout file parts }
    ensures reached { (layout : Layout) (file : List ℕ) (parts : List (ℕ × Part))
        → reached_of layout file (with_bytes parts) ≡ reached_of layout file parts }
    ensures size { (parts : List (ℕ × Part))
        → sum_by (λ part. part.1.size) (with_bytes parts) ≡ sum_by (λ part. part.1.size) parts }
    ensures pages { (layout : Layout) (part : Part) → part.size ≡ 0 → page_count layout part ≡ 0 }
    ensures rise { (parts : List (ℕ × Part)) → CpusRise parts → CpusRise (with_bytes parts) }
{}
