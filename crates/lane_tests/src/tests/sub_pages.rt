//! Sub-buffers written out byte by byte.

ghost use Rattle.std.specs.Prelude.{◌≡◌, ◌≤◌, List, [], ◌∷◌, ℕ, length, map, filter, Some, None, IfOk};
ghost use Rattle.subpage.specs.Arrangement.{Keyed, cpu_of, arranged};
ghost use Rattle.subpage.specs.Cut.{Cut, is_up_to};
ghost use Rattle.subpage.specs.ItemData.{ItemData, LossAt, item_time};

use Order::{Big, Little};
use std::alloc::{AllocError, Global};
use std::test::Fail;
use subpage::{Item, Page, check_page, first_at, open_page};
use trace_base::{Layout, Order, put_u32, put_u64};

/// A sub-buffer of 4096 bytes: time, commit word, and the bytes that its data begin with; zero bytes fill it.
#[derive(Drop)]
struct SubPage {
    order: Order,
    is_64_bit: bool,
    time: u64,
    commit: u32,
    bytes: Vec<u8>,
}

fn layout_of(order: Order, is_64_bit: bool) -> Layout
    ensures page { result.page ≡ 4096 }
    ensures commit { result.commit_at ≡ 8 }
    ensures data_at { result.data_at ≤ 16 }
{
    let commit_size = if is_64_bit { 8 } else { 4 };
    Layout::plain(order, commit_size, 4096)
}

fn write(alloc: Global, layout: &Layout, page: &SubPage) -> Result<Vec<u8>, AllocError>
    requires at { layout.now.data_at ≤ 16 }
    ensures { IfOk result (λ v. length v.items ≡ 4096) }
{
    let mut out = vec![in alloc; 0; 4096]?;
    let bytes = out.as_mut_slice();
    put_u64(page.order, page.time, &mut bytes[..8]);
    if page.is_64_bit {
        put_u64(page.order, u64::from(page.commit), &mut bytes[8..16]);
    } else {
        put_u32(page.order, page.commit, &mut bytes[8..12]);
    }
    let data = &mut bytes[layout.data_at as usize..];
    let len = page.bytes.len().min(4000);
    data[..len].copy_from_slice(&page.bytes[..len]);
    Ok(out)
}

fn time_of(item: &Item<'_>) -> u64 {
    match item {
        Item::Event { time, .. } | Item::Loss { time, .. } => *time,
    }
}

/// The page's items are these, from each place on.
fn tells_just(page: &Page<'_>, items: &[Item<'_>]) -> bool {
    let count = page.count();
    if count as usize != items.len() {
        return false;
    }
    for at in 0..count {
        if page.resume(at).next() != Some(items[at as usize]) {
            return false;
        }
    }
    page.resume(count).next().is_none()
        && page.first_time() == items.first().map(time_of)
        && page.last_time() == items.last().map(time_of)
}

/// The positions in the sub-buffer, from the first on, lead over these items.
fn leads_over(layout: &Layout, bytes: &[u8], items: &[Item<'_>]) -> bool
    requires whole { length bytes.now ≡ layout.now.page }
{
    let Some(mut mark) = open_page(layout, bytes) else {
        return false;
    };
    for item in items {
        let Some((first, behind)) = first_at(layout, bytes, mark) else {
            return false;
        };
        if first != *item {
            return false;
        }
        mark = behind;
    }
    first_at(layout, bytes, mark).is_none()
}

fn put_item(alloc: Global, item: &Item<'_>, text: &mut String) -> Result<(), AllocError> {
    let item = match item {
        Item::Event { time, payload } => {
            let payload = hex::encode(alloc, *payload)?;
            format!(in alloc; " {time}:{payload}")
        }
        Item::Loss {
            time,
            count: Some(count),
        } => format!(in alloc; " {time}-{count}"),
        Item::Loss { time, count: None } => format!(in alloc; " {time}-?"),
    }?;
    text.push_str(item.as_str())
}

fn items_of<'a>(alloc: Global, page: &Page<'a>) -> Result<Vec<Item<'a>>, AllocError> {
    let mut items = Vec::new(alloc);
    for item in page.items() {
        items.push(item)?;
    }
    Ok(items)
}

/// Items, each as its time and its payload in hexadecimal, or as its time and how many were lost.
fn items_text(alloc: Global, items: &[Item<'_>]) -> Result<String, AllocError> {
    let mut text = String::new(alloc);
    for item in items {
        put_item(alloc, item, &mut text)?;
    }
    Ok(text)
}

/// The items of a sub-buffer, where all ways to them tell the same.
fn told(alloc: Global, layout: &Layout, bytes: &[u8], page: &Page<'_>) -> Result<String, AllocError>
    requires whole { length bytes.now ≡ layout.now.page }
{
    let items = items_of(alloc, page)?;
    if tells_just(page, &items) && leads_over(layout, bytes, &items) {
        items_text(alloc, &items)
    } else {
        String::from_str(alloc, "otherwise")
    }
}

/// The items of a sub-buffer; `!` where it is malformed.
fn text_of(alloc: Global, page: &SubPage) -> Result<String, AllocError> {
    let layout = layout_of(page.order, page.is_64_bit);
    let bytes = write(alloc, &layout, page)?;
    match check_page(&layout, bytes.as_slice()) {
        Some(found) => told(alloc, &layout, bytes.as_slice(), &found),
        None if open_page(&layout, bytes.as_slice()).is_none() => String::from_str(alloc, " !"),
        None => String::from_str(alloc, "opened"),
    }
}

/// The sub-buffer of a row.
fn page_of(alloc: Global, row: &str) -> Result<SubPage, Fail> {
    let mut words = row.split(' ');
    let kind = words.next().unwrap_or("");
    Ok(SubPage {
        order: if kind == "little" { Little } else { Big },
        is_64_bit: kind != "big4",
        time: words.next().unwrap_or("").parse::<u64>().unwrap_or(0),
        commit: words.next().unwrap_or("").parse::<u32>().unwrap_or(0),
        bytes: hex::decode(alloc, words.next().unwrap_or(""))?,
    })
}

// A name, and of a sub-buffer the order with the size of a big commit word, the time, the commit word and the first bytes; the
// items that it tells. A `!` stands for a malformed one.
const ROWS: &str = "\
one event: little 1000000000 12 020000003a000000d2040000 => 1000000000:3a000000d2040000
an extend: little 0 20 1e00000001000000020000003a000000d2040000 => 134217728:3a000000d2040000
stamps that take over the upper five bits: little 576460752303423588 40 1f19000000000000020000003a000000010000005f06000000000000020000003a00000001000000 => 576460752303423688:3a00000001000000 1152921504606847026:3a00000001000000
the greatest stamp: little 5 20 ffffffffffffffff020000003a00000001000000 => 576460752303423487:3a00000001000000
a discarded record, and an end: little 1000 40 420100003a00000001000000fd0000000800000000000000620000003a000000010000001d000000 => 1010:3a00000001000000 1020:3a00000001000000
a long event: little 1000 24 a0000000070000006162630042000000776f72641d000000 => 1005:616263 1007:776f72641d000000
an event that is cut: little 1000 20 a0000000070000006162630042000000776f72641d000000 => !
a long event with nothing in it: little 1000 8 0000000004000000 => 1000:
an end before some bytes: little 1000 4 1d000000ffffff =>
an end before some bytes: little 1000 5 1d000000ffffff =>
an end before some bytes: little 1000 6 1d000000ffffff =>
an end before some bytes: little 1000 7 1d000000ffffff =>
no committed bytes: little 1000 0  =>
a commit word of 4 bytes: big4 0 20 f00000000000000110000000003a0000000004d2 => 134217728:003a0000000004d2
a commit word of 8 bytes: big8 0 20 f00000000000000110000000003a0000000004d2 => 134217728:003a0000000004d2
a loss: big8 0 3221225472 0000000000000003 => 0-3
a loss with its number: little 1000 3221225484 020000003a000000010000000300000000000000 => 1000-3 1000:3a00000001000000
a loss without a number: little 1000 2147483660 020000003a000000010000000300000000000000 => 1000-? 1000:3a00000001000000
bits that tell nothing: little 1000 2013265932 020000003a000000010000000300000000000000 => 1000:3a00000001000000
no room for the number: little 1000 3221229552 1d000000 => 1000-?
more than the data area: little 1000 5000  => !
one byte more than the data area: little 0 4081  => !
half a word: little 0 2 02000000 => !
an event that is cut: little 0 8 1c000000 => !
a length below 4: little 0 8 0000000003000000 => !
a discarded record's length below 4: little 0 8 3d00000003000000 => !
a discarded record that is cut: little 0 12 3d0000000c000000 => !
an extend that is cut: little 0 4 1e000000 => !
2^64 by an event: little 18446744073709551615 12 220000003a00000001000000 => !
2^64 by a stamp: little 18446744073709551615 8 1f00000000000000 => !";

fn is_told(alloc: Global, row: &str) -> Result<bool, Fail> {
    let (_, row) = row.split_once(": ").unwrap_or(("", ""));
    let (page, expected) = row.split_once(" =>").unwrap_or(("", "no row"));
    let page = page_of(alloc, page)?;
    Ok(text_of(alloc, &page)?.as_str() == expected)
}

#[test]
fn sub_buffers_have_these_items(rt: HostRuntime) -> Result<(), Fail> {
    for row in ROWS.lines() {
        assert!(rt; is_told(rt.alloc(), row)?, "{row}");
    }
    Ok(())
}

// Two processors, of which the first goes back in time: its key does not fall, and at one key the lower processor comes
// first.
#[tactic(auto, unfolding(subpage::specs::Arrangement::arranged))]
fn arranges_by_key_then_processor()
    ensures { let first = LossAt 5 None ∷ LossAt 3 None ∷ [] in
        let second = LossAt 4 None ∷ LossAt 5 None ∷ [] in
        map (λ (x : Keyed). item_time x.item) (arranged ((0, first) ∷ (1, second) ∷ []))
        ≡ 4 ∷ 5 ∷ 3 ∷ 5 ∷ [] }
{}

// Items at 10 and 30 beside one at 20, after which the second sub-buffer of processor 1 is malformed.
#[tactic(auto, unfolding(subpage::specs::Arrangement::arranged))]
fn reaches_the_cut()
    ensures { let first = LossAt 10 None ∷ LossAt 30 None ∷ [] in
        let second = LossAt 20 None ∷ [] in
        let cut : Cut = record { key = Some 20; cpu = 1; page = 1 } in
        map (λ (x : Keyed). item_time x.item)
        (filter (is_up_to (Some cut)) (arranged ((0, first) ∷ (1, second) ∷ [])))
        ≡ 10 ∷ 20 ∷ [] }
{}
