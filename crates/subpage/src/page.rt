ghost use Rattle.std.specs.Prelude.{◌≡◌, ◌^◌, ◌<◌, ◌≤◌, ◌⊎◌, List, length, drop, take, IfSome, IfNone, IsSome, Some, option_map};
ghost use Rattle.subpage.specs.Marks.{items_from, IsMark};
ghost use Rattle.trace_base.specs.Number.{num};
ghost use Rattle.subpage.specs.ItemData.{ItemData, first_time, last_time};
ghost use Rattle.subpage.specs.Left.{loss_items};
ghost use Rattle.subpage.specs.Summary.{summary_of};
ghost use Rattle.subpage.specs.Page.{items, AreItems, commit_word, committed_size, data_area, losses, stored_number, timestamp};

use crate::items::Items;
use crate::loss::Loss;
use crate::mark::{Mark, settle};
use crate::summary::{Summary, summarize};
use std::marker::Model;
use trace_base::{Layout, Order, read_u32, read_u64};

/// The bits of a commit word that count the committed bytes.
const SIZE_MASK: u64 = (1 << 27) - 1;

/// The bit that tells a loss, and the bit that tells a stored number (the kernel's `RB_MISSED_EVENTS` and
/// `RB_MISSED_STORED`).
const MISSED_BIT: u32 = 31;

const STORED_BIT: u32 = 30;

/// A well-formed sub-buffer. A contract sees it as the list of its items.
#[derive(Drop)]
pub struct Page<'a> {
    layout: Layout,
    bytes: &'a [u8],
    first: Mark,
    summary: Summary,
}

impl<'a> Model for Page<'a> {
    ghost use Rattle.std.specs.Prelude.{List};
    ghost use Rattle.subpage.specs.ItemData.{ItemData};

    ghost Value = { List ItemData };

    ghost use Rattle.subpage.specs.PageView.{items_of, WasChecked};

    ghost view = { items_of };

    ghost invariant = { WasChecked };
}

/// The kernel's long that the bytes begin with.
fn read_long(order: Order, size: u32, bytes: &[u8]) -> u64
    requires size { (size ≡ 4) ⊎ (size ≡ 8) }
    requires room { size ≤ length bytes.now }
    ensures { result ≡ num order (take size bytes.now) }
{
    if size == 4 {
        u64::from(read_u32(order, bytes))
    } else {
        read_u64(order, bytes)
    }
}

/// The number of missed events, where the commit word says that it follows the committed bytes and it does.
fn stored_number_of(layout: &Layout, word: u64, behind: &[u8]) -> Option<u64>
    ensures { result ≡ stored_number layout.now word behind.now }
{
    let is_stored = (word >> STORED_BIT) & 1 == 1;
    if is_stored && layout.commit_size as usize <= behind.len() {
        Some(read_long(layout.order, layout.commit_size, behind))
    } else {
        None
    }
}

fn loss_of(layout: &Layout, word: u64, time: u64, behind: &[u8]) -> Option<Loss>
    ensures { loss_items result ≡ losses layout.now word time behind.now }
{
    if (word >> MISSED_BIT) & 1 == 1 {
        Some(Loss {
            time,
            count: stored_number_of(layout, word, behind),
        })
    } else {
        None
    }
}

/// The sub-buffer that these `layout.page` bytes are (trace-cmd.dat.v6(5); the kernel's `struct buffer_data_page`), or
/// `None` where it is malformed: where more bytes are committed than its data area has, where no elements spell them,
/// or where a running time would be 2^64 or more.
///
/// Of the commit word the low 27 bits are the number of committed bytes, bit 31 tells a loss, and bit 30 beside it that
/// the number of lost events follows the committed bytes; where it does not fit there the loss has no number.
/// Bits 27 to 29, bits above 31, and bit 30 alone are ignored.
pub fn check_page<'a>(layout: &Layout, bytes: &'a [u8]) -> Option<Page<'a>>
    requires whole { length bytes.now ≡ layout.now.page }
    // The items are what the elements tell that spell the committed bytes.
    ensures found { IfSome result (λ page. AreItems layout.now bytes.now page) }
    // There is no page only where there are no such items.
    ensures none { IfNone result ((xs : List ItemData) → AreItems layout.now bytes.now xs → ⊥) }
    ensures exact { result ≡ items layout.now bytes.now }
{
    read_page(layout, bytes)
}

#[tactic(auto, unfolding(crate::specs::Page::items))]
fn read_page<'a>(layout: &Layout, bytes: &'a [u8]) -> Option<Page<'a>>
    requires whole { length bytes.now ≡ layout.now.page }
    ensures { result ≡ items layout.now bytes.now }
{
    let (first, summary) = read_front(layout, bytes)?;
    Some(Page {
        layout: *layout,
        bytes,
        first,
        summary,
    })
}

/// The position before the first item of the sub-buffer that these bytes are, or `None` where it is malformed.
pub fn open_page(layout: &Layout, bytes: &[u8]) -> Option<Mark>
    requires whole { length bytes.now ≡ layout.now.page }
    ensures exact { option_map (λ mark. items_from layout.now bytes.now mark) result ≡ items layout.now bytes.now }
    ensures mark { IfSome result (λ mark. IsMark layout.now bytes.now mark) }
    ensures few { IfSome result (λ mark. length (items_from layout.now bytes.now mark) < 2 ^ 32) }
{
    let (first, _) = read_front(layout, bytes)?;
    Some(settle(layout, bytes, first))
}

/// The same of a sub-buffer that was found well formed before. Its elements are not checked again.
pub fn open_checked(layout: &Layout, bytes: &[u8]) -> Mark
    requires whole { length bytes.now ≡ layout.now.page }
    requires checked { IsSome (items layout.now bytes.now) }
    ensures exact { Some (items_from layout.now bytes.now result) ≡ items layout.now bytes.now }
    ensures mark { IsMark layout.now bytes.now result }
{
    let time = timestamp_of(layout, bytes);
    let word = commit_word_of(layout, bytes);
    let size = committed_size_of(word);
    let area = data_area_of(layout, bytes);
    let (_, behind) = area.split_at(size as usize);
    let loss = loss_of(layout, word, time, behind);
    let first = Mark {
        loss,
        time,
        from: layout.data_at,
        to: layout.data_at + size,
    };
    settle(layout, bytes, first)
}

fn timestamp_of(layout: &Layout, bytes: &[u8]) -> u64
    requires whole { length bytes.now ≡ layout.now.page }
    ensures { result ≡ timestamp layout.now bytes.now }
{
    read_u64(layout.order, &bytes[layout.time_at as usize..])
}

fn commit_word_of(layout: &Layout, bytes: &[u8]) -> u64
    requires whole { length bytes.now ≡ layout.now.page }
    ensures { result ≡ commit_word layout.now bytes.now }
{
    read_long(
        layout.order,
        layout.commit_size,
        &bytes[layout.commit_at as usize..],
    )
}

fn committed_size_of(word: u64) -> u32
    ensures size { result ≡ committed_size word }
    ensures bits { result < 2 ^ 27 }
{
    (word & SIZE_MASK) as u32
}

fn data_area_of<'a>(layout: &Layout, bytes: &'a [u8]) -> &'a [u8]
    requires whole { length bytes.now ≡ layout.now.page }
    ensures { result.now ≡ data_area layout.now bytes.now }
{
    &bytes[layout.data_at as usize..]
}

/// The position before the first item, and how many items there are and when.
fn read_front(layout: &Layout, bytes: &[u8]) -> Option<(Mark, Summary)>
    requires whole { length bytes.now ≡ layout.now.page }
    ensures exact { option_map (λ front. items_from layout.now bytes.now front.0) result ≡ items layout.now bytes.now }
    ensures mark { IfSome result (λ front. IsMark layout.now bytes.now front.0) }
    ensures summary { IfSome result (λ front. front.1 ≡ summary_of (items_from layout.now bytes.now front.0)) }
{
    let time = timestamp_of(layout, bytes);
    let word = commit_word_of(layout, bytes);
    let area = data_area_of(layout, bytes);
    let size = committed_size_of(word);
    if area.len() < size as usize {
        return None;
    }
    let (committed, behind) = area.split_at(size as usize);
    let loss = loss_of(layout, word, time, behind);
    let Some(summary) = summarize(loss, layout.order, time, committed) else {
        return None;
    };
    let mark = Mark {
        loss,
        time,
        from: layout.data_at,
        to: layout.data_at + size,
    };
    Some((mark, summary))
}

impl<'a> Page<'a> {
    /// All items.
    pub fn items(&self) -> Items<'a>
        ensures { result ≡ self.now }
    {
        Items::new(self.layout, self.bytes, self.first)
    }

    /// How many items there are.
    pub fn count(&self) -> u32
        ensures { result ≡ length self.now }
    {
        self.summary.count
    }

    /// The time of the first item, where there is one.
    pub fn first_time(&self) -> Option<u64>
        ensures { result ≡ first_time self.now }
    {
        self.summary.first
    }

    /// The time of the last item, where there is one.
    pub fn last_time(&self) -> Option<u64>
        ensures { result ≡ last_time self.now }
    {
        self.summary.last
    }

    /// The items from number `at` on, counted from 0.
    pub fn resume(&self, at: u32) -> Items<'a>
        requires { at ≤ length self.now }
        ensures { result ≡ drop at self.now }
    {
        let mut items = self.items();
        for _ in 0..at {
            let _ = items.next();
        }
        items
    }
}
