// The whole sub-buffer around the records that were added.

ghost use Rattle.std.specs.Prelude.{◌≡◌, ◌+◌, ◌-◌, ◌<◌, ◌≤◌, ◌^◌, ◌++◌, ◌∷◌, ℕ, List, length, take};
ghost use Rattle.trace_base.specs.Number.{bytes_of};
ghost use Rattle.subpage.specs.ItemData.{ItemData};
ghost use Rattle.page_write.specs.Record.{zeros};
ghost use Rattle.page_write.specs.Held.{lost_bits, lost_text, LostFits, HoldsAll};
ghost use Rattle.page_write.specs.PageBytes.{IsPut, put_at, area_len, page_of};

use crate::open_page::{Lost, OpenPage};
use crate::put::{put_long, put_zeros};
use trace_base::Layout;

/// The bit of a commit word that tells a loss (ring_buffer.c, `RB_MISSED_EVENTS`).
const MISSED: u64 = 1 << 31;

/// The bit that says that the number of lost events is stored (ring_buffer.c, `RB_MISSED_STORED`).
const STORED: u64 = 1 << 30;

// The bits of the commit word that tell a loss.
fn bits_of(lost: Lost) -> u64
    ensures value { result ≡ lost_bits lost }
    ensures most { result ≤ 2 ^ 31 + 2 ^ 30 }
{
    match lost {
        Lost::Nothing => 0,
        Lost::Uncounted => MISSED,
        Lost::Counted(_) => MISSED + STORED,
    }
}

// Puts zero bytes, and in them the timestamp and the commit word.
fn fill_front(layout: &Layout, start: u64, word: u64, front: &mut [u8])
    requires fits { word < 2 ^ 32 }
    requires whole { length front.old ≡ layout.now.data_at }
    ensures { front.new ≡ put_at layout.now.commit_at (bytes_of layout.now.order layout.now.commit_size word)
        (put_at layout.now.time_at (bytes_of layout.now.order 8 start) (zeros layout.now.data_at)) }
{
    front.fill(0);
    put_long(layout.order, 8, start, layout.time_at as usize, front);
    put_long(
        layout.order,
        layout.commit_size,
        word,
        layout.commit_at as usize,
        front,
    );
}

// Puts the number of a loss, where it has one, and gives the place after it.
fn put_lost(layout: &Layout, lost: Lost, at: usize, area: &mut [u8]) -> usize
    requires fits { LostFits layout.now lost }
    requires room { at + length (lost_text layout.now lost) ≤ length area.old }
    ensures { IsPut at (lost_text layout.now lost) area.old area.new result }
{
    let Lost::Counted(count) = lost else {
        return at;
    };
    put_long(layout.order, layout.commit_size, count, at, area);
    at + layout.commit_size as usize
}

// Puts what follows the records: the number of a loss, and zero bytes.
fn fill_behind(layout: &Layout, lost: Lost, at: usize, area: &mut [u8])
    requires fits { LostFits layout.now lost }
    requires room { at + length (lost_text layout.now lost) ≤ length area.old }
    ensures { area.new ≡ take at area.old
        ++ (lost_text layout.now lost ++ zeros (length area.old - (at + length (lost_text layout.now lost)))) }
{
    let behind = put_lost(layout, lost, at, area);
    put_zeros(behind, area.len() - behind, area);
}

/// Puts everything that is not a record.
pub fn finish(layout: &Layout, page: OpenPage, into: &mut [u8])
    requires whole { length into.old ≡ layout.now.page }
    requires fits { LostFits layout.now page.lost }
    requires room { page.used + length (lost_text layout.now page.lost) ≤ area_len layout.now }
    ensures { (x : ItemData) (xs : List ItemData) → HoldsAll layout.now page into.old x xs
        → into.new ≡ page_of layout.now (x ∷ xs) }
{
    let word = page.used as u64 + bits_of(page.lost);
    let (front, area) = into.split_at_mut(layout.data_at as usize);
    fill_front(layout, page.start, word, front);
    fill_behind(layout, page.lost, page.used, area);
}
