ghost use Rattle.std.specs.Prelude.{◌≡◌, ◌≢◌, ◌↔◌, ◌+◌, ◌++◌, IsTrue, List, [], Some, length, true};
ghost use Rattle.subpage.specs.ItemData.{ItemData, last_time};
ghost use Rattle.subpage.specs.ItemView.{item_view};
ghost use Rattle.subpage.specs.Page.{items};
ghost use Rattle.page_write.specs.Adding.{Adds, HasRoom, HasRunAfter, IsRunAfter};
ghost use Rattle.page_write.specs.Held.{LostFits, HoldsAll};
ghost use Rattle.page_write.specs.PageBytes.{area_len, data_text, one_page, page_of, IsPackable};

use crate::added::Added;
use crate::adding::{add_run_to, add_to, len_of_lost};
use crate::closing::finish;
use crate::open_page::OpenPage;
use std::marker::Model;
use subpage::Item;
use trace_base::Layout;

/// Packs items into one sub-buffer, whose bytes stand in a buffer that is lent. No call takes memory.
///
/// A contract sees it as the layout and the items that its open sub-buffer holds.
#[derive(Drop)]
pub struct Packer<'a> {
    layout: Layout,
    page: Option<OpenPage>,
    into: &'a mut [u8],
}

impl<'a> Model for Packer<'a> {
    ghost use Rattle.page_write.specs.Packing.{Packing};

    ghost Value = { Packing };

    ghost use Rattle.page_write.specs.PackerView.{packing, IsPacker};

    ghost view = { packing };

    ghost invariant = { IsPacker };
}

impl<'a> Packer<'a> {
    ghost use Rattle.std.specs.Borrow.{sem};
    ghost use Rattle.page_write.specs.Again.{IsAgain};

    /// A packer into these bytes, with no sub-buffer open.
    pub fn new(layout: &Layout, into: &'a mut [u8]) -> Packer<'a>
        requires whole { length into.old ≡ layout.now.page }
        ensures layout { result.layout ≡ layout.now }
        ensures empty { result.held ≡ [] }
    {
        Packer {
            layout: *layout,
            page: None,
            into,
        }
    }

    /// Whether no sub-buffer is open.
    pub fn is_empty(&self) -> bool
        ensures { IsTrue result ↔ (self.now.held ≡ []) }
    {
        self.page.is_none()
    }

    /// Adds the item to the open sub-buffer, or opens the first one. `Full` exactly where one is open and the item opens a
    /// further one; the packer is unchanged then.
    #[inline(always)]
    pub fn add(&mut self, item: &Item<'_>) -> Added
        requires packable { IsPackable self.old.layout (item_view item.now) }
        ensures layout { self.new.layout ≡ self.old.layout }
        ensures adds { Adds self.old.layout self.old.held (item_view item.now) (λ held. self.new.held ≡ held) result }
        ensures full { result ≡ Added.Full → self.new ≡ self.old }
        ensures some { result ≡ Added.Full → self.old.held ≢ [] }
    {
        match add_to(&self.layout, self.page, item, self.into) {
            Some(page) => {
                self.page = Some(page);
                Added::Added
            }
            None => Added::Full,
        }
    }

    /// The time of the last item that was added, where a sub-buffer is open.
    pub fn last_time(&self) -> Option<u64>
        ensures { result ≡ last_time self.now.held }
    {
        match self.page {
            None => None,
            Some(page) => Some(page.time),
        }
    }

    /// How many more bytes there is room for.
    pub fn room(&self) -> usize
        ensures { length (data_text self.now.layout self.now.held) + result ≡ area_len self.now.layout }
    {
        let area = (self.layout.page - self.layout.data_at) as usize;
        match self.page {
            None => area,
            Some(page) => area - (page.used + len_of_lost(&self.layout, page.lost)),
        }
    }

    /// Adds the events of a run of plain records, which follows the last item that was added, to the open sub-buffer: their
    /// bytes go in as they stand. The last of the events is at `end`.
    pub fn add_run(&mut self, run: &[u8], end: u64)
        requires run { HasRunAfter self.old.layout self.old.held run.now end }
        requires room { HasRoom self.old.layout self.old.held (length run.now) }
        ensures layout { self.new.layout ≡ self.old.layout }
        ensures adds { (xs : List ItemData) → IsRunAfter self.old.layout self.old.held run.now end xs
            → self.new.held ≡ self.old.held ++ xs }
        ensures one { one_page self.old.layout self.new.held ≡ true }
    {
        if let Some(page) = self.page {
            let page = add_run_to(&self.layout, page, run, end, self.into);
            self.page = Some(page);
        }
    }

    /// The whole sub-buffer of the items that were added since `new` or the last `restart`. Reading it gives just these.
    pub fn close(&mut self) -> &[u8]
        requires some { self.old.held ≢ [] }
        ensures* again { sem 𝓛 (IsAgain self.entry) }
        ensures page { result.now ≡ page_of self.old.layout self.old.held }
        ensures whole { length result.now ≡ self.old.layout.page }
        ensures reads_back { items self.old.layout result.now ≡ Some self.old.held }
    {
        self.seal();
        self.bytes()
    }

    // Puts everything that is not a record.
    fn seal(&mut self)
        requires { self.old.held ≢ [] }
        ensures layout { self.new.layout ≡ self.old.layout }
        ensures held { self.new.held ≡ self.old.held }
        ensures bytes { self.new.bytes ≡ page_of self.old.layout self.old.held }
        ensures whole { length self.new.bytes ≡ self.old.layout.page }
        ensures reads_back { items self.old.layout self.new.bytes ≡ Some self.old.held }
    {
        if let Some(page) = self.page {
            finish(&self.layout, page, self.into);
        }
    }

    // What stands in the buffer.
    fn bytes(&self) -> &[u8]
        ensures { result.now ≡ self.now.bytes }
    {
        self.into
    }

    /// No sub-buffer is open any more, as after `new`.
    pub fn restart(&mut self)
        ensures layout { self.new.layout ≡ self.old.layout }
        ensures empty { self.new.held ≡ [] }
    {
        self.page = None;
    }
}
