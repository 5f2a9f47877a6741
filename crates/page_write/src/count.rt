// How many sub-buffers items take.

ghost use Rattle.std.specs.Prelude.{◌≡◌, ◌<◌, ◌≤◌, ◌+◌, ◌^◌, List, [], ◌∷◌, ◌++◌, length};
ghost use Rattle.trace_base.specs.declared.layout.Layout.{Layout};
ghost use Rattle.subpage.specs.ItemData.{ItemData, last_time};
ghost use Rattle.subpage.specs.ItemView.{item_view};
ghost use Rattle.page_write.specs.Pack.{packed};
ghost use Rattle.page_write.specs.Adding.{HasRoom, IsRunAfter};
ghost use Rattle.page_write.specs.PageBytes.{area_len, data_text, IsPackable};
ghost use Rattle.page_write.specs.Passes.{IsPageCount};

use crate::added::Added;
use crate::room::Room;
use subpage::Item;
use trace_base::Layout;

/// How many sub-buffers a processor's items take, one item after another.
#[derive(Drop)]
pub struct PageCount {
    room: Room,
    pages: u64,
}

impl PageCount {
    /// Of no items.
    pub fn new() -> PageCount
        ensures counts { (layout : Layout) → IsPageCount layout result [] }
        ensures pages { result.pages ≡ 0 }
    {
        PageCount {
            room: Room::new(),
            pages: 0,
        }
    }

    /// Counts a further item.
    pub fn add(&mut self, layout: &Layout, item: &Item<'_>)
        requires packable { IsPackable layout.now (item_view item.now) }
        requires few { self.old.pages < 2 ^ 63 }
        ensures counts { (xs : List ItemData) → IsPageCount layout.now self.old xs
            → IsPageCount layout.now self.new (xs ++ item_view item.now ∷ []) }
        ensures most { self.new.pages ≤ self.old.pages + 1 }
    {
        match self.room.add(layout, item) {
            Added::Added => {
                if self.pages == 0 {
                    self.pages = 1;
                }
            }
            Added::Full => {
                self.pages += 1;
                self.room = Room::new();
                let _ = self.room.add(layout, item);
            }
        }
    }

    /// The time of the last item that was counted, where a sub-buffer is open.
    pub fn last_time(&self) -> Option<u64>
        ensures { (layout : Layout) (xs : List ItemData) → (count : IsPageCount layout self.now xs) → result ≡ last_time count.held }
    {
        self.room.last_time()
    }

    /// How many more bytes the open sub-buffer has room for.
    pub fn room(&self, layout: &Layout) -> usize
        ensures most { result ≤ area_len layout.now }
        ensures room { (xs : List ItemData) → (count : IsPageCount layout.now self.now xs)
            → length (data_text layout.now count.held) + result ≡ area_len layout.now }
    {
        self.room.room(layout)
    }

    /// Counts the events of a run of plain records, which follows the last item that was counted, and for which the open
    /// sub-buffer has room. The last of the events is at `end`.
    pub fn add_run(&mut self, layout: &Layout, run: &[u8], end: u64)
        ensures counts { (xs ys : List ItemData) → (count : IsPageCount layout.now self.old xs)
            → IsRunAfter layout.now count.held run.now end ys → HasRoom layout.now count.held (length run.now)
            → IsPageCount layout.now self.new (xs ++ ys) }
        ensures same { self.new.pages ≡ self.old.pages }
    {
        self.room.add_run(layout, run, end);
    }

    /// How many sub-buffers the counted items take.
    pub fn pages(&self) -> u64
        ensures value { result ≡ self.now.pages }
        ensures counts { (layout : Layout) (xs : List ItemData) → IsPageCount layout self.now xs → result ≡ length (packed layout xs) }
    {
        self.pages
    }
}
