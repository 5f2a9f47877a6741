ghost use Rattle.std.specs.Prelude.{◌≡◌};
ghost use Rattle.std.specs.Iterator.{YieldsFirstBy, item_count};
ghost use Rattle.subpage.specs.ItemView.{item_view};
ghost use Rattle.subpage.specs.Marks.{IsMark, items_from};

use crate::item::Item;
use crate::mark::{Mark, first_at};
use std::marker::Model;
use trace_base::Layout;

/// The items of a sub-buffer, one after another. It takes no memory, and a contract sees it as the items that are left.
#[derive(Drop)]
pub struct Items<'a> {
    layout: Layout,
    page: &'a [u8],
    mark: Mark,
}

impl<'a> Model for Items<'a> {
    ghost use Rattle.std.specs.Prelude.{List};
    ghost use Rattle.subpage.specs.ItemData.{ItemData};

    ghost Value = { List ItemData };

    ghost use Rattle.subpage.specs.ItemsView.{items_left, CanBeRead};

    ghost view = { items_left };

    ghost invariant = { CanBeRead };
}

impl<'a> Items<'a> {
    pub(crate) fn new(layout: Layout, page: &'a [u8], mark: Mark) -> Items<'a>
        requires { IsMark layout page.now mark }
        ensures { result ≡ items_from layout page.now mark }
    {
        Items { layout, page, mark }
    }
}

impl<'a> Iterator for Items<'a> {
    type Item = Item<'a>;

    ghost next_gives = { YieldsFirstBy item_view (λ s. s) };

    ghost remaining = { item_count (λ s. s) };

    fn next(&mut self) -> Option<Item<'a>> {
        let (item, behind) = first_at(&self.layout, self.page, self.mark)?;
        self.mark = behind;
        Some(item)
    }
}
