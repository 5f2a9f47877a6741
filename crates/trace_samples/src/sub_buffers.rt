ghost use Rattle.std.specs.Prelude.{◌≡◌, true, [], ◌∷◌, ◌++◌, None, Some, length, map, OnOk};
ghost use Rattle.trace_base.specs.Number.{bytes_of};
ghost use Rattle.subpage.specs.ItemData.{LossAt};
ghost use Rattle.subpage.specs.ItemView.{item_view};
ghost use Rattle.subpage.specs.Page.{items};
ghost use Rattle.page_write.specs.PageBytes.{IsPackable, one_page};
ghost use Rattle.trace_samples.specs.SampleLayout.{sample_layout};
ghost use Rattle.trace_samples.specs.Told.{HasPage, HasPages, sample_event, told};

use crate::layouts::layout;
use page_write::Packer;
use std::alloc::AllocError;
use subpage::Item;
use trace_base::{Order, put_u64};

/// How long a sub-buffer is.
pub const PAGE: usize = 4096;

/// A sub-buffer in the sample layout. Each event's payload is its time, in eight bytes. Where one sub-buffer cannot tell all
/// events, some are left out.
#[derive(Clone, Copy)]
pub enum Page<'a> {
    /// Events at these times.
    Of(&'a [u64]),
    /// A loss at this time, with the number of lost events where it is known, and events at these times.
    Lossy(u64, Option<u64>, &'a [u64]),
    /// One that claims more data than it has room for.
    Malformed,
}

fn payload_of(time: u64) -> [u8; 8]
    ensures { result ≡ bytes_of Order.Little 8 time }
{
    time.to_le_bytes()
}

fn add_events(packer: &mut Packer<'_>, times: &[u64])
    requires layout { packer.old.layout ≡ sample_layout }
    ensures layout { packer.new.layout ≡ sample_layout }
    ensures held { one_page sample_layout (packer.old.held ++ map sample_event times.now) ≡ true
        → packer.new.held ≡ packer.old.held ++ map sample_event times.now }
{
    for time in times {
        let payload = payload_of(*time);
        packer.add(&Item::Event {
            time: *time,
            payload: &payload,
        });
    }
}

fn counted_loss(time: u64, number: u64) -> Item<'static>
    ensures value { item_view result ≡ LossAt time (Some number) }
    ensures packable { IsPackable sample_layout (item_view result) }
{
    Item::Loss {
        time,
        count: Some(number),
    }
}

fn loss_at(time: u64, count: Option<u64>) -> Item<'static>
    ensures value { item_view result ≡ LossAt time count }
    ensures packable { IsPackable sample_layout (item_view result) }
{
    match count {
        None => Item::Loss { time, count: None },
        Some(number) => counted_loss(time, number),
    }
}

fn add_loss(packer: &mut Packer<'_>, time: u64, count: Option<u64>)
    requires layout { packer.old.layout ≡ sample_layout }
    requires empty { packer.old.held ≡ [] }
    ensures layout { packer.new.layout ≡ sample_layout }
    ensures held { packer.new.held ≡ LossAt time count ∷ [] }
{
    packer.add(&loss_at(time, count));
}

fn add_told(packer: &mut Packer<'_>, page: &Page<'_>)
    requires layout { packer.old.layout ≡ sample_layout }
    requires empty { packer.old.held ≡ [] }
    ensures layout { packer.new.layout ≡ sample_layout }
    ensures held { one_page sample_layout (told page.now) ≡ true → packer.new.held ≡ told page.now }
{
    match *page {
        Page::Of(times) => add_events(packer, times),
        Page::Lossy(time, count, times) => {
            add_loss(packer, time, count);
            add_events(packer, times);
        }
        Page::Malformed => {}
    }
}

// Nothing is committed.
fn empty() -> [u8; PAGE]
    ensures tells { items sample_layout result ≡ Some [] }
    ensures whole { length result ≡ 4096 }
{
    [0; PAGE]
}

// More bytes are committed than the data area has.
fn malformed() -> [u8; PAGE]
    ensures tells { items sample_layout result ≡ None }
    ensures whole { length result ≡ 4096 }
{
    let mut bytes = [0; PAGE];
    put_u64(Order::Little, 5000, &mut bytes[8..]);
    bytes
}

// Appends a sub-buffer.
fn put_page(file: &mut Vec<u8>, page: &Page<'_>) -> Result<(), AllocError>
    ensures { OnOk result (HasPage page.now file.old.items file.new.items) }
{
    if matches!(page, Page::Malformed) {
        return file.extend_from_slice(&malformed());
    }
    let mut bytes = [0; PAGE];
    let mut packer = Packer::new(&layout(), &mut bytes);
    add_told(&mut packer, page);
    if packer.is_empty() {
        file.extend_from_slice(&empty())
    } else {
        file.extend_from_slice(packer.close())
    }
}

/// Appends sub-buffers.
pub fn put_pages(file: &mut Vec<u8>, pages: &[Page<'_>]) -> Result<(), AllocError>
    ensures { OnOk result (HasPages pages.now file.old.items file.new.items) }
{
    for page in pages {
        put_page(file, page)?;
    }
    Ok(())
}
