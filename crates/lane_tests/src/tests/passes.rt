//! Events that are counted and written.

ghost use Rattle.std.specs.Prelude.{◌≡◌, ◌<◌, ◌≤◌, ◌^◌, length};
ghost use Rattle.trace_base.specs.declared.layout.Layout.{Layout};
ghost use Rattle.subpage.specs.ItemView.{item_view};
ghost use Rattle.page_write.specs.PageBytes.{IsPackable};

use page_write::{Packer, PageCount, write_item, write_last};
use subpage::Item;
use trace_base::{Layout, Order};
use trace_outside::{Failed, MemSink};

fn layout() -> Layout
    ensures page { result.page ≡ 4096 }
{
    Layout::plain(Order::Big, 4, 4096)
}

fn event(time: u64) -> Item<'static>
    ensures { (layout : Layout) → IsPackable layout (item_view result) }
{
    Item::Event {
        time,
        payload: b"payload.",
    }
}

// Writes an event at each of these times, and answers how many sub-buffers were counted.
fn write_at(times: &[u64], out: &mut MemSink) -> Result<u64, Failed>
    requires { length times.now < 2 ^ 32 }
{
    let layout = layout();
    let mut page = [0; 4096];
    let mut packer = Packer::new(&layout, &mut page);
    let mut count = PageCount::new();
    for time in times {
        let item = event(*time);
        count.add(&layout, &item);
        write_item(&mut packer, &item, out)?;
    }
    write_last(&mut packer, out)?;
    Ok(count.pages())
}

const FIRST: &[u8] = b"\0\0\0\0\0\0\x03\xe8\0\0\0\x18\x10\0\0\0payload.\x10\0\x03\xe8payload.";

// A time that goes back opens a further sub-buffer.
#[test]
fn counts_what_is_written(rt: HostRuntime) {
    let mut out = MemSink::new(rt.alloc());
    let is_none = write_at(&[], &mut out) == Ok(0);
    assert!(rt; is_none && write_at(&[1000, 2000, 1999], &mut out) == Ok(2));
    assert!(rt; out.bytes().len() == 8192 && out.bytes().starts_with(FIRST));
}
