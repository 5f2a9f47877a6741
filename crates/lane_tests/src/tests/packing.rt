//! Sub-buffers packed again: two that a kernel wrote, and some written out byte by byte (`PACKED`).

ghost use Rattle.std.specs.Prelude.{◌≡◌, ◌≤◌, All, length, IfOk, IfSome};
ghost use Rattle.page_write.specs.PageBytes.{IsPackable};

use Order::{Big, Little};
use page_write::{Added, Packer, Room, both_add};
use std::alloc::{AllocError, Global};
use std::test::Fail;
use subpage::{Page, check_page};
use trace_base::{Layout, Order, put_u32, put_u64};

fn layout_of(order: Order) -> Layout
    ensures page { result.page ≡ 4096 }
    ensures data_at { result.data_at ≡ 16 }
{
    Layout::plain(order, 8, 4096)
}

// A sub-buffer that begins with these bytes; zero bytes fill it.
fn bytes_of(alloc: Global, front: &[u8]) -> Result<Vec<u8>, AllocError>
    ensures { IfOk result (λ v. length v.items ≡ 4096) }
{
    let mut out = vec![in alloc; 0; 4096]?;
    let len = front.len().min(4096);
    out.as_mut_slice()[..len].copy_from_slice(&front[..len]);
    Ok(out)
}

// Packs the items of a sub-buffer into another one, up to the first that opens a further one. A room goes along.
fn pack_again(layout: &Layout, page: &Page<'_>, into: &mut [u8])
    requires whole { length into.old ≡ layout.now.page }
    requires packable { All (IsPackable layout.now) page.now }
{
    let mut room = Room::new();
    let mut packer = Packer::new(layout, into);
    for item in page.items() {
        if both_add(&mut room, &mut packer, layout, &item) != (Added::Added, Added::Added) {
            break;
        }
    }
    if !packer.is_empty() {
        packer.close();
    }
}

fn checked<'a>(layout: &Layout, bytes: &'a [u8]) -> Option<Page<'a>>
    requires whole { length bytes.now ≡ layout.now.page }
    ensures { IfSome result (All (IsPackable layout.now)) }
{
    check_page(layout, bytes)
}

// Whether the items of the first sub-buffer are packed into just the second one.
fn packs(alloc: Global, order: Order, from: &[u8], to: &[u8]) -> Result<bool, AllocError> {
    let layout = layout_of(order);
    let bytes = bytes_of(alloc, from)?;
    let want = bytes_of(alloc, to)?;
    let mut into = vec![in alloc; 0xff; 4096]?;
    let Some(page) = checked(&layout, bytes.as_slice()) else {
        return Ok(false);
    };
    pack_again(&layout, &page, into.as_mut_slice());
    Ok(into.as_slice() == want.as_slice())
}

// The last sub-buffer of processor 0 in a recording of an x86-64 kernel (28 events of the sched system).
const RECORDED_LITTLE: &[u8] =
    b"b=\x8a\xd2\x0f\0\0\0\x94\x05\0\0\0\0\0\0\x10\0\0\0?\x01\x01\x02\x0e\0\0\0ksoftirqd/0\0\0\0\0\0\x0e\0\0\0x\0\0\0\x01\0\0\0\0\0\0\0sh\0\0\0\0\0\0\0\0\0\0\0\0\0\0\xd4\0\0\0x\0\0\0\x89\xa7\xd8\x038\x01\0\0\xd4\0\0\0\x14\0\x0f\0\xd4\0\0\0\xd4\0\0\0/proc/self/exe\0\0l\x85^\x023\x01\x09\x01\xd4\0\0\0exe\0\0\0\0\0\0\0\0\0\0\0\0\0\xd4\0\0\0\0\0\0\0(\xd21\0\0\0\0\0f\xab\xedE\x06\0\0\0\xe9\xde6\0B\x01\x11\x02\xd4\0\0\0rcu_preempt\0\0\0\0\0\x0f\0\0\0x\0\0\0\0\0\0\0\xea\xc7\x0f\0>\x01\x11\x02\xd4\0\0\0rcu_preempt\0\0\0\0\0\x0f\0\0\0x\0\0\0\0\0\0\0\x01\0\0\0,IG\x073\x01\x09\x02\xd4\0\0\0cat\0\0\0\0\0\0\0\0\0\0\0\0\0\xd4\0\0\0\0\0\0\0\xb7`<\0\0\0\0\0\x1d\x0c*F\x06\0\0\0\xa8\xb2\xdc\x01<\x01\0\0\xd4\0\0\0cat\0\0\0\0\0\0\0\0\0\0\0\0\0\xd4\0\0\0x\0\0\0\xac\x13u\03\x01\x01\x02\xd4\0\0\0cat\0\0\0\0\0\0\0\0\0\0\0\0\0\xd4\0\0\0\0\0\0\0\xb3\xbf\x12\0\0\0\0\0\xd0\xcb<F\x06\0\0\0\x89\x16I\0B\x01%\x04\xd4\0\0\0sh\0\0\0\0\0\0\0\0\0\0\0\0\0\0\xd2\0\0\0x\0\0\0\x01\0\0\0l\xdf5\03\x01%\x02\xd4\0\0\0cat\0\0\0\0\0\0\0\0\0\0\0\0\0\xd4\0\0\0\0\0\0\0Q\x18\x04\0\0\0\0\0!\xe4@F\x06\0\0\0p\x0d\x16\0?\x01\x01\x02\xd4\0\0\0cat\0\0\0\0\0\0\0\0\0\0\0\0\0\xd4\0\0\0x\0\0\0 \0\0\0\0\0\0\0swapper/0\0\0\0\0\0\0\0\0\0\0\0x\0\0\0\xe9\xf3\xef\x05A\x01-\x02\0\0\0\0sh\0\0\0\0\0\0\0\0\0\0\0\0\0\0\x9c\0\0\0x\0\0\0\0\0\0\0\x10\xd6\x18\0?\x01\x01\x02\0\0\0\0swapper/0\0\0\0\0\0\0\0\0\0\0\0x\0\0\0\0\0\0\0\0\0\0\0sh\0\0\0\0\0\0\0\0\0\0\0\0\0\0\x9c\0\0\0x\0\0\0hO\xf2\0:\x01\0\0\x9c\0\0\0sh\0\0\0\0\0\0\0\0\0\0\0\0\0\0\0\0\0\0x\0\0\0\xe8Hn\0:\x01\0\0\x9c\0\0\0sh\0\0\0\0\0\0\0\0\0\0\0\0\0\0\0\0\0\0x\0\0\0\x88.B\x03<\x01\0\0\x9c\0\0\0sh\0\0\0\0\0\0\0\0\0\0\0\0\0\0\x9c\0\0\0x\0\0\0L\x85\x96\03\x01\x01\x02\x9c\0\0\0sh\0\0\0\0\0\0\0\0\0\0\0\0\0\0\x9c\0\0\0\0\0\0\0\x15\xfb*\0\0\0\0\0\xb6Q\x10F\x06\0\0\0p\xb4&\0?\x01\x01\x02\x9c\0\0\0sh\0\0\0\0\0\0\0\0\0\0\0\0\0\0\x9c\0\0\0x\0\0\0\x02\0\0\0\0\0\0\0swapper/0\0\0\0\0\0\0\0\0\0\0\0x\0\0\0\xc9\x80\x93\0A\x01-\x02\0\0\0\0sh\0\0\0\0\0\0\0\0\0\0\0\0\0\0\x9c\0\0\0x\0\0\0\0\0\0\0\xb0\x8fe\0?\x01\x01\x02\0\0\0\0swapper/0\0\0\0\0\0\0\0\0\0\0\0x\0\0\0\0\0\0\0\0\0\0\0sh\0\0\0\0\0\0\0\0\0\0\0\0\0\0\x9c\0\0\0x\0\0\0L+\x85\03\x01\x01\x02\x9c\0\0\0sh\0\0\0\0\0\0\0\0\0\0\0\0\0\0\x9c\0\0\0\0\0\0\0A\xb7\x05\0\0\0\0\0\xf7\x08\x16F\x06\0\0\0\x10T\x0d\0?\x01\x01\x02\x9c\0\0\0sh\0\0\0\0\0\0\0\0\0\0\0\0\0\0\x9c\0\0\0x\0\0\0\x02\0\0\0\0\0\0\0swapper/0\0\0\0\0\0\0\0\0\0\0\0x\0\0\0\x89\xfcV\0A\x01-\x02\0\0\0\0sh\0\0\0\0\0\0\0\0\0\0\0\0\0\0\x9c\0\0\0x\0\0\0\0\0\0\00\x14\x0d\0?\x01\x01\x02\0\0\0\0swapper/0\0\0\0\0\0\0\0\0\0\0\0x\0\0\0\0\0\0\0\0\0\0\0sh\0\0\0\0\0\0\0\0\0\0\0\0\0\0\x9c\0\0\0x\0\0\0,\x8b*\03\x01\x01\x02\x9c\0\0\0sh\0\0\0\0\0\0\0\0\0\0\0\0\0\0\x9c\0\0\0\0\0\0\0\x9e\xf6\x01\0\0\0\0\0\x95\xff\x17F\x06\0\0\0Io0\0B\x01%\x05\x9c\0\0\0trace-cmd\0\0\0\0\0\0\0\x99\0\0\0x\0\0\0\x01\0\0\0L\xbd#\03\x01%\x02\x9c\0\0\0sh\0\0\0\0\0\0\0\0\0\0\0\0\0\0\x9c\0\0\0\0\0\0\0\x9f\xac\x02\0\0\0\0\04\xac\x1aF\x06\0\0\0\xb0:\x09\0?\x01\x01\x02\x9c\0\0\0sh\0\0\0\0\0\0\0\0\0\0\0\0\0\0\x9c\0\0\0x\0\0\0 \0\0\0\0\0\0\0swapper/0\0\0\0\0\0\0\0\0\0\0\0x\0\0\0";

// The sub-buffer of processor 0 in a recording of an s390x kernel (15 events).
const RECORDED_BIG: &[u8] =
    b"\0\0\0\x04t\xe3\x0f\xd9\0\0\0\0\0\0\x02\x94\x80\0\0\0\0\xfc\x01\0\0\0\0\xa5sh\0\0\0\0\0\0\0\0\0\0\0\0\0\0\0\0\0\xa5\0\0\0x\0\0\0\0\0\0\0\0kworker/0:1\0\0\0\0\0\0\0\0\x16\0\0\0x\x80\x03O\x86\0\xfc\x01\0\0\0\0\x16kworker/0:1\0\0\0\0\0\0\0\0\x16\0\0\0x\0\0\0\0\0\0\0\x80sh\0\0\0\0\0\0\0\0\0\0\0\0\0\0\0\0\0\xa5\0\0\0x8\xd0y\x9e\0\x05\0\0\0\0\0\xa5\0\0\0\0\0&Ybmarker 0\x0a\0\x0108\x16j\xdc\0\x05\0\0\0\0\0\xa5\0\0\0\0\0&Ybmarker 1\x0a\0$\x908\x16\x0bP\0\x05\0\0\0\0\0\xa5\0\0\0\0\0&Ybmarker 2\x0a\0\0\08\x10\x17I\0\x05\0\0\0\0\0\xa5\0\0\0\0\0&Ybmarker 3\x0a\0Q\xb08\x17\xfe\xc8\0\x05\0\0\0\0\0\xa5\0\0\0\0\0&Ybmarker 4\x0a\0\0\08\x14\xcb\xa0\0\x05\0\0\0\0\0\xa5\0\0\0\0\0&Ybmarker 5\x0a\0\0\08\x10\x9d\x81\0\x05\0\0\0\0\0\xa5\0\0\0\0\0&Ybmarker 6\x0a\0AX8\x0f]\x1d\0\x05\0\0\0\0\0\xa5\0\0\0\0\0&Ybmarker 7\x0a\0he8\x15P\x1f\0\x05\0\0\0\0\0\xa5\0\0\0\0\0&Ybmarker 8\x0a\0\0\x968\x0fs\xb0\0\x05\0\0\0\0\0\xa5\0\0\0\0\0&Ybmarker 9\x0a\0\0\x0a\x803\x8d\x90\0\xfc\x01\0\0\0\0\xa5sh\0\0\0\0\0\0\0\0\0\0\0\0\0\0\0\0\0\xa5\0\0\0x\0\0\0\0\0\0\0\x01swapper/0\0\0\0\0\0\0\0\0\0\0\0\0\0\0x\x81\xa9\xe2\x0f\0\xfc\x01\0\0\0\0\0swapper/0\0\0\0\0\0\0\0\0\0\0\0\0\0\0x\0\0\0\0\0\0\0\0sh\0\0\0\0\0\0\0\0\0\0\0\0\0\0\0\0\0\xa5\0\0\0x\x80%+\xfa\0\xfc\x01\0\0\0\0\xa5sh\0\0\0\0\0\0\0\0\0\0\0\0\0\0\0\0\0\xa5\0\0\0x\0\0\0\0\0\0\0 swapper/0\0\0\0\0\0\0\0\0\0\0\0\0\0\0x";

const FAR: &[u8] =
    b"\xe8\x03\0\0\0\0\0\0 \0\0\0\0\0\0\0\x02\0\0\0firstone\x1e\0\0\0\x01\0\0\0\x02\0\0\0laterone";

const BACK: &[u8] =
    b"\xe8\x03\0\0\0\0\0\0 \0\0\0\0\0\0\0\x02\0\0\0firstone\xff\x7c\0\0\0\0\0\0\x02\0\0\0laterone";

const FIRST: &[u8] = b"\xe8\x03\0\0\0\0\0\0\x0c\0\0\0\0\0\0\0\x02\0\0\0firstone";

const COUNTED: &[u8] =
    b"\xe8\x03\0\0\0\0\0\0\x0c\0\0\xc0\0\0\0\0\x02\0\0\0firstone\x03\0\0\0\0\0\0\0";

const UNCOUNTED: &[u8] = b"\xe8\x03\0\0\0\0\0\0\x0c\0\0\x80\0\0\0\0\x02\0\0\0firstone";

const LONG: &[u8] = b"\x05\0\0\0\0\0\0\0\x0c\0\0\0\0\0\0\0\0\0\0\0\x05\0\0\0x\0\0\0";

const FILLED: &[u8] = b"\x05\0\0\0\0\0\0\0\x0c\0\0\0\0\0\0\0\0\0\0\0\x05\0\0\0x\xff\xff\xff";

/// What a row shows, the byte order, the front of a sub-buffer, and that of the one that its items are packed into. A front is a
/// timestamp and a commit word of 8 bytes each, and data.
const PACKED: &[(&str, Order, &[u8], &[u8])] = &[
    (
        "recorded on x86-64",
        Little,
        RECORDED_LITTLE,
        RECORDED_LITTLE,
    ),
    ("recorded on s390x", Big, RECORDED_BIG, RECORDED_BIG),
    ("a step of 2^27", Little, FAR, FAR),
    ("a time that goes back", Little, BACK, FIRST),
    ("a loss with its number", Little, COUNTED, COUNTED),
    ("a loss without a number", Little, UNCOUNTED, UNCOUNTED),
    ("a payload of one byte", Little, FILLED, LONG),
];

#[test]
fn packs_again(rt: HostRuntime) -> Result<(), Fail> {
    for (name, order, from, to) in PACKED {
        assert!(rt; packs(rt.alloc(), *order, from, to)?, "{name}");
    }
    Ok(())
}

/// The layout of sub-buffers of 8,192 or of 262,144 bytes.
fn several_pages(order: Order, size: u32) -> Layout
    ensures least { 4096 ≤ result.page }
{
    let size = if size == 8_192 { 8_192 } else { 262_144 };
    Layout::plain(order, 8, size)
}

/// A sub-buffer of time 1,000 with one event, which fills it.
fn filled_up(alloc: Global, layout: &Layout) -> Result<Vec<u8>, AllocError>
    requires least { 4096 ≤ layout.now.page }
    ensures { IfOk result (λ v. length v.items ≡ layout.now.page) }
{
    let mut out = vec![in alloc; 7; layout.page as usize]?;
    let bytes = out.as_mut_slice();
    put_u64(layout.order, 1_000, &mut bytes[..8]);
    put_u64(layout.order, u64::from(layout.page - 16), &mut bytes[8..16]);
    put_u32(layout.order, 0, &mut bytes[16..20]);
    put_u32(layout.order, layout.page - 20, &mut bytes[20..24]);
    Ok(out)
}

/// Whether its item is packed into just the same sub-buffer.
fn packs_filled(alloc: Global, order: Order, size: u32) -> Result<bool, AllocError> {
    let layout = several_pages(order, size);
    let bytes = filled_up(alloc, &layout)?;
    let mut into = vec![in alloc; 0xff; layout.page as usize]?;
    let Some(page) = checked(&layout, bytes.as_slice()) else {
        return Ok(false);
    };
    pack_again(&layout, &page, into.as_mut_slice());
    Ok(into.as_slice() == bytes.as_slice())
}

#[test]
fn sub_buffers_of_several_pages_are_packed_again(rt: HostRuntime) -> Result<(), Fail> {
    for size in [8_192, 262_144] {
        let little = packs_filled(rt.alloc(), Little, size)?;
        assert!(rt; little && packs_filled(rt.alloc(), Big, size)?);
    }
    Ok(())
}
