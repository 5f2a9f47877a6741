use std::alloc::{AllocError, Global};
use std::test::Fail;
use subpage::{Item, check_page};
use trace_samples::{Page, layout, put_pages};

fn bytes_of(alloc: Global, page: Page<'_>) -> Result<Vec<u8>, AllocError> {
    let mut bytes = Vec::new(alloc);
    put_pages(&mut bytes, &[page])?;
    Ok(bytes)
}

// The sub-buffer tells just these items.
fn tells(alloc: Global, page: Page<'_>, items: &[Item<'_>]) -> Result<bool, AllocError> {
    let bytes = bytes_of(alloc, page)?;
    if bytes.len() != 4096 {
        return Ok(false);
    }
    let Some(found) = check_page(&layout(), bytes.as_slice()) else {
        return Ok(false);
    };
    Ok(found.count() as usize == items.len() && found.items().zip(items).all(|(a, b)| a == *b))
}

const EVENT: Item<'static> = Item::Event {
    time: 10,
    payload: b"\x0a\0\0\0\0\0\0\0",
};

const LATER: Item<'static> = Item::Event {
    time: 266,
    payload: b"\x0a\x01\0\0\0\0\0\0",
};

const LOSS: Item<'static> = Item::Loss {
    time: 9,
    count: Some(7),
};

const PAGES: &[(Page<'static>, &[Item<'static>])] = &[
    (Page::Of(&[]), &[]),
    (Page::Of(&[10, 266]), &[EVENT, LATER]),
    (Page::Lossy(9, Some(7), &[10]), &[LOSS, EVENT]),
];

#[test]
fn sub_buffers_tell_what_they_are_of(rt: HostRuntime) -> Result<(), Fail> {
    for (page, items) in PAGES {
        assert!(rt; tells(rt.alloc(), *page, items)?);
    }
    Ok(())
}

#[test]
fn a_malformed_sub_buffer_tells_nothing(rt: HostRuntime) -> Result<(), Fail> {
    let bytes = bytes_of(rt.alloc(), Page::Malformed)?;
    assert!(rt; bytes.len() == 4096 && check_page(&layout(), bytes.as_slice()).is_none());
    Ok(())
}
