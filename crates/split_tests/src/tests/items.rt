// Items of sub-buffers, as they are written in rows: an event's time in microseconds, after a point the nanoseconds that are
// left; of a loss `!`, its time, and after `#` its number.

use std::test::Fail;
use subpage::{Item, check_page};
use trace_base::Layout;

fn put_time(text: &mut String, time: u64) -> Result<(), Fail> {
    let micros = time / 1000;
    let rest = time % 1000;
    if rest == 0 {
        write!(text, "{micros}")?;
    } else {
        write!(text, "{micros}.{rest}")?;
    }
    Ok(())
}

fn put_item(text: &mut String, item: &Item<'_>) -> Result<(), Fail> {
    match item {
        Item::Event { time, .. } => put_time(text, *time)?,
        Item::Loss { time, count } => {
            text.push_str("!")?;
            put_time(text, *time)?;
            if let Some(count) = count {
                write!(text, "#{count}")?;
            }
        }
    }
    text.push_str(" ")?;
    Ok(())
}

/// The items of so many sub-buffers at the front, and `|`. Gives the bytes after these.
pub(super) fn put_sub_buffers<'a>(
    text: &mut String,
    layout: &Layout,
    bytes: &'a [u8],
    count: u64,
) -> Result<&'a [u8], Fail> {
    let mut rest = bytes;
    for _ in 0..count {
        let Some((page, behind)) = rest.split_at_checked(layout.page as usize) else {
            break;
        };
        match check_page(layout, page) {
            Some(page) => {
                for item in page.items() {
                    put_item(text, &item)?;
                }
            }
            None => text.push_str("malformed ")?,
        }
        rest = behind;
    }
    text.push_str("|")?;
    Ok(rest)
}
