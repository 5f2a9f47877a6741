// Long texts of one part, again and again.

use std::alloc::{AllocError, Global};

/// A text that begins so, has a part again and again, and ends so.
#[derive(Clone, Copy)]
pub(super) struct Long {
    pub(super) begin: &'static str,
    pub(super) part: &'static str,
    pub(super) count: u32,
    pub(super) end: &'static str,
}

/// How many parts are put at once.
const BLOCK: u32 = 1024;

fn put_times(text: &mut String, part: &str, count: u32) -> Result<(), AllocError> {
    for _ in 0..count {
        text.push_str(part)?;
    }
    Ok(())
}

// Parts, many at once.
fn put_parts(alloc: Global, text: &mut String, part: &str, count: u32) -> Result<(), AllocError> {
    let mut block = String::new(alloc);
    put_times(&mut block, part, BLOCK)?;
    put_times(text, block.as_str(), count / BLOCK)?;
    put_times(text, part, count % BLOCK)
}

/// Appends the text.
pub(super) fn put_long(alloc: Global, text: &mut String, long: &Long) -> Result<(), AllocError> {
    text.push_str(long.begin)?;
    put_parts(alloc, text, long.part, long.count)?;
    text.push_str(long.end)
}

pub(super) fn text_of(alloc: Global, long: &Long) -> Result<String, AllocError> {
    let mut text = String::new(alloc);
    put_long(alloc, &mut text, long)?;
    Ok(text)
}
