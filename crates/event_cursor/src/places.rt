ghost use Rattle.std.specs.Prelude.{◌≡◌};
ghost use Rattle.event_cursor.specs.Places.{place_at};

use page_pool::Cursor;

/// A place among a processor's items that can be gone back to.
#[derive(Clone, Copy, Debug)]
pub struct Place {
    /// The number of the sub-buffer.
    pub page: u64,
    /// How many of its items are used up.
    pub at: u32,
    /// The greatest time so far, in nanoseconds.
    pub high: Option<u64>,
}

impl Place {
    /// Where a cursor stands, if it holds a sub-buffer.
    #[inline]
    pub fn of(cursor: &Cursor) -> Place
        ensures { result ≡ place_at cursor.now }
    {
        Place {
            page: cursor.held,
            at: cursor.at,
            high: cursor.high,
        }
    }
}
