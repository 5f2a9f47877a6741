ghost use Rattle.std.specs.Prelude.{◌≡◌, ◌+◌, ◌*◌, ◌≤◌, length, IfOk, IfSome, OnOk, is_some};
ghost use Rattle.trace_outside.specs.Causes.{HasCause, raised};
ghost use Rattle.trace_outside.specs.Keeping.{KeepsFile};
ghost use Rattle.trace_outside.specs.Reading.{GivesBytesAt};
ghost use Rattle.event_cursor.specs.Fetched.{HoldsItems, IsFetched, IsOwnPage};
ghost use Rattle.event_cursor.specs.Unread.{is_there_in, size_there};

use page_pool::ByteBuffer;
use subpage::{Mark, open_page};
use trace_base::{Layout, Part};
use trace_outside::{Failed, File, read_all};

/// Where a sub-buffer of a part stands in a file of `len` bytes. `None` where it does not stand wholly in the part and
/// in the file.
pub(crate) fn place_of(layout: &Layout, len: u64, part: Part, number: u64) -> Option<u64>
    ensures there { is_some result ≡ is_there_in layout.now len part number }
    ensures place { IfSome result (λ place. place ≡ part.offset + number * layout.now.page) }
    ensures inside { IfSome result (λ place. place + layout.now.page ≤ len) }
{
    let page = u64::from(layout.page);
    if number >= part.size / page {
        return None;
    }
    let place = part.offset.checked_add(number * page)?;
    if len < page || len - page < place {
        return None;
    }
    Some(place)
}

/// Whether a sub-buffer of a part stands wholly in the part and in a file of `len` bytes.
pub fn is_there(layout: &Layout, len: u64, part: Part, number: u64) -> bool
    ensures { result ≡ is_there_in layout.now len part number }
{
    place_of(layout, len, part, number).is_some()
}

/// Fills the buffer with the file's bytes from a place on.
fn read_buffer<F: File>(file: &mut F, place: u64, page: &mut ByteBuffer) -> Result<(), Failed>
    requires inside { place + length page.old ≤ F.size file.old }
    ensures long { length page.new ≡ length page.old }
    ensures given { OnOk result (GivesBytesAt (F.bytes file.old) place (length page.new) page.new) }
    ensures reads { F.reads file.new ≤ raised (F.reads file.old) (length page.old) }
    ensures keeps { KeepsFile F.File file.old file.new }
    ensures cause { HasCause (F.faults file.old) (F.faults file.new) result }
{
    read_all(file, place, page.bytes_mut())
}

/// Reads a sub-buffer of a part into the buffer, and tells the position before its items. `None`: it is malformed, or not there,
/// and where it is not there nothing is read.
pub(crate) fn fetch<F: File>(
    layout: &Layout,
    file: &mut F,
    part: Part,
    number: u64,
    page: &mut ByteBuffer,
) -> Result<Option<Mark>, Failed>
    requires long { length page.old ≡ layout.now.page }
    ensures long { length page.new ≡ layout.now.page }
    ensures holds { IfOk result (HoldsItems layout.now page.new) }
    ensures told { IfOk result (λ found.
        IfSome (F.bytes file.old) (λ bytes. IsFetched layout.now bytes part number page.new found)) }
    ensures own { IfOk result (λ found.
        IfSome (F.bytes file.old) (λ bytes. IsOwnPage layout.now bytes part number page.new found)) }
    ensures cause { HasCause (F.faults file.old) (F.faults file.new) result }
    ensures reads { F.reads file.new
        ≤ raised (F.reads file.old) (size_there layout.now (F.size file.old) part number) }
    ensures keeps { KeepsFile F.File file.old file.new }
{
    let Some(place) = place_of(layout, file.len(), part, number) else {
        return Ok(None);
    };
    read_buffer(file, place, page)?;
    Ok(open_page(layout, page.bytes()))
}
