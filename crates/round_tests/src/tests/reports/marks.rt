//! Lines of two bytes.

ghost use Rattle.std.specs.Prelude.{◌≡◌, ◌+◌, ◌%◌, ◌==◌, if◌then◌else◌, [], ◌∷◌, None, take};
ghost use Rattle.line_holes.specs.Holes.{line_text};
ghost use Rattle.subpage.specs.ItemData.{item_time};

use crate::tests::times::time_of;
use line_holes::{Hole, LineFormat};
use subpage::Item;
use trace_base::Tail;

/// The line of an item: its processor's letter and the last digit of its time. There is none where that digit is 7.
pub(super) struct Marks;

/// The bytes of a line.
pub(super) fn mark(cpu: u32, time: u64) -> [u8; 2]
    ensures { result ≡ (97 + cpu % 26) ∷ (48 + time % 10) ∷ [] }
{
    [b'a' + (cpu % 26) as u8, b'0' + (time % 10) as u8]
}

/// How many of them there are.
pub(super) fn len_of(time: u64) -> u32
    ensures { result ≡ (if time % 10 == 7 then 0 else 2) }
{
    if time % 10 == 7 { 0 } else { 2 }
}

impl LineFormat for Marks {
    ghost text = { λ form cpu item. line_text
        (take (if item_time item % 10 == 7 then 0 else 2) ((97 + cpu % 26) ∷ (48 + item_time item % 10) ∷ [])) None };

    fn line(&self, cpu: u32, item: &Item<'_>, into: &mut Tail<'_>) -> (u32, Option<Hole>) {
        let time = time_of(item);
        let text = mark(cpu, time);
        let len = len_of(time);
        into.put(&text[..len as usize]);
        (len, None)
    }
}
