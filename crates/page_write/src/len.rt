// How many bytes the record of an event takes, for a room.

ghost use Rattle.std.specs.Prelude.{◌≡◌, ◌+◌, ◌<◌, ◌≤◌, ◌^◌};
ghost use Rattle.page_write.specs.Fill.{event_len, record_len};
ghost use Rattle.page_write.specs.Record.{is_short};

use crate::bits::DELTA_BITS;
use subpage::filled_up;

/// Whether the first word tells the length of a payload.
fn is_short_len(len: usize) -> bool
    ensures { result ≡ is_short len }
{
    4 <= len && len <= 112 && len % 4 == 0
}

/// How many bytes an event with so many bytes of payload takes.
#[tactic(auto, unfolding(crate::specs::Fill::event_len))]
pub fn len_of_event(len: usize) -> usize
    requires { len < 2 ^ 32 }
    ensures value { result ≡ event_len len }
    ensures most { result ≤ len + 11 }
{
    if is_short_len(len) {
        4 + len
    } else {
        8 + filled_up(len)
    }
}

/// The same of an event that is so much later than what stands before it.
#[tactic(auto, unfolding(crate::specs::Fill::record_len))]
pub fn len_of_record(step: u64, len: usize) -> usize
    requires { len < 2 ^ 32 }
    ensures value { result ≡ record_len step len }
    ensures most { result ≤ len + 19 }
{
    if step < 1 << DELTA_BITS {
        len_of_event(len)
    } else {
        8 + len_of_event(len)
    }
}
