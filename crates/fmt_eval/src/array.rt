//! The texts of `__print_hex` and `__print_array`.

ghost use Rattle.std.specs.Prelude.{◌≡◌, false, ◌<◌, ◌^◌, IfSome, Some, None, unsigned_abs, true, if◌then◌else◌};
ghost use Rattle.trace_base.specs.Kept.{put};
ghost use Rattle.trace_base.specs.TailView.{kept, lent};
ghost use Rattle.trace_base.specs.Fields.{is_size};
ghost use Rattle.fmt_eval.specs.Arrays.{count_of, hex_text, elements_from, elements_text, array_text};

use crate::pieces::{put_between, put_hexadecimal, put_octets};
use trace_base::{Order, Tail, unsigned_at};

/// How many a number asks for.
fn count_of(count: i128) -> u64
    requires { unsigned_abs count < 2 ^ 64 }
    ensures { result ≡ count_of count }
{
    count.max(0) as u64
}

/// Puts at most so many bytes as two digits each.
#[tactic(auto, using(std::proofs::lemmas::List::take_min))]
pub fn put_hex(count: i128, bytes: &[u8], into: &mut Tail<'_>)
    requires { unsigned_abs count < 2 ^ 64 }
    ensures same_slice { lent into.new ≡ lent into.old }
    ensures value { kept into.new ≡ put (kept into.old) (hex_text count bytes.now) }
{
    let shown = count_of(count).min(bytes.len() as u64) as usize;
    put_octets(b" ", &bytes[..shown], into);
}

/// The size of an element, if it is one of a number.
fn element_size(size: i128) -> Option<u32>
    ensures value { result ≡ (if is_size (count_of size) then Some (count_of size) else None) }
    ensures some { IfSome result (λ n. is_size n ≡ true) }
{
    match size {
        1 => Some(1),
        2 => Some(2),
        4 => Some(4),
        8 => Some(8),
        _ => None,
    }
}

/// Puts at most so many whole elements.
fn put_elements(order: Order, count: u64, size: u32, bytes: &[u8], into: &mut Tail<'_>)
    requires { is_size size ≡ true }
    ensures same_slice { lent into.new ≡ lent into.old }
    ensures value { kept into.new ≡ put (kept into.old) (elements_from false count order size bytes.now) }
{
    let mut rest = bytes;
    let mut left = count;
    let mut some = false;
    while left > 0 && size as usize <= rest.len() {
        put_between(some, b",", into);
        put_hexadecimal(unsigned_at(order, rest, 0, size), into);
        rest = rest.split_at(size as usize).1;
        left -= 1;
        some = true;
    }
}

/// Puts at most so many whole elements of a size.
#[tactic(auto, unfolding(crate::specs::Arrays::elements_from, crate::specs::Arrays::elements_text), using(trace_base::proofs::TailJoins::put_nothing))]
fn put_sized(order: Order, count: u64, size: i128, bytes: &[u8], into: &mut Tail<'_>)
    ensures same_slice { lent into.new ≡ lent into.old }
    ensures value { kept into.new ≡ put (kept into.old) (elements_text order count (count_of size) bytes.now) }
{
    if let Some(size) = element_size(size) {
        put_elements(order, count, size, bytes, into);
    }
}

/// Puts at most so many whole elements of a size between braces.
#[tactic(auto, using(crate::proofs::PieceLemmas::braced))]
pub fn put_array(order: Order, count: i128, size: i128, bytes: &[u8], into: &mut Tail<'_>)
    requires { unsigned_abs count < 2 ^ 64 }
    ensures same_slice { lent into.new ≡ lent into.old }
    ensures value { kept into.new ≡ put (kept into.old) (array_text order count size bytes.now) }
{
    into.put(b"{");
    put_sized(order, count_of(count), size, bytes, into);
    into.put(b"}");
}
