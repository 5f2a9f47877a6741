//! Pieces of text with a text between them.

ghost use Rattle.std.specs.Prelude.{◌≡◌, ◌++◌, [], map, if◌then◌else◌};
ghost use Rattle.trace_base.specs.Kept.{put};
ghost use Rattle.trace_base.specs.TailView.{kept, lent};
ghost use Rattle.trace_base.specs.Digits.{two_digits};
ghost use Rattle.fmt_eval.specs.Pieces.{join, hexadecimal};

use trace_base::{Tail, two_digits, write_digits};

/// Puts a number as `0x` and its lower hexadecimal digits.
#[tactic(auto, using(trace_base::proofs::TailJoins::put_put))]
pub fn put_hexadecimal(n: u64, into: &mut Tail<'_>)
    ensures same_slice { lent into.new ≡ lent into.old }
    ensures value { kept into.new ≡ put (kept into.old) (hexadecimal n) }
{
    let mut buffer = [0; 64];
    let start = write_digits(n, false, false, &mut buffer);
    put_pair(b"0x", &buffer[start..], into);
}

#[tactic(auto, using(trace_base::proofs::TailJoins::put_put))]
fn put_pair(one: &[u8], two: &[u8], into: &mut Tail<'_>)
    ensures same_slice { lent into.new ≡ lent into.old }
    ensures value { kept into.new ≡ put (kept into.old) (one.now ++ two.now) }
{
    into.put(one);
    into.put(two);
}

/// Puts the text that stands between pieces, if there was one.
#[tactic(auto, using(trace_base::proofs::TailJoins::put_nothing))]
pub fn put_between(some: bool, between: &[u8], into: &mut Tail<'_>)
    ensures same_slice { lent into.new ≡ lent into.old }
    ensures value { kept into.new ≡ put (kept into.old) (if some then between.now else []) }
{
    if some {
        into.put(between);
    }
}

/// Puts a piece, after the text that stands between it and one before.
#[tactic(auto, using(trace_base::proofs::TailJoins::put_put))]
pub fn put_piece(some: bool, between: &[u8], piece: &[u8], into: &mut Tail<'_>)
    ensures same_slice { lent into.new ≡ lent into.old }
    ensures value { kept into.new ≡ put (kept into.old) (if some then between.now ++ piece.now else piece.now) }
{
    if some {
        into.put(between);
    }
    into.put(piece);
}

/// Puts bytes as two lower hexadecimal digits each, with a text between them.
pub fn put_octets(between: &[u8], bytes: &[u8], into: &mut Tail<'_>)
    ensures same_slice { lent into.new ≡ lent into.old }
    ensures value { kept into.new ≡ put (kept into.old) (join between.now (map two_digits bytes.now)) }
{
    let mut some = false;
    for byte in bytes {
        put_piece(some, between, &two_digits(*byte), into);
        some = true;
    }
}
