//! Texts in their widths.

ghost use Rattle.std.specs.Prelude.{◌≡◌, ◌+◌, ◌-◌, ◌^◌, ◌<◌, ◌++◌, length, replicate};
ghost use Rattle.trace_base.specs.Kept.{put};
ghost use Rattle.trace_base.specs.TailView.{kept, lent};
ghost use Rattle.fmt_forms.specs.Integers.{parts, laid};
ghost use Rattle.fmt_forms.specs.Texts.{padded};

use crate::form::Form;
use crate::repeat::{Fill, put_repeated};
use trace_base::Tail;

/// Puts a piece, if it is not empty.
#[tactic(auto, using(crate::proofs::PutLemmas::put_empty))]
fn put_some(piece: &[u8], into: &mut Tail<'_>)
    ensures same_slice { lent into.new ≡ lent into.old }
    ensures value { kept into.new ≡ put (kept into.old) piece.now }
{
    if !piece.is_empty() {
        into.put(piece);
    }
}

/// Puts spaces, a mark, zeros, a text and spaces.
#[tactic(auto, using(trace_base::proofs::TailJoins::put_put))]
fn put_parts(
    before: usize,
    mark: &[u8],
    zeros: usize,
    text: &[u8],
    after: usize,
    into: &mut Tail<'_>,
)
    ensures same_slice { lent into.new ≡ lent into.old }
    ensures value { kept into.new ≡ put (kept into.old) (parts before mark.now zeros text.now after) }
{
    put_repeated(Fill::Space, before, into);
    put_some(mark, into);
    put_repeated(Fill::Zero, zeros, into);
    into.put(text);
    put_repeated(Fill::Space, after, into);
}

/// How many bytes a width asks for beside a mark, zeros and a text.
fn pad(width: u32, mark: &[u8], zeros: usize, text: &[u8]) -> usize
    ensures value { result ≡ width - (length mark.now + (zeros + length text.now)) }
    ensures small { result < 2 ^ 32 }
{
    (width as usize)
        .saturating_sub(mark.len())
        .saturating_sub(zeros)
        .saturating_sub(text.len())
}

/// Puts a mark and digits.
#[tactic(auto, using(trace_base::proofs::TailJoins::put_put))]
fn put_bare(mark: &[u8], digits: &[u8], into: &mut Tail<'_>)
    ensures same_slice { lent into.new ≡ lent into.old }
    ensures value { kept into.new ≡ put (kept into.old) (mark.now ++ digits.now) }
{
    put_some(mark, into);
    into.put(digits);
}

/// Puts a mark, zeros and digits in their width.
#[tactic(auto, using(crate::proofs::LaidLemmas::laid_bare, crate::proofs::LaidLemmas::laid_left, crate::proofs::LaidLemmas::laid_zero, crate::proofs::LaidLemmas::laid_right))]
pub fn put_laid(form: &Form, mark: &[u8], zeros: u32, digits: &[u8], into: &mut Tail<'_>)
    ensures same_slice { lent into.new ≡ lent into.old }
    ensures value { kept into.new ≡ put (kept into.old) (laid form.now mark.now (replicate zeros 48 ++ digits.now)) }
{
    let zeros = zeros as usize;
    let pad = pad(form.width, mark, zeros, digits);
    if pad == 0 && zeros == 0 {
        // Most numbers are shown as they are.
        put_bare(mark, digits, into);
    } else if form.left {
        put_parts(0, mark, zeros, digits, pad, into);
    } else if form.zero && form.precision.is_none() {
        put_parts(0, mark, pad + zeros, digits, 0, into);
    } else {
        put_parts(pad, mark, zeros, digits, 0, into);
    }
}

/// Puts three pieces between spaces.
#[tactic(auto, using(trace_base::proofs::TailJoins::put_put))]
fn put_spaced(
    before: usize,
    one: &[u8],
    two: &[u8],
    three: &[u8],
    after: usize,
    into: &mut Tail<'_>,
)
    ensures same_slice { lent into.new ≡ lent into.old }
    ensures value { kept into.new ≡ put (kept into.old) (replicate before 32 ++ (one.now ++ (two.now ++ (three.now ++ replicate after 32)))) }
{
    put_repeated(Fill::Space, before, into);
    put_some(one, into);
    put_some(two, into);
    put_some(three, into);
    put_repeated(Fill::Space, after, into);
}

/// Puts three pieces.
#[tactic(auto, using(trace_base::proofs::TailJoins::put_put))]
fn put_pieces(one: &[u8], two: &[u8], three: &[u8], into: &mut Tail<'_>)
    ensures same_slice { lent into.new ≡ lent into.old }
    ensures value { kept into.new ≡ put (kept into.old) (one.now ++ (two.now ++ three.now)) }
{
    put_some(one, into);
    put_some(two, into);
    put_some(three, into);
}

/// Puts a text of three pieces in its width, with spaces.
#[inline(never)]
#[tactic(auto, using(crate::proofs::PlainLemmas::padded_bare, crate::proofs::LaidLemmas::padded_left, crate::proofs::LaidLemmas::padded_right))]
pub(crate) fn put_padded(form: &Form, one: &[u8], two: &[u8], three: &[u8], into: &mut Tail<'_>)
    ensures same_slice { lent into.new ≡ lent into.old }
    ensures value { kept into.new ≡ put (kept into.old) (padded form.now.left form.now.width (one.now ++ (two.now ++ three.now))) }
{
    let pad = pad(form.width, one, two.len(), three);
    if form.width == 0 {
        put_pieces(one, two, three, into);
    } else if form.left {
        put_spaced(0, one, two, three, pad, into);
    } else {
        put_spaced(pad, one, two, three, 0, into);
    }
}
