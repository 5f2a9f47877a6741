//! One byte, put many times.

ghost use Rattle.std.specs.Prelude.{◌≡◌, replicate};
ghost use Rattle.fmt_forms.specs.Fills.{fill_byte};
ghost use Rattle.trace_base.specs.Kept.{put};
ghost use Rattle.trace_base.specs.TailView.{kept, lent};

use trace_base::Tail;

/// The bytes that fill a width or a precision.
#[derive(Clone, Copy, PartialEq, Eq, Debug, Drop)]
pub enum Fill {
    Space,
    Zero,
}

impl Fill {
    /// So many of them, as far as there are 64.
    pub(crate) fn block(self) -> &'static [u8]
        ensures { result.now ≡ replicate 64 (fill_byte self) }
    {
        match self {
            Fill::Space => b"                                                                ",
            Fill::Zero => b"0000000000000000000000000000000000000000000000000000000000000000",
        }
    }
}

/// Puts a byte so many times.
pub fn put_repeated(fill: Fill, count: usize, into: &mut Tail<'_>)
    ensures same_slice { lent into.new ≡ lent into.old }
    ensures value { kept into.new ≡ put (kept into.old) (replicate count (fill_byte fill)) }
{
    let block = fill.block();
    let mut left = count;
    while left > 0 {
        let piece = left.min(64);
        into.put(&block[..piece]);
        left -= piece;
    }
}
