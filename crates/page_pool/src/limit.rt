ghost use Rattle.std.specs.Prelude.{◌≡◌};
ghost use Rattle.page_pool.specs.Limits.{limit_for, most_of};

/// Up to so many lanes a region of each keeps many lines.
const FEW_LANES: u32 = 64;

/// How many lines a region keeps before it is empty again.
///
/// With many the lines of many processors would not stay in the machine's caches until they are printed. With few a sub-buffer takes
/// more rounds, so that a report of few processors is written in smaller pieces.
#[derive(Clone, Copy, Debug, PartialEq, Eq)]
pub enum LineLimit {
    /// 64.
    Few,
    /// 146, as many as a sub-buffer of 4 KiB has of the shortest events, those of the function tracer.
    Many,
}

impl LineLimit {
    /// The limit of each of so many lanes.
    pub(crate) fn for_lanes(lanes: u32) -> LineLimit
        ensures { result ≡ limit_for lanes }
    {
        if lanes <= FEW_LANES {
            LineLimit::Many
        } else {
            LineLimit::Few
        }
    }

    /// So many lines.
    pub(crate) fn lines(self) -> usize
        ensures { result ≡ most_of self }
    {
        match self {
            LineLimit::Few => 64,
            LineLimit::Many => 146,
        }
    }
}
