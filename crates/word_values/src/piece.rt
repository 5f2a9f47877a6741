ghost use Rattle.std.specs.Prelude.{◌≡◌};
ghost use Rattle.word_values.specs.Pieces.{piece};

/// How a recording is cut into pieces (trace-cmd-split(1)).
#[derive(Clone, Copy, Debug, PartialEq, Eq)]
pub enum PieceUnit {
    /// One piece.
    All,
    /// Pieces of so many nanoseconds.
    Nanos(u64),
    /// Pieces of so many events.
    Events(u64),
}

/// What the number of an option counts.
#[derive(Clone, Copy, PartialEq, Eq)]
pub enum PieceOption {
    /// `-s`: seconds.
    Seconds,
    /// `-m`: milliseconds.
    Millis,
    /// `-u`: microseconds.
    Micros,
    /// `-e`: events.
    Events,
}

impl PieceOption {
    /// All of them.
    pub const ALL: [PieceOption; 4] = [
        PieceOption::Seconds,
        PieceOption::Millis,
        PieceOption::Micros,
        PieceOption::Events,
    ];

    /// Pieces of so many of them.
    pub fn piece(self, count: u32) -> PieceUnit
        ensures { result ≡ piece self count }
    {
        let count = u64::from(count);
        match self {
            PieceOption::Seconds => PieceUnit::Nanos(count * 1_000_000_000),
            PieceOption::Millis => PieceUnit::Nanos(count * 1_000_000),
            PieceOption::Micros => PieceUnit::Nanos(count * 1_000),
            PieceOption::Events => PieceUnit::Events(count),
        }
    }
}
