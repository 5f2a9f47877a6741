ghost use Rattle.std.specs.Prelude.{◌≡◌};
ghost use Rattle.tournament_tree.specs.Least.{from_time};

/// What a slot has: the time of what comes next there, if anything comes.
#[derive(Clone, Copy, Debug, PartialEq, Eq)]
pub enum SlotKey {
    /// Nothing comes.
    Empty,
    /// It comes before all times.
    Start,
    /// It comes at this time.
    At(u64),
}

impl SlotKey {
    /// The key of what comes at a time, or before all times where it has none.
    #[inline]
    pub fn from_time(time: Option<u64>) -> SlotKey
        ensures { result ≡ from_time time }
    {
        match time {
            None => SlotKey::Start,
            Some(time) => SlotKey::At(time),
        }
    }
}
