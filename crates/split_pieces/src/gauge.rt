ghost use Rattle.std.specs.Prelude.{◌≡◌, [], List, IfSome, IsTrue, false};
ghost use Rattle.subpage.specs.Arrangement.{Keyed};
ghost use Rattle.split_pieces.specs.Allowing.{after_events, Allows};
ghost use Rattle.split_pieces.specs.Pieces.{is_event, piece, unit_closes};
ghost use Rattle.split_pieces.specs.Gauging.{EndsBefore, TakesItem, closes_by, piece_by};

use word_values::PieceUnit;

/// How much more a piece takes.
#[derive(Clone, Copy, Debug, PartialEq, Eq)]
pub enum Gauge {
    /// Everything.
    All,
    /// From the first item on, so many nanoseconds.
    Nanos(u64),
    /// Items with a key below this one.
    Below(u128),
    /// Items up to and including so many events.
    Events(u64),
}

/// Which events a piece takes.
#[derive(Clone, Copy, Debug, PartialEq, Eq)]
pub struct Allowance {
    /// Up to this key.
    pub until: u64,
    /// So many.
    pub events: u64,
}

impl Gauge {
    /// Before the first item of a piece.
    pub fn new(unit: PieceUnit) -> Gauge
        ensures piece { (xs : List Keyed) → piece_by result xs ≡ piece unit xs }
        ensures closes { (xs : List Keyed) → closes_by result xs ≡ unit_closes unit xs }
    {
        match unit {
            PieceUnit::All => Gauge::All,
            PieceUnit::Nanos(nanos) => Gauge::Nanos(nanos),
            PieceUnit::Events(events) => Gauge::Events(events),
        }
    }

    /// Takes an item of this key into the piece, or answers that the piece ends before it.
    pub fn takes(&mut self, key: u64, event: bool) -> bool
        ensures takes { IsTrue result → (x : Keyed) → x.key ≡ key → is_event x ≡ event → TakesItem self.old self.new x }
        ensures ends { result ≡ false → (x : Keyed) → x.key ≡ key → is_event x ≡ event → EndsBefore self.old x }
        ensures stays { result ≡ false → self.new ≡ self.old }
    {
        match *self {
            Gauge::All => true,
            Gauge::Nanos(nanos) => {
                if nanos == 0 {
                    return false;
                }
                *self = Gauge::Below(u128::from(key) + u128::from(nanos));
                true
            }
            Gauge::Below(limit) => u128::from(key) < limit,
            Gauge::Events(events) => {
                if events == 0 {
                    return false;
                }
                if event {
                    *self = Gauge::Events(events - 1);
                }
                true
            }
        }
    }

    /// Which events the piece takes whatever they are: so many, with a key up to this one. `None`: its first item says.
    pub fn allows(&self) -> Option<Allowance>
        ensures { IfSome result (λ allowance. Allows self.now allowance) }
    {
        match *self {
            Gauge::All => Some(Allowance {
                until: u64::MAX,
                events: u64::MAX,
            }),
            Gauge::Nanos(_) => None,
            Gauge::Below(limit) => {
                if limit == 0 {
                    return None;
                }
                Some(Allowance {
                    until: (limit - 1).min(u128::from(u64::MAX)) as u64,
                    events: u64::MAX,
                })
            }
            Gauge::Events(events) => Some(Allowance {
                until: u64::MAX,
                events,
            }),
        }
    }

    /// Takes so many events into the piece, which it allows.
    pub fn takes_events(&mut self, count: u64)
        ensures { self.new ≡ after_events self.old count }
    {
        if let Gauge::Events(events) = *self {
            *self = Gauge::Events(events.saturating_sub(count));
        }
    }

    /// Whether the piece closes its list though nothing follows: all of its events were taken.
    pub fn is_full(&self) -> bool
        ensures { result ≡ closes_by self.now [] }
    {
        matches!(*self, Gauge::Events(0))
    }
}
