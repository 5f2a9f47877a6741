ghost use Rattle.std.specs.Prelude.{◌≡◌, [], None, nat_lt, string_bytes};

use crate::outside::{Failed, Sink};
use std::io::Write;

/// A writer of std as a sink without a name, as standard output or standard error.
#[derive(Drop)]
pub struct RealSink<W: Write + Drop> {
    to: W,
    faults: u64,
}

impl<W: Write + Drop> RealSink<W> {
    /// A sink over this writer, with no faults yet.
    pub fn new(to: W) -> RealSink<W>
        ensures { ⟦<RealSink<W> as Sink>⟧.faults result ≡ 0 }
    {
        RealSink { to, faults: 0 }
    }
}

impl<W: Write + Drop> Sink for RealSink<W> {
    ghost name = { λ s. [] };

    ghost written = { λ s. None };

    ghost faults = { λ s. s.faults };

    fn write(&mut self, piece: &[u8]) -> Result<usize, Failed> {
        if piece.is_empty() {
            return Ok(0);
        }
        match self.to.write(piece) {
            Ok(count) if count > 0 => Ok(count),
            _ => {
                self.faults = self.faults.saturating_add(1);
                Err(Failed)
            }
        }
    }
}

/// A file of the system that is written beside its name, as `NAME.part`, until it is finished.
#[derive(Drop)]
pub struct RealOut<T: Write + Drop> {
    pub(super) label: String,
    to: RealSink<T>,
}

impl<T: Write + Drop> RealOut<T> {
    pub(super) fn new(label: String, file: T) -> RealOut<T>
        ensures named { ⟦<RealOut<T> as Sink>⟧.name result ≡ string_bytes label }
        ensures no_faults { ⟦<RealOut<T> as Sink>⟧.faults result ≡ 0 }
    {
        RealOut {
            label,
            to: RealSink::new(file),
        }
    }

    pub(super) fn has_faults(&self) -> bool
        ensures { result ≡ nat_lt 0 (⟦<RealOut<T> as Sink>⟧.faults self.now) }
    {
        self.to.faults > 0
    }
}

impl<T: Write + Drop> Sink for RealOut<T> {
    ghost name = { λ s. string_bytes s.label };

    ghost written = { λ s. None };

    ghost faults = { λ s. s.to.faults };

    fn write(&mut self, piece: &[u8]) -> Result<usize, Failed> {
        self.to.write(piece)
    }
}
