// A file that counts its calls, and fails where that is asked.

ghost use Rattle.std.specs.Prelude.{◌≡◌, ◌<◌, ◌^◌, None, length};

use trace_outside::{Failed, File};

/// What becomes of a call after the good ones.
#[derive(Clone, Copy, PartialEq, Eq)]
pub(super) enum Then {
    Fails,
    /// Zeros are read.
    Zeros,
}

/// A file of these bytes. So many of its reads are good.
#[derive(Drop)]
pub(super) struct WatchedFile {
    bytes: Vec<u8>,
    size: u64,
    pub(super) good: u64,
    then: Then,
    faults: u64,
    pub(super) reads: u64,
    ghost size_is: { length bytes.items ≡ size },
    ghost size_fits: { size < 2 ^ 64 },
}

impl WatchedFile {
    pub(super) fn new(bytes: Vec<u8>, good: u64, then: Then) -> WatchedFile {
        let size = bytes.len() as u64;
        WatchedFile {
            bytes,
            size,
            good,
            then,
            faults: 0,
            reads: 0,
        }
    }

    /// All reads of these bytes are good.
    pub(super) fn good(bytes: Vec<u8>) -> WatchedFile {
        WatchedFile::new(bytes, u64::MAX, Then::Fails)
    }
}

impl File for WatchedFile {
    ghost bytes = { λ f. None };

    ghost size = { λ f. f.size };

    ghost faults = { λ f. f.faults };

    ghost reads = { λ f. f.reads };

    ghost size_is = { λ f. tt };

    ghost size_fits = { λ f. f.size_fits };

    fn len(&self) -> u64 {
        self.size
    }

    fn read_at(&mut self, at: u64, into: &mut [u8]) -> Result<usize, Failed> {
        if self.good == 0 && self.then == Then::Fails {
            self.faults = self.faults.saturating_add(1);
            return Err(Failed);
        }
        let rest = &self.bytes[at as usize..];
        let count = rest.len().min(into.len());
        if self.good == 0 {
            into[..count].fill(0);
        } else {
            into[..count].copy_from_slice(&rest[..count]);
        }
        self.good = self.good.saturating_sub(1);
        self.reads = self.reads.saturating_add(count as u64);
        Ok(count)
    }
}
