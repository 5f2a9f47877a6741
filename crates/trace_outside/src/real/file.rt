ghost use Rattle.std.specs.Prelude.{◌≡◌, ◌<◌, ◌^◌, None};
ghost use Rattle.std.specs.Fs.{metadata_len};

use crate::outside::{Failed, File};
use std::fs::Metadata;
use std::io::{Read, Seek, SeekFrom};

/// An open file of the system. Its length is that at opening: a read that gives no byte below it is a fault.
#[derive(Drop)]
pub struct RealFile<T: Read + Seek + Drop> {
    file: T,
    size: u64,
    pub(super) faults: u64,
    pub(super) reads: u64,
    ghost size_fits: { size < 2 ^ 64 },
}

impl<T: Read + Seek + Drop> RealFile<T> {
    pub(super) fn new(file: T, about: &Metadata) -> RealFile<T>
        ensures size { ⟦<RealFile<T> as File>⟧.size result ≡ metadata_len about.now }
        ensures no_faults { ⟦<RealFile<T> as File>⟧.faults result ≡ 0 }
        ensures no_reads { ⟦<RealFile<T> as File>⟧.reads result ≡ 0 }
    {
        RealFile {
            file,
            size: about.len(),
            faults: 0,
            reads: 0,
        }
    }
}

impl<T: Read + Seek + Drop> File for RealFile<T> {
    ghost bytes = { λ f. None };

    ghost size = { λ f. f.size };

    ghost faults = { λ f. f.faults };

    ghost reads = { λ f. f.reads };

    ghost size_is = { λ f. tt };

    ghost size_fits = { λ f. f.size_fits };

    fn len(&self) -> u64 {
        self.size
    }

    fn read_at(&mut self, at: u64, into: &mut [u8]) -> Result<usize, Failed> {
        if self.file.seek(SeekFrom::Start(at)).is_ok() {
            match self.file.read(into) {
                Ok(count) if count > 0 => {
                    self.reads = self.reads.saturating_add(count as u64);
                    return Ok(count);
                }
                _ => {}
            }
        }
        self.faults = self.faults.saturating_add(1);
        Err(Failed)
    }
}
