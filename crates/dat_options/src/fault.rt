ghost use Rattle.std.specs.Prelude.{◌≡◌};
ghost use Rattle.dat_options.specs.Answer.{fault_of_piece};
ghost use Rattle.dat_options.specs.declared.fault.OpenFault.TheVariants.{Read};

use thiserror::Error;
use trace_outside::{Failed, PieceFault};

/// Why a file was not opened as a trace.
///
/// All but the last two say what is wrong with the file's bytes, and where: the place of the first byte of the wrong item, or
/// for `Truncated` the length of the file.
#[derive(Clone, Copy, Debug, PartialEq, Eq, Error)]
pub enum OpenFault {
    /// The file does not begin with a trace's magic bytes.
    #[error("not a trace file at byte {0}")]
    NotTrace(u64),
    /// The file is of version 7, which may be compressed.
    #[error("version 7 is not read at byte {0}")]
    Compressed(u64),
    /// The file is of a version other than 6 and 7.
    #[error("unknown version at byte {0}")]
    OtherVersion(u64),
    /// The byte order is neither 0 nor 1.
    #[error("bad byte order at byte {0}")]
    BadEndian(u64),
    /// The size of the user's long is neither 4 nor 8.
    #[error("bad long size at byte {0}")]
    BadLong(u64),
    /// The page size is no power of two from 4,096 to 65,536.
    #[error("bad page size at byte {0}")]
    BadPageSize(u64),
    /// The header_page text gives no layout.
    #[error("bad header_page at byte {0}")]
    BadHeaderPage(u64),
    /// A section does not begin with a word that may stand there.
    #[error("bad section at byte {0}")]
    BadSection(u64),
    /// The file ends inside its header.
    #[error("file ends early at byte {0}")]
    Truncated(u64),
    /// There are more than 1,024 processors.
    #[error("too many processors at byte {0}")]
    TooManyCpus(u64),
    /// A read failed.
    #[error("read failed")]
    Read,
    /// There was no memory.
    #[error("out of memory")]
    Memory,
}

impl From<Failed> for OpenFault {
    ghost from_gives = { λ failed opened. opened ≡ Read };

    fn from(_failed: Failed) -> OpenFault {
        OpenFault::Read
    }
}

impl From<PieceFault> for OpenFault {
    ghost from_gives = { λ fault opened. opened ≡ fault_of_piece fault };

    fn from(fault: PieceFault) -> OpenFault {
        match fault {
            PieceFault::EndsEarly(len) => OpenFault::Truncated(len),
            PieceFault::Read => OpenFault::Read,
            PieceFault::Memory => OpenFault::Memory,
        }
    }
}
