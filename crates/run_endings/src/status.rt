ghost use Rattle.std.specs.Prelude.{◌≡◌};
ghost use Rattle.run_endings.specs.StatusNumber.{status_number};

use dat_header::OpenFault;
use subpage::CutPlace;

/// How a run ended.
#[derive(Clone, Copy, Debug, PartialEq, Eq)]
pub enum Status {
    /// All was done.
    Done,
    /// The words, or a filter of theirs, have no reading.
    Usage,
    /// The input is no trace that can be read. The fault is never `Read` and never `Memory`.
    Refused(OpenFault),
    /// The output ends before this malformed sub-buffer.
    Malformed(CutPlace),
    /// A file could not be opened or read.
    ReadFault,
    /// The output could not be written.
    WriteFault,
    /// There was no memory. Nothing was written.
    NoMemory,
}

impl Status {
    /// The number with which the program ends.
    pub fn number(self) -> u8
        ensures { result ≡ status_number self }
    {
        match self {
            Status::Done => 0,
            Status::Usage => 1,
            Status::Refused(_) => 2,
            Status::Malformed(_) => 3,
            Status::ReadFault => 4,
            Status::WriteFault => 5,
            Status::NoMemory => 6,
        }
    }
}
