// The answer of a run for the end that its lanes come to, for a pass over them that ended early, and for a cut.

ghost use Rattle.std.specs.Prelude.{◌≡◌};
ghost use Rattle.run_endings.specs.Ends as spec;

use crate::status::Status;
use item_pass::PassFault;
use subpage::CutPlace;
use time_merge::{End, IoFault};

/// The answer for this end, or for the fault in its place.
pub fn status_of_end(end: Result<End, IoFault>) -> Status
    ensures { result ≡ spec.status_of_end end }
{
    match end {
        Ok(End::Done) => Status::Done,
        Ok(End::Malformed(cut)) => Status::Malformed(cut),
        Err(IoFault::Read) => Status::ReadFault,
        Err(IoFault::Write) => Status::WriteFault,
    }
}

/// The same, or the answer where there was no memory to begin.
pub fn status_or_memory(end: Option<Result<End, IoFault>>) -> Status
    ensures { result ≡ spec.status_or_memory end }
{
    match end {
        Some(end) => status_of_end(end),
        None => Status::NoMemory,
    }
}

/// The answer for a pass that ended early.
pub fn status_of_pass(fault: PassFault) -> Status
    ensures { result ≡ spec.status_of_pass fault }
{
    match fault {
        PassFault::Read => Status::ReadFault,
        PassFault::Memory => Status::NoMemory,
    }
}

/// The answer of a report whose items end before this sub-buffer of this processor, or before none.
pub fn status_of_cut(cut: Option<CutPlace>) -> Status
    ensures { result ≡ spec.status_of_cut cut }
{
    match cut {
        None => Status::Done,
        Some(cut) => Status::Malformed(cut),
    }
}

/// Whether all that the lanes have up to their cut was used up.
pub fn is_whole(end: Result<End, IoFault>) -> bool
    ensures { result ≡ spec.is_whole end }
{
    end.is_ok()
}
