ghost use Rattle.std.specs.Prelude.{◌≡◌};
ghost use Rattle.split_tool.specs.Unmaking.{IsMadeBy, ending_of};

use subpage::CutPlace;
use time_merge::{End, IoFault};

/// Why a new file is not made.
#[derive(Clone, Copy, Debug, PartialEq, Eq)]
pub(crate) enum Unmade {
    /// The input gave other bytes than while the file was measured: this sub-buffer is malformed now.
    Malformed(CutPlace),
    /// A read or a write failed.
    Fault(IoFault),
}

impl From<IoFault> for Unmade {
    ghost use Rattle.split_tool.specs.declared.unmade.Unmade.TheVariants.{Fault};

    ghost from_gives = { λ fault unmade. unmade ≡ Fault fault };

    fn from(fault: IoFault) -> Unmade {
        Unmade::Fault(fault)
    }
}

impl Unmade {
    /// How the split ends then.
    pub(crate) fn ending(self) -> Result<End, IoFault>
        ensures { result ≡ ending_of self }
    {
        match self {
            Unmade::Malformed(cut) => Ok(End::Malformed(cut)),
            Unmade::Fault(fault) => Err(fault),
        }
    }
}

/// Whether a file is made whose items were packed up to this end.
pub(crate) fn made_by(packed: Result<End, IoFault>) -> Result<(), Unmade>
    ensures { IsMadeBy packed result }
{
    match packed? {
        End::Done => Ok(()),
        End::Malformed(cut) => Err(Unmade::Malformed(cut)),
    }
}
