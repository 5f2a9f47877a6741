//! Why there is no filter.

ghost use Rattle.std.specs.Prelude.{◌≡◌};
ghost use Rattle.filter_lang.specs.declared.fault.FilterFault.TheVariants.{Memory};

use std::alloc::AllocError;
use thiserror::Error;

/// Why a text was not read as a filter.
#[derive(Clone, Copy, Debug, PartialEq, Eq, Error)]
pub enum FilterFault {
    /// The text is no filter. The place, in bytes from its first, is that of the first token with which no filter goes
    /// on, or of the first byte at which no token begins, or the text's length where more is wanted.
    #[error("bad filter at byte {0}")]
    At(u64),
    /// Memory ran out.
    #[error("out of memory")]
    Memory,
}

impl From<AllocError> for FilterFault {
    ghost from_gives = { λ _ e. e ≡ Memory };

    fn from(_e: AllocError) -> FilterFault {
        FilterFault::Memory
    }
}
