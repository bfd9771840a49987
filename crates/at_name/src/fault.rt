//! Why a text gets no number.
ghost use Rattle.std.specs.Prelude.{◌≡◌};

use std::alloc::AllocError;
use std::error::Error;
use std::fmt;

/// Why a text gets no number.
#[derive(Clone, Copy, Debug, PartialEq, Eq)]
pub enum NameFault {
    /// The text is new, and there are as many texts as there may be.
    TooMany,
    /// Memory ran out.
    NoMemory,
}

impl fmt::Display for NameFault {
    fn fmt<W: fmt::Write>(&self, f: &mut fmt::Formatter<W>) -> fmt::Result {
        match self {
            Self::TooMany => write!(f, "too many names"),
            Self::NoMemory => write!(f, "out of memory"),
        }
    }
}

impl Error for NameFault {}

impl From<AllocError> for NameFault {
    ghost use Rattle.at_name.specs.declared.fault.NameFault.TheVariants.{NoMemory};

    ghost from_gives = { λ _ fault. fault ≡ NoMemory };

    fn from(_: AllocError) -> Self {
        NameFault::NoMemory
    }
}
