//! Why a merge is not given.
ghost use Rattle.std.specs.Prelude.{◌≡◌};

use std::alloc::{AllocError, AllocFailed};
use std::error::Error;
use std::fmt;

/// Why a merge is not given.
#[derive(Clone, Copy, Debug, PartialEq, Eq)]
pub enum MergeFault {
    /// The lists have no merge: each head that is left stands in some tail.
    NoHead,
    /// Memory ran out.
    NoMemory,
}

impl fmt::Display for MergeFault {
    fn fmt<W: fmt::Write>(&self, f: &mut fmt::Formatter<W>) -> fmt::Result {
        match self {
            Self::NoHead => write!(f, "the lists have no merge"),
            Self::NoMemory => write!(f, "out of memory"),
        }
    }
}

impl Error for MergeFault {}

impl From<AllocError> for MergeFault {
    ghost use Rattle.at_c3.specs.declared.fault.MergeFault.TheVariants.{NoMemory};

    ghost from_gives = { λ _ fault. fault ≡ NoMemory };

    fn from(_: AllocError) -> Self {
        MergeFault::NoMemory
    }
}

impl<T: Drop> From<AllocFailed<T>> for MergeFault {
    ghost use Rattle.at_c3.specs.declared.fault.MergeFault.TheVariants.{NoMemory};

    ghost from_gives = { λ _ fault. fault ≡ NoMemory };

    fn from(_: AllocFailed<T>) -> Self {
        MergeFault::NoMemory
    }
}
