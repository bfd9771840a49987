//! Why a piece of a text isn't read.
ghost use Rattle.std.specs.Prelude.{◌≡◌, Ok, Err};
ghost use Rattle.at_back.specs.Left.{there_of};

use std::alloc::AllocError;
use thiserror::Error;

/// Why a piece of a text isn't read.
#[derive(Clone, Copy, Debug, PartialEq, Eq, Error)]
pub enum PieceFault {
    /// No such piece stands at the front.
    #[error("not so in a transcript")]
    Wrong,
    /// There was no memory.
    #[error("out of memory")]
    NoMemory,
}

impl From<AllocError> for PieceFault {
    ghost use Rattle.std.specs.Prelude.{◌≡◌};
    ghost use Rattle.at_back.specs.declared.fault.PieceFault.TheVariants as faults;

    ghost from_gives = { λ _ fault. fault ≡ faults.NoMemory };

    fn from(_: AllocError) -> PieceFault {
        PieceFault::NoMemory
    }
}

/// What was read, where it is there.
pub fn there<A: Drop>(piece: Option<A>) -> Result<A, PieceFault>
    ensures { result ≡ there_of piece }
{
    match piece {
        Some(piece) => Ok(piece),
        None => Err(PieceFault::Wrong),
    }
}
