//! The limits of a run that no script sets.
ghost use Rattle.std.specs.Prelude.{◌≡◌};
ghost use Rattle.at_value.specs.ProgramLimits.{program_limits};

/// How many passes there may be at once.
pub const PASSES: usize = 64;

/// How far the counted words of a run may go.
#[derive(Clone, Copy, Debug, PartialEq, Eq)]
pub struct Limits {
    /// From this place on no write is made, so there are at most this many writes. It is at most 4,294,967,295.
    pub place_max: u64,
    /// An object isn't opened for writing once its sequence has come to this even number, at most 1,099,511,627,774.
    pub head_max: u64,
    /// How many version tags there are, from 1 to 1,023.
    pub tags: u16,
}

impl Limits {
    /// The limits of the program, the widest that there are: 4,294,967,295 writes, heads up to 1,099,511,627,774 and
    /// 1,023 tags.
    pub fn program() -> Limits
        ensures { result ≡ program_limits }
    {
        Limits {
            place_max: 4_294_967_295,
            head_max: 1_099_511_627_774,
            tags: 1_023,
        }
    }
}
