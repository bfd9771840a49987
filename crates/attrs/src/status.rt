//! How a call of the program ends.
ghost use Rattle.std.specs.Prelude.{◌≡◌};
ghost use Rattle.attrs.specs.Status.{code_of};

use at_script::Cause;

/// How a call ends: with its text written whole and flushed, or with one of these answers.
#[derive(Clone, Copy, Debug, PartialEq, Eq)]
pub enum Status {
    /// The text was written whole, and is flushed.
    Good,
    /// The bytes are no script: the line, and what is wrong with it.
    Refused(u32, Cause),
    /// The source gave more bytes than a script may have.
    TooLong,
    /// The words are no command.
    Usage,
    /// Memory ran out; nothing was written.
    NoMemory,
    /// The source failed; nothing was written.
    ReadFault,
    /// The sink failed; a prefix of the text was written.
    WriteFault,
}

impl Status {
    /// The exit status of the process: 0 for `Good`, 1 for what isn't a script, 2 for words that are no command, 3 for
    /// out of memory, 4 for a fault of the source and 5 for one of the sink.
    pub fn code(&self) -> u8
        ensures { result ≡ code_of self.now }
    {
        match self {
            Status::Good => 0,
            Status::Refused(_, _) | Status::TooLong => 1,
            Status::Usage => 2,
            Status::NoMemory => 3,
            Status::ReadFault => 4,
            Status::WriteFault => 5,
        }
    }
}
