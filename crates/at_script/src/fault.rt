//! Why a script isn't read.
ghost use Rattle.std.specs.Prelude.{◌≡◌};
ghost use Rattle.at_script.specs.declared.fault.ReadFault.TheVariants.{NoMemory};
ghost use Rattle.at_script.specs.Reading.{fault_of, both_of, read_fault};

use std::alloc::AllocError;
use std::error::Error;
use std::fmt;

/// What is wrong with a line of a script.
#[derive(Clone, Copy, Debug, PartialEq, Eq)]
pub enum Cause {
    /// A byte that no script has.
    Byte,
    /// Line 1 isn't `attrs 1`.
    Header,
    /// The first word begins no line of a script.
    Word,
    /// The first word may not stand there.
    Place,
    /// A wrong number of words, or an operand that isn't of its form.
    Form,
    /// A number that is out of its range.
    Number,
    /// An identifier that may not be used, or not so.
    Name,
    /// A class that no line declares.
    Class,
    /// A function that no line declares.
    Func,
    /// More than a script may have.
    Limit,
    /// The input ends too early.
    End,
}

impl fmt::Display for Cause {
    fn fmt<W: fmt::Write>(&self, f: &mut fmt::Formatter<W>) -> fmt::Result {
        f.write_str(match self {
            Cause::Byte => "a byte that no script has",
            Cause::Header => "the first line isn't `attrs 1`",
            Cause::Word => "the first word begins no line of a script",
            Cause::Place => "the first word may not stand there",
            Cause::Form => "a wrong number of words, or an operand that isn't of its form",
            Cause::Number => "a number that is out of its range",
            Cause::Name => "an identifier that may not be used, or not so",
            Cause::Class => "a class that no line declares",
            Cause::Func => "a function that no line declares",
            Cause::Limit => "more than a script may have",
            Cause::End => "the input ends too early",
        })
    }
}

impl Error for Cause {}

/// Why a script isn't read.
#[derive(Clone, Copy, Debug, PartialEq, Eq)]
pub enum ReadFault {
    /// The input is no script: the first line with which something is wrong, from 1, and what that is first. Where the
    /// input ends too early, the line is the one that is missing.
    Refused { line: u32, cause: Cause },
    /// Memory ran out.
    NoMemory,
}

impl From<AllocError> for ReadFault {
    ghost from_gives = { λ _ fault. fault ≡ NoMemory };

    fn from(_: AllocError) -> ReadFault {
        ReadFault::NoMemory
    }
}

impl fmt::Display for ReadFault {
    fn fmt<W: fmt::Write>(&self, f: &mut fmt::Formatter<W>) -> fmt::Result {
        match self {
            ReadFault::Refused { line, cause } => write!(f, "line {line}: {cause}"),
            ReadFault::NoMemory => write!(f, "out of memory"),
        }
    }
}

impl Error for ReadFault {}

/// Why a line isn't read.
#[derive(Clone, Copy, PartialEq, Eq)]
pub enum LineFault {
    /// What is wrong with the line.
    Wrong(Cause),
    /// Memory ran out.
    NoMemory,
}

impl From<AllocError> for LineFault {
    ghost use Rattle.at_script.specs.declared.fault.LineFault.TheVariants as line_faults;

    ghost from_gives = { λ _ fault. fault ≡ line_faults.NoMemory };

    fn from(_: AllocError) -> LineFault {
        LineFault::NoMemory
    }
}

impl LineFault {
    /// The fault with the number of the line.
    pub fn at(self, line: u32) -> ReadFault
        ensures { result ≡ read_fault line self }
    {
        match self {
            LineFault::Wrong(cause) => ReadFault::Refused { line, cause },
            LineFault::NoMemory => ReadFault::NoMemory,
        }
    }

    /// Of two faults of a line, that which is said: out of memory, or the cause that comes first.
    fn or(self, other: LineFault) -> LineFault
        ensures { result ≡ fault_of self other }
    {
        let LineFault::Wrong(first) = self else {
            return LineFault::NoMemory;
        };
        let LineFault::Wrong(second) = other else {
            return LineFault::NoMemory;
        };
        if first as u8 <= second as u8 {
            self
        } else {
            other
        }
    }
}

/// Two parts of a line, where neither is wrong.
pub fn both<A: Drop, B: Drop>(
    first: Result<A, LineFault>,
    second: Result<B, LineFault>,
) -> Result<(A, B), LineFault>
    ensures { result ≡ both_of first second }
{
    match first {
        Ok(first) => match second {
            Ok(second) => Ok((first, second)),
            Err(fault) => Err(fault),
        },
        Err(fault) => match second {
            Ok(_) => Err(fault),
            Err(other) => Err(fault.or(other)),
        },
    }
}
