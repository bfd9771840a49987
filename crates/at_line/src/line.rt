//! The lines of a run: what a thread did, one after another.
use at_model::Final;
use at_value::{Obj, Op, Path, Place, Reply, Sequence};

/// What a line's operation is: one of the data model, or the begin or the end of a section.
#[derive(Clone, Copy, Debug, PartialEq, Eq)]
pub enum LineOp {
    Of(Op),
    /// A section begins, over one object or two.
    Begin(Obj, Option<Obj>),
    /// The section ends.
    Finish,
}

/// What a line's operation replied.
#[derive(Drop, Debug)]
pub enum LineReply {
    Of(Reply),
    /// The section was kept from its begin to its end.
    Kept,
    /// The section was given back n times.
    Suspended(u32),
}

/// What a line says that isn't an operation.
#[derive(Clone, Copy, Debug, PartialEq, Eq)]
pub enum Local {
    /// Sixteen calls are active, so a further one isn't made.
    Depth,
    /// As many statements were begun as the script allows, so the thread ends.
    Budget,
    /// An object was wanted.
    Kind,
    /// The variable with this number has no value.
    Unbound(u16),
    /// A value that isn't a function was called.
    NotCallable,
    /// An object's head can't be written any more: its sequence.
    Worn(u64),
    /// The history has no room after this place.
    Full(u64),
}

/// What a thread did at a place, by which path and with which reply, or what it says.
#[derive(Drop, Debug)]
pub enum What {
    Did(Place, Path, LineOp, LineReply),
    Local(Local),
}

/// The thread of the lines of `main`.
pub const MAIN_THREAD: u8 = 0;

/// The thread of the lines of `finally`: the threads of a script are numbered from 1, and are at most 32.
pub const FINALLY_THREAD: u8 = 33;

/// A line of a run. Thread 0 is `main`, 1 to 32 are the threads, and 33 is `finally`; the lines of each are numbered
/// from 1.
#[derive(Drop, Debug)]
pub struct Line {
    pub what: What,
    pub number: u32,
    pub thread: u8,
}

/// The lines of a run: those of `main`, of each thread and of `finally`.
pub type Lines = Sequence<Line>;

/// A whole run: its lines, and the namespaces after them.
#[derive(Drop, Debug)]
pub struct Ran {
    pub lines: Lines,
    pub last: Final,
}
