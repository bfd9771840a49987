//! What a thread demands next, and what the reply to it is used for.
use at_line::{LineOp, Local};
use at_value::{Func, Obj, Value};

/// What becomes of the reply to an operation.
#[derive(Clone, Copy, Debug, PartialEq, Eq)]
pub enum ReplyUse {
    /// Nothing: `it` is none.
    Ignore,
    /// A value that was read is `it`, and a hook is called for its result.
    Read,
    /// A value that was read is `it`.
    Learn,
    /// A hook is called, and then `it` is none.
    Write,
    /// What was read is called with this argument.
    Call(Value),
    /// The variable is bound to the object that was made, and `__init__` is called with this argument.
    Bind(u16, Value),
    /// A section of the block or function is open.
    Open,
    /// The section has ended.
    Close,
}

/// What `it` is when a call has ended.
#[derive(Clone, Copy, Debug, PartialEq, Eq)]
pub enum OnReturn {
    /// The result.
    Result,
    /// None.
    Nothing,
    /// The object that was made before the call.
    Object(Obj),
}

/// An operation, and what its reply is used for.
#[derive(Clone, Copy, Debug, PartialEq, Eq)]
pub struct Request {
    pub op: LineOp,
    pub reply_use: ReplyUse,
}

/// What a statement does, once its operands are evaluated.
#[derive(Clone, Copy, Debug, PartialEq, Eq)]
pub enum Action {
    /// The variable is bound to the value.
    Bind(u16, Value),
    /// The block or function ends with the value, or with none after the line that says that there is none.
    Return(Result<Value, Local>),
    /// The section of the block or function ends.
    Finish,
    /// No read of the thread is under way.
    Checkpoint,
    /// An operation is asked for.
    Ask(Request),
}

/// A call that is to begin: the function, where the callee can be called, and what it is called with.
#[derive(Clone, Copy, Debug, PartialEq, Eq)]
pub struct Call {
    pub self_arg: Value,
    pub other: Value,
    pub arg: Value,
    pub on_return: OnReturn,
    pub callee: Option<Func>,
}

/// What a thread demands next.
#[derive(Clone, Copy, Debug, PartialEq, Eq)]
pub enum Next {
    /// The thread has ended.
    Ended,
    /// Nothing: it goes on.
    Silent,
    /// A checkpoint: no read of the thread is under way. It writes no line.
    Checkpoint,
    /// A line that is no operation.
    Says(Local),
    /// An operation, whose reply the thread takes with this use.
    Asks(LineOp, ReplyUse),
}
