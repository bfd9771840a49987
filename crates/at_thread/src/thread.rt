//! A thread that executes a block. It asks no world: it says what it demands, and takes the reply.
ghost use Rattle.std.specs.Prelude.{◌≡◌, ◌<◌, ◌≤◌, [], true, length, IfOk, slice_index_or};
ghost use Rattle.at_thread.specs.Execution as execution;
ghost use Rattle.at_thread.specs.Execution.{next_of, start};
ghost use Rattle.at_thread.specs.Threads.{frame_of, state_of, left, entered, next_of_frame, next_of_statement};
ghost use Rattle.at_thread.specs.Threads.{next_of_action, IsNext};

use crate::next::{Action, Call, Next, OnReturn, ReplyUse};
use crate::stack::Stack;
use at_line::{LineOp, Local};
use at_script::{Block, Script, Stmt};
use at_value::{Func, Value};
use std::alloc::{AllocError, Global};

/// How many calls of a thread may be active.
const MOST_CALLS: usize = 16;

/// A block or an active call.
#[derive(Clone, Copy)]
pub(crate) struct Frame<'a> {
    pub(crate) self_arg: Value,
    pub(crate) other: Value,
    pub(crate) arg: Value,
    pub(crate) rest: &'a [Stmt],
    pub(crate) opened: bool,
    pub(crate) on_return: OnReturn,
}

impl<'a> Frame<'a> {
    /// The frame of a block of these statements.
    fn of_block(block: &'a [Stmt]) -> Frame<'a>
        ensures { frame_of result ≡ execution.block_frame block.now }
    {
        Frame {
            self_arg: Value::Nothing,
            other: Value::Nothing,
            arg: Value::Nothing,
            rest: block,
            opened: false,
            on_return: OnReturn::Nothing,
        }
    }

    fn copy(&self) -> Frame<'a>
        ensures { result ≡ self.now }
    {
        Frame { ..*self }
    }
}

/// A thread that executes a block of a script.
#[derive(Drop)]
pub struct Thread<'a> {
    /// Whether the block hasn't ended: otherwise no frame counts.
    pub(crate) running: bool,
    /// The innermost frame, which is changed in place, and those below it.
    pub(crate) frame: Frame<'a>,
    pub(crate) below: Stack<Frame<'a>, MOST_CALLS>,
    pub(crate) call: Option<Call>,
    pub(crate) variables: Vec<Option<Value>>,
    pub(crate) it: Value,
    pub(crate) begun: u32,
}

/// The statements of a function, and none where the script has no such function.
fn body_of<'a>(script: &'a Script, function: Func) -> &'a [Stmt]
    ensures { result.now ≡ slice_index_or script.now.bodies function [] }
{
    match script.block(Block::Func(function)) {
        Some(body) => body,
        None => &[],
    }
}

impl<'a> Thread<'a> {
    /// A thread that begins a block of these statements with these variables, of which each that is none isn't bound.
    pub fn new(
        alloc: Global,
        block: &'a [Stmt],
        variables: Vec<Option<Value>>,
    ) -> Result<Thread<'a>, AllocError>
        ensures { IfOk result (λ thread. state_of thread ≡ start block.now variables.items) }
    {
        Ok(Thread {
            running: true,
            frame: Frame::of_block(block),
            below: Stack::new(alloc)?,
            call: None,
            variables,
            it: Value::Nothing,
            begun: 0,
        })
    }

    /// Begins another block, of these statements and with these variables, in place of what it executes. It takes no
    /// memory.
    pub fn restart(&mut self, block: &'a [Stmt], variables: &[Option<Value>])
        requires { length variables.now ≡ length (state_of self.old).variables }
        ensures { state_of self.new ≡ start block.now variables.now }
    {
        self.running = true;
        self.frame = Frame::of_block(block);
        self.below.clear();
        self.call = None;
        self.variables.copy_from_slice(variables);
        self.it = Value::Nothing;
        self.begun = 0;
    }

    /// The values of the variables, by number.
    pub fn variables(&self) -> &[Option<Value>]
        ensures { result.now ≡ (state_of self.now).variables }
    {
        &self.variables
    }

    fn end(&mut self, on_return: &OnReturn, value: Value)
        ensures { state_of self.new ≡ execution.returned on_return.now value (state_of self.old) }
    {
        self.it = match on_return {
            OnReturn::Result => value,
            OnReturn::Nothing => Value::Nothing,
            OnReturn::Object(object) => Value::Obj(*object),
        };
    }

    pub(crate) fn bind(&mut self, variable: u16, value: Value)
        ensures { state_of self.new ≡ execution.binding variable value (state_of self.old) }
    {
        let i = usize::from(variable);
        if i < self.variables.len() {
            self.variables[i] = Some(value);
        }
    }

    /// Leaves the innermost frame, whose block or call has ended with this value.
    fn leave(&mut self, value: Value)
        requires { self.old.running ≡ true }
        ensures { state_of self.new ≡ execution.returned self.old.frame.on_return value (left self.old) }
    {
        let on_return = self.frame.on_return;
        match self.below.pop() {
            Some(frame) => self.frame = frame,
            None => self.running = false,
        }
        self.end(&on_return, value);
    }

    fn next_return(&mut self, value: &Result<Value, Local>) -> Next
        requires { self.old.running ≡ true }
        ensures { IsNext (execution.return_next self.old.frame.on_return (left self.old) value.now) result self.new }
    {
        match value {
            Ok(value) => {
                self.leave(*value);
                Next::Silent
            }
            Err(local) => {
                self.leave(Value::Nothing);
                Next::Says(*local)
            }
        }
    }

    /// Says of the innermost frame that its section is open, or that none is.
    pub(crate) fn set_opened(&mut self, opened: bool)
        ensures { state_of self.new ≡ record (state_of self.old) {
          frames = execution.with_opened opened (state_of self.old).frames;
        } }
    {
        self.frame.opened = opened;
    }

    fn next_finish(&mut self) -> Next
        ensures { IsNext (execution.finish_next (state_of self.old) self.old.frame.opened) result self.new }
    {
        if self.frame.opened {
            self.set_opened(false);
            Next::Asks(LineOp::Finish, ReplyUse::Close)
        } else {
            self.it = Value::Nothing;
            Next::Silent
        }
    }

    /// Goes on after a statement that does this, and that the innermost frame has left.
    fn next_of_action(&mut self, action: &Result<Action, Local>) -> Next
        requires { self.old.running ≡ true }
        ensures { IsNext (next_of_action self.old action.now) result self.new }
    {
        match action {
            Ok(Action::Bind(variable, value)) => {
                self.bind(*variable, *value);
                Next::Silent
            }
            Ok(Action::Return(value)) => self.next_return(value),
            Ok(Action::Finish) => self.next_finish(),
            Ok(Action::Checkpoint) => Next::Checkpoint,
            Ok(Action::Ask(request)) => Next::Asks(request.op, request.reply_use),
            Err(local) => {
                self.it = Value::Nothing;
                Next::Says(*local)
            }
        }
    }

    /// Begins a statement that the innermost frame has left.
    fn next_of_statement(&mut self, script: &Script, stmt: &Stmt) -> Next
        requires { self.old.running ≡ true }
        ensures { IsNext (next_of_statement script.now self.old stmt.now) result self.new }
    {
        let action = self.action_of(script, &self.frame, stmt);
        self.next_of_action(&action)
    }

    /// Begins the first statement that is left in the innermost frame, or ends the frame.
    fn next_of_frame(&mut self, script: &Script) -> Next
        requires { self.old.running ≡ true }
        ensures { IsNext (next_of_frame script.now self.old) result self.new }
    {
        let Some((stmt, rest)) = self.frame.rest.split_first() else {
            self.leave(Value::Nothing);
            return Next::Silent;
        };
        if self.begun >= script.budget() {
            self.running = false;
            return Next::Says(Local::Budget);
        }
        self.begun += 1;
        self.frame.rest = rest;
        self.next_of_statement(script, stmt)
    }

    /// How many frames there are.
    fn height(&self) -> usize
        ensures same { result ≡ length (state_of self.now).frames }
    {
        if self.running {
            self.below.len() + 1
        } else {
            0
        }
    }

    /// Puts a frame above the others.
    fn enter(&mut self, frame: &Frame<'a>)
        requires { length (state_of self.old).frames ≤ MOST_CALLS }
        ensures { state_of self.new ≡ entered self.old frame.now }
    {
        let outer = self.frame.copy();
        if self.running {
            self.below.push(outer);
        } else {
            self.below.clear();
            self.running = true;
        }
        self.frame = frame.copy();
    }

    fn next_of_call(&mut self, script: &'a Script, call: &Call) -> Next
        ensures { IsNext (execution.call_next script.now (state_of self.old) call.now call.now.callee) result self.new }
    {
        let Some(function) = call.callee else {
            self.end(&call.on_return, Value::Nothing);
            return Next::Says(Local::NotCallable);
        };
        if self.height() > MOST_CALLS {
            self.end(&call.on_return, Value::Nothing);
            return Next::Says(Local::Depth);
        }
        self.enter(&Frame {
            self_arg: call.self_arg,
            other: call.other,
            arg: call.arg,
            rest: body_of(script, function),
            opened: false,
            on_return: call.on_return,
        });
        Next::Silent
    }

    /// What the thread demands next. After a demand `Asks` it goes on with `accept` or `decline`, and after each other
    /// with `next`; a thread that has ended stays as it is. It takes no memory.
    pub fn next(&mut self, script: &'a Script) -> Next
        ensures next { IsNext (next_of script.now (state_of self.old)) result self.new }
        ensures ended { result ≡ Next.Ended → state_of self.new ≡ state_of self.old }
    {
        if let Some(call) = self.call {
            self.call = None;
            return self.next_of_call(script, &call);
        }
        if self.running {
            self.next_of_frame(script)
        } else {
            Next::Ended
        }
    }
}
