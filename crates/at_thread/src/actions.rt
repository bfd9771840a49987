//! What each statement does.
ghost use Rattle.std.specs.Prelude.{◌≡◌};
ghost use Rattle.at_thread.specs.Execution as execution;
ghost use Rattle.at_thread.specs.Threads.{frame_of, state_of};

use crate::next::{Action, ReplyUse, Request};
use crate::thread::{Frame, Thread};
use at_line::{LineOp, Local};
use at_script::{Script, Stmt};
use at_value::Op;

fn asking(op: Op, reply_use: ReplyUse) -> Action
    ensures { result ≡ execution.asking op reply_use }
{
    Action::Ask(Request {
        op: LineOp::Of(op),
        reply_use,
    })
}

impl<'a> Thread<'a> {
    /// What a statement does, or the line that says that an operand can't be evaluated.
    pub(crate) fn action_of(
        &self,
        script: &Script,
        frame: &Frame<'a>,
        stmt: &Stmt,
    ) -> Result<Action, Local>
        ensures { result ≡ execution.action_of script.now (state_of self.now) (frame_of frame.now) stmt.now }
    {
        match stmt {
            Stmt::Class(c, bases) => Ok(asking(Op::NewClass(*c, *bases), ReplyUse::Ignore)),
            Stmt::Bases(c, bases) => Ok(asking(Op::SetBases(*c, *bases), ReplyUse::Ignore)),
            Stmt::Put(c, x, v) => {
                let value = self.operand_value(frame, v)?;
                Ok(asking(Op::TypeSet(*c, *x, value), ReplyUse::Ignore))
            }
            Stmt::Cut(c, x) => Ok(asking(Op::TypeDel(*c, *x), ReplyUse::Ignore)),
            Stmt::New(a, c, v) => {
                let argument = self.given_value(frame, v)?;
                Ok(asking(Op::New(*c), ReplyUse::Bind(*a, argument)))
            }
            Stmt::Set(r, x, v) => {
                let object = self.target_object(frame, r)?;
                let value = self.operand_value(frame, v)?;
                Ok(asking(Op::Set(object, *x, value), ReplyUse::Write))
            }
            Stmt::Del(r, x) => {
                let object = self.target_object(frame, r)?;
                Ok(asking(Op::Del(object, *x), ReplyUse::Write))
            }
            Stmt::Get(r, x) => {
                let read = self.target_read(frame, r, *x)?;
                Ok(asking(read, ReplyUse::Read))
            }
            Stmt::Turn(r, c) => {
                let object = self.target_object(frame, r)?;
                Ok(asking(Op::SetClass(object, *c), ReplyUse::Ignore))
            }
            Stmt::Share(r, q) => {
                let object = self.target_object(frame, r)?;
                let other = self.target_object(frame, q)?;
                Ok(asking(Op::Share(object, other), ReplyUse::Ignore))
            }
            Stmt::Super(c, r, x) => {
                let object = self.target_object(frame, r)?;
                Ok(asking(Op::Super(*c, object, *x), ReplyUse::Read))
            }
            Stmt::Special(r, x) => {
                let object = self.target_object(frame, r)?;
                Ok(asking(Op::Special(object, *x), ReplyUse::Read))
            }
            Stmt::ClassOf(r) => {
                let object = self.target_object(frame, r)?;
                Ok(asking(Op::ClassOf(object), ReplyUse::Learn))
            }
            Stmt::Mro(c) => Ok(asking(Op::Mro(*c), ReplyUse::Ignore)),
            Stmt::Call(r, x, v) => {
                let read = self.target_read(frame, r, *x)?;
                let argument = self.given_value(frame, v)?;
                Ok(asking(read, ReplyUse::Call(argument)))
            }
            Stmt::CallSuper(c, r, x, v) => {
                let object = self.target_object(frame, r)?;
                let argument = self.given_value(frame, v)?;
                Ok(asking(Op::Super(*c, object, *x), ReplyUse::Call(argument)))
            }
            Stmt::Let(a, v) => {
                let value = self.operand_value(frame, v)?;
                Ok(Action::Bind(*a, value))
            }
            Stmt::Return(v) => Ok(Action::Return(self.operand_value(frame, v))),
            Stmt::Begin(r, q) => {
                let object = self.target_object(frame, r)?;
                let other = self.other_object(frame, object, q)?;
                Ok(Action::Ask(Request {
                    op: LineOp::Begin(object, other),
                    reply_use: ReplyUse::Open,
                }))
            }
            Stmt::Finish => Ok(Action::Finish),
            Stmt::Checkpoint => Ok(Action::Checkpoint),
        }
    }
}
