//! What becomes of the reply of a line, by its use.
ghost use Rattle.std.specs.Prelude.{◌≡◌};
ghost use Rattle.at_thread.specs.Execution as execution;
ghost use Rattle.at_thread.specs.Execution.{taken};
ghost use Rattle.at_thread.specs.Threads.{state_of};
ghost use Rattle.at_thread.specs.declared.next.ReplyUse.TheVariants as uses;

use crate::calls::{hook_call, method_call, value_call};
use crate::next::{OnReturn, ReplyUse};
use crate::thread::Thread;
use at_line::LineReply;
use at_value::{Reply, Value};

impl<'a> Thread<'a> {
    /// Takes the reply to what was asked.
    pub fn accept(&mut self, reply_use: &ReplyUse, reply: &LineReply)
        ensures { state_of self.new ≡ taken reply_use.now reply.now (state_of self.old) }
    {
        match reply_use {
            ReplyUse::Ignore => self.it = Value::Nothing,
            ReplyUse::Read => self.accept_read(reply),
            ReplyUse::Learn => self.accept_learned(reply),
            ReplyUse::Write => self.accept_written(reply),
            ReplyUse::Call(argument) => self.accept_called(argument, reply),
            ReplyUse::Bind(variable, argument) => self.accept_made(*variable, argument, reply),
            ReplyUse::Open => self.accept_opened(reply),
            ReplyUse::Close => self.accept_closed(reply),
        }
    }

    fn accept_read(&mut self, reply: &LineReply)
        ensures { state_of self.new ≡ taken uses.Read reply.now (state_of self.old) }
    {
        match reply {
            LineReply::Of(Reply::Value(value)) => self.it = *value,
            LineReply::Of(Reply::Hook(_, callee, receiver, other, value)) => {
                self.call = Some(hook_call(callee, *receiver, *other, *value, OnReturn::Result));
            }
            _ => self.it = Value::Nothing,
        }
    }

    fn accept_learned(&mut self, reply: &LineReply)
        ensures { state_of self.new ≡ taken uses.Learn reply.now (state_of self.old) }
    {
        self.it = match reply {
            LineReply::Of(Reply::Value(value)) => *value,
            _ => Value::Nothing,
        };
    }

    fn accept_written(&mut self, reply: &LineReply)
        ensures { state_of self.new ≡ taken uses.Write reply.now (state_of self.old) }
    {
        match reply {
            LineReply::Of(Reply::Hook(_, callee, receiver, other, value)) => {
                self.call = Some(hook_call(callee, *receiver, *other, *value, OnReturn::Nothing));
            }
            _ => self.it = Value::Nothing,
        }
    }

    fn accept_called(&mut self, argument: &Value, reply: &LineReply)
        ensures { state_of self.new ≡ taken (uses.Call argument.now) reply.now (state_of self.old) }
    {
        match reply {
            LineReply::Of(Reply::Value(value)) => self.call = Some(value_call(value, *argument)),
            LineReply::Of(Reply::Method(function, receiver)) => {
                self.call = Some(method_call(*function, *receiver, *argument));
            }
            LineReply::Of(Reply::Hook(_, callee, receiver, other, value)) => {
                self.call = Some(hook_call(callee, *receiver, *other, *value, OnReturn::Result));
            }
            _ => self.it = Value::Nothing,
        }
    }

    fn accept_made(&mut self, variable: u16, argument: &Value, reply: &LineReply)
        ensures { state_of self.new ≡ taken (uses.Bind variable argument.now) reply.now (state_of self.old) }
    {
        let LineReply::Of(Reply::Made(object, init)) = reply else {
            self.it = Value::Nothing;
            return;
        };
        self.bind(variable, Value::Obj(*object));
        match init {
            Some(init) => {
                self.call = Some(hook_call(
                    init,
                    Value::Obj(*object),
                    Value::Nothing,
                    *argument,
                    OnReturn::Object(*object),
                ));
            }
            None => self.it = Value::Obj(*object),
        }
    }

    fn accept_opened(&mut self, reply: &LineReply)
        ensures { state_of self.new ≡ taken uses.Open reply.now (state_of self.old) }
    {
        self.it = Value::Nothing;
        let LineReply::Of(Reply::Done) = reply else {
            return;
        };
        self.set_opened(true);
    }

    fn accept_closed(&mut self, reply: &LineReply)
        ensures { state_of self.new ≡ taken uses.Close reply.now (state_of self.old) }
    {
        self.it = match reply {
            LineReply::Kept | LineReply::Suspended(_) | LineReply::Of(_) => Value::Nothing,
        };
    }

    /// Goes on where a line stands in the place of the operation that was asked for: the history has no room, or the
    /// object's head can't be written any more.
    pub fn decline(&mut self)
        ensures { state_of self.new ≡ execution.dropped (state_of self.old) }
    {
        self.it = Value::Nothing;
    }
}
