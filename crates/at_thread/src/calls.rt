//! The calls that a reply brings about.
ghost use Rattle.std.specs.Prelude.{◌≡◌};
ghost use Rattle.at_thread.specs.Execution as execution;

use crate::next::{Call, OnReturn};
use at_value::{Func, Value};

/// The call of a hook: a function is called with self the receiver, a staticmethod with self none.
pub fn hook_call(
    callee: &Value,
    receiver: Value,
    other: Value,
    arg: Value,
    on_return: OnReturn,
) -> Call
    ensures { result ≡ execution.hook_call callee.now receiver other arg on_return }
{
    match callee {
        Value::Func(function) => Call {
            self_arg: receiver,
            other,
            arg,
            on_return,
            callee: Some(*function),
        },
        Value::Static(function) => Call {
            self_arg: Value::Nothing,
            other,
            arg,
            on_return,
            callee: Some(*function),
        },
        _ => Call {
            self_arg: receiver,
            other,
            arg,
            on_return,
            callee: None,
        },
    }
}

/// The call of a value that was read.
pub fn value_call(value: &Value, arg: Value) -> Call
    ensures { result ≡ execution.value_call value.now arg }
{
    Call {
        self_arg: Value::Nothing,
        other: Value::Nothing,
        arg,
        on_return: OnReturn::Result,
        callee: match value {
            Value::Func(function) => Some(*function),
            _ => None,
        },
    }
}

/// The call of a function that is bound to its first argument.
pub fn method_call(function: Func, receiver: Value, arg: Value) -> Call
    ensures { result ≡ execution.method_call function receiver arg }
{
    Call {
        self_arg: receiver,
        other: Value::Nothing,
        arg,
        on_return: OnReturn::Result,
        callee: Some(function),
    }
}
