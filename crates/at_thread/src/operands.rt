//! The operands of a statement.
ghost use Rattle.std.specs.Prelude.{◌≡◌};
ghost use Rattle.at_thread.specs.Execution as execution;
ghost use Rattle.at_thread.specs.Threads.{frame_of, state_of};

use crate::thread::{Frame, Thread};
use at_line::Local;
use at_script::{Operand, Target};
use at_value::{Name, Obj, Op, Value};

/// The object that a value is, or the line that says that it is none.
fn as_object(value: &Value) -> Result<Obj, Local>
    ensures { result ≡ execution.as_object value.now }
{
    match value {
        Value::Obj(object) => Ok(*object),
        _ => Err(Local::Kind),
    }
}

/// The operation that reads a name of a value, or the line that says that it has no attributes.
fn read_of(value: &Value, name: Name) -> Result<Op, Local>
    ensures { result ≡ execution.read_of value.now name }
{
    match value {
        Value::Obj(object) => Ok(Op::Get(*object, name)),
        Value::Class(class) => Ok(Op::TypeGet(*class, name)),
        _ => Err(Local::Kind),
    }
}

impl<'a> Thread<'a> {
    /// The value that a variable is bound to, or the line that says that it isn't bound.
    fn variable_value(&self, variable: u16) -> Result<Value, Local>
        ensures { result ≡ execution.variable_value (state_of self.now).variables variable }
    {
        match self.variables.get(usize::from(variable)) {
            Some(Some(value)) => Ok(*value),
            _ => Err(Local::Unbound(variable)),
        }
    }

    pub(crate) fn operand_value(&self, frame: &Frame<'a>, operand: &Operand) -> Result<Value, Local>
        ensures { result ≡ execution.operand_value (state_of self.now) (frame_of frame.now) operand.now }
    {
        match operand {
            Operand::Value(value) => Ok(*value),
            Operand::Var(variable) => self.variable_value(*variable),
            Operand::SelfArg => Ok(frame.self_arg),
            Operand::Arg => Ok(frame.arg),
            Operand::Other => Ok(frame.other),
            Operand::It => Ok(self.it),
        }
    }

    /// The value of an operand that may be left out.
    pub(crate) fn given_value(
        &self,
        frame: &Frame<'a>,
        operand: &Option<Operand>,
    ) -> Result<Value, Local>
        ensures { result ≡ execution.given_value (state_of self.now) (frame_of frame.now) operand.now }
    {
        match operand {
            Some(operand) => self.operand_value(frame, operand),
            None => Ok(Value::Nothing),
        }
    }

    fn target_value(&self, frame: &Frame<'a>, target: &Target) -> Result<Value, Local>
        ensures { result ≡ execution.target_value (state_of self.now) (frame_of frame.now) target.now }
    {
        self.operand_value(frame, &Operand::from(*target))
    }

    /// The object that a target is.
    pub(crate) fn target_object(&self, frame: &Frame<'a>, target: &Target) -> Result<Obj, Local>
        ensures { result ≡ execution.target_object (state_of self.now) (frame_of frame.now) target.now }
    {
        let value = self.target_value(frame, target)?;
        as_object(&value)
    }

    /// The operation that reads a name of a target.
    pub(crate) fn target_read(
        &self,
        frame: &Frame<'a>,
        target: &Target,
        name: Name,
    ) -> Result<Op, Local>
        ensures { result ≡ execution.target_read (state_of self.now) (frame_of frame.now) target.now name }
    {
        let value = self.target_value(frame, target)?;
        read_of(&value, name)
    }

    /// The second object of a section over object o, where it is another.
    pub(crate) fn other_object(
        &self,
        frame: &Frame<'a>,
        o: Obj,
        target: &Option<Target>,
    ) -> Result<Option<Obj>, Local>
        ensures { result ≡ execution.other_object (state_of self.now) (frame_of frame.now) o target.now }
    {
        let Some(target) = target else {
            return Ok(None);
        };
        let other = self.target_object(frame, target)?;
        if other == o {
            Ok(None)
        } else {
            Ok(Some(other))
        }
    }
}
