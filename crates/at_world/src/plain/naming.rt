//! Whether what an operation names is made.
ghost use Rattle.std.specs.Prelude.{◌≡◌};
ghost use Rattle.at_model.specs.Step as steps;

use super::Plain;
use at_value::{Class, Op, Value};

impl Plain {
    pub(super) fn has_objects(&self, op: &Op) -> bool
        ensures { result ≡ steps.are_objects self.now.world (steps.objects_in op.now) }
    {
        match op {
            Op::TypeSet(_, _, v) => self.has_object_in(v),
            Op::Set(o, _, v) => self.has_object(*o) && self.has_object_in(v),
            Op::Share(o, p) => self.has_object(*o) && self.has_object(*p),
            Op::Del(o, _)
            | Op::SetClass(o, _)
            | Op::Get(o, _)
            | Op::Super(_, o, _)
            | Op::Special(o, _)
            | Op::ClassOf(o) => self.has_object(*o),
            Op::NewClass(_, _)
            | Op::TypeDel(_, _)
            | Op::SetBases(_, _)
            | Op::New(_)
            | Op::TypeGet(_, _)
            | Op::Mro(_) => true,
        }
    }

    fn has_object_in(&self, v: &Value) -> bool
        ensures { result ≡ steps.are_objects self.now.world (steps.object_in v.now) }
    {
        match v {
            Value::Obj(o) => self.has_object(*o),
            Value::Nothing
            | Value::Int(_)
            | Value::Text(_)
            | Value::Func(_)
            | Value::Prop(_)
            | Value::Static(_)
            | Value::ClassM(_)
            | Value::Class(_) => true,
        }
    }

    /// A class that the operation is to make need not be made.
    pub(super) fn has_classes(&self, op: &Op) -> bool
        ensures { result ≡ steps.are_made self.now.world (steps.classes_in op.now) }
    {
        match op {
            Op::NewClass(_, bases) => self.has_all_classes(bases.as_slice()),
            Op::TypeSet(c, _, v) => self.has_class(*c) && self.has_class_in(v),
            Op::SetBases(c, bases) => self.has_class(*c) && self.has_all_classes(bases.as_slice()),
            Op::Set(_, _, v) => self.has_class_in(v),
            Op::TypeDel(c, _)
            | Op::New(c)
            | Op::SetClass(_, c)
            | Op::TypeGet(c, _)
            | Op::Super(c, _, _)
            | Op::Mro(c) => self.has_class(*c),
            Op::Del(_, _) | Op::Share(_, _) | Op::Get(_, _) | Op::Special(_, _) | Op::ClassOf(_) =>
                true,
        }
    }

    fn has_all_classes(&self, classes: &[Class]) -> bool
        ensures { result ≡ steps.are_made self.now.world classes.now }
    {
        classes.iter().all(|c| self.has_class(*c))
    }

    fn has_class_in(&self, v: &Value) -> bool
        ensures { result ≡ steps.are_made self.now.world (steps.class_in v.now) }
    {
        match v {
            Value::Class(c) => self.has_class(*c),
            Value::Nothing
            | Value::Int(_)
            | Value::Text(_)
            | Value::Func(_)
            | Value::Prop(_)
            | Value::Static(_)
            | Value::ClassM(_)
            | Value::Obj(_) => true,
        }
    }
}
