//! How a value that is found on a class takes a write or a deletion.
ghost use Rattle.std.specs.Prelude.{◌≡◌};
ghost use Rattle.at_desc.specs.Binding.{write_property, write_descriptor, bound_set, delete_property};
ghost use Rattle.at_desc.specs.Binding.{delete_descriptor, bound_del};

use crate::descriptor::{Step, Three};
use at_value::{Func, HookKind, Obj, Reply, Value};

fn property_write(setter: Option<Func>, o: Obj, v: Value) -> Reply
    ensures { result ≡ write_property setter o v }
{
    match setter {
        Some(f) => Reply::Hook(
            HookKind::Setter,
            Value::Func(f),
            Value::Obj(o),
            Value::Nothing,
            v,
        ),
        None => Reply::NoSetter,
    }
}

fn descriptor_write(set: Option<Value>, del: Option<Value>, d: Obj, o: Obj, v: Value) -> Step
    ensures { result ≡ write_descriptor set del d o v }
{
    match set {
        Some(callee) => Step::Says(Reply::Hook(
            HookKind::DescSet,
            callee,
            Value::Obj(d),
            Value::Obj(o),
            v,
        )),
        None => match del {
            Some(_) => Step::Says(Reply::NoSetter),
            None => Step::Own,
        },
    }
}

/// How a write of v to an attribute of object o goes on: the class has t, and `three` is what t has as a descriptor. It
/// is `Own` where the object's own dictionary takes v, and `NoSetter` where t is a property without a setter, or an
/// object whose class has `__delete__` and no `__set__`.
///
/// After the Python language reference, "Implementing Descriptors" and "Invoking Descriptors".
pub fn bind_set(t: Option<Value>, three: &Three, o: Obj, v: Value) -> Step
    ensures { result ≡ bound_set t three.now o v }
{
    match &t {
        Some(Value::Prop(property)) => Step::Says(property_write(property.set(), o, v)),
        Some(Value::Obj(d)) => descriptor_write(three.set, three.del, *d, o, v),
        _ => Step::Own,
    }
}

fn property_delete(deleter: Option<Func>, o: Obj) -> Reply
    ensures { result ≡ delete_property deleter o }
{
    match deleter {
        Some(f) => Reply::Hook(
            HookKind::Deleter,
            Value::Func(f),
            Value::Obj(o),
            Value::Nothing,
            Value::Nothing,
        ),
        None => Reply::NoDeleter,
    }
}

fn descriptor_delete(set: Option<Value>, del: Option<Value>, d: Obj, o: Obj) -> Step
    ensures { result ≡ delete_descriptor set del d o }
{
    match del {
        Some(callee) => Step::Says(Reply::Hook(
            HookKind::DescDel,
            callee,
            Value::Obj(d),
            Value::Obj(o),
            Value::Nothing,
        )),
        None => match set {
            Some(_) => Step::Says(Reply::NoDeleter),
            None => Step::Own,
        },
    }
}

/// How a deletion of an attribute of object o goes on: the class has t, and `three` is what t has as a descriptor. It
/// is `Own` where the deletion is left to the object's own dictionary, and `NoDeleter` where t is a property without a
/// deleter, or an object whose class has `__set__` and no `__delete__`.
///
/// After the Python language reference, "Implementing Descriptors" and "Invoking Descriptors".
pub fn bind_del(t: Option<Value>, three: &Three, o: Obj) -> Step
    ensures { result ≡ bound_del t three.now o }
{
    match &t {
        Some(Value::Prop(property)) => Step::Says(property_delete(property.del(), o)),
        Some(Value::Obj(d)) => descriptor_delete(three.set, three.del, *d, o),
        _ => Step::Own,
    }
}
