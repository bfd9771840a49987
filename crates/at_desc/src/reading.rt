//! What a value that is found on a class gives to a reader.
ghost use Rattle.std.specs.Prelude.{◌≡◌};
ghost use Rattle.at_desc.specs.Binding.{read_property, read_descriptor, bound, bound_special, comes_first, or_getattr};
ghost use Rattle.at_desc.specs.Binding.{bound_get, bound_to_class, bound_class};

use crate::descriptor::Three;
use at_value::{Class, Func, HookKind, Name, Obj, Reply, Value};

fn property_read(getter: Option<Func>, o: Obj) -> Reply
    ensures { result ≡ read_property getter o }
{
    match getter {
        Some(f) => Reply::Hook(
            HookKind::Getter,
            Value::Func(f),
            Value::Obj(o),
            Value::Nothing,
            Value::Nothing,
        ),
        None => Reply::NoGetter,
    }
}

/// The instance is an object of class c, or none.
fn descriptor_read(get: Option<Value>, d: Obj, instance: Value, c: Class) -> Reply
    ensures { result ≡ read_descriptor get d instance c }
{
    match get {
        Some(callee) => Reply::Hook(
            HookKind::DescGet,
            callee,
            Value::Obj(d),
            instance,
            Value::Class(c),
        ),
        None => Reply::Value(Value::Obj(d)),
    }
}

fn bind(t: Value, three: &Three, o: Obj, c: Class) -> Reply
    ensures { result ≡ bound t three.now o c }
{
    match t {
        Value::Prop(property) => property_read(property.get(), o),
        Value::Func(f) => Reply::Method(f, Value::Obj(o)),
        Value::Static(f) => Reply::Value(Value::Func(f)),
        Value::ClassM(f) => Reply::Method(f, Value::Class(c)),
        Value::Obj(d) => descriptor_read(three.get, d, Value::Obj(o), c),
        _ => Reply::Value(t),
    }
}

/// The reply to the look-up of a special method of object o of class c, or of a name after a class in c's order: what
/// was found is t, and `three` is what t has as a descriptor. Nothing of the object's own counts, and `__getattr__`
/// isn't tried. It is `NoAttr` exactly where there is no t, and `NoGetter` exactly where t is a property without a
/// getter.
///
/// After the Python language reference, "Special method lookup" and "Invoking Descriptors", and the built-in `super`.
pub fn bind_special(t: Option<Value>, three: &Three, o: Obj, c: Class) -> Reply
    ensures { result ≡ bound_special t three.now o c }
{
    match t {
        Some(value) => bind(value, three, o, c),
        None => Reply::NoAttr,
    }
}

fn is_first(t: &Option<Value>, three: &Three) -> bool
    ensures { result ≡ comes_first t.now three.now }
{
    match t {
        Some(Value::Prop(_)) => true,
        Some(Value::Obj(_)) => three.get.is_some() && (three.set.is_some() || three.del.is_some()),
        _ => false,
    }
}

fn hook_or(a: Option<Value>, o: Obj, n: Name, reply: Reply) -> Reply
    ensures { result ≡ or_getattr a o n reply }
{
    let Some(callee) = a else {
        return reply;
    };
    match reply {
        Reply::NoAttr | Reply::NoGetter => Reply::Hook(
            HookKind::GetAttr,
            callee,
            Value::Obj(o),
            Value::Text(n),
            Value::Nothing,
        ),
        _ => reply,
    }
}

/// The reply to reading name n of object o of class c: the class has t, `three` is what t has as a descriptor, the
/// object's dictionary has `own`, and the class has a as `__getattr__`. A property, and an object with `__get__` and
/// one of `__set__` and `__delete__`, come before the object's own value. Only where there is no `__getattr__` it is
/// `NoGetter`, exactly for a property without a getter, or `NoAttr`, exactly where there is neither t nor `own`.
///
/// After the Python language reference, "Invoking Descriptors" and "Customizing attribute access".
pub fn bind_get(
    t: Option<Value>,
    three: &Three,
    own: Option<Value>,
    o: Obj,
    c: Class,
    n: Name,
    a: Option<Value>,
) -> Reply
    ensures { result ≡ bound_get t three.now own o c n a }
{
    let first = is_first(&t, three);
    let reply = match own {
        Some(value) if !first => Reply::Value(value),
        _ => bind_special(t, three, o, c),
    };
    hook_or(a, o, n, reply)
}

/// The reply to reading an attribute of class c itself: c has t, and `three` is what t has as a descriptor. A property
/// gives itself, and the reply is `NoAttr` exactly where there is no t.
///
/// After the Python language reference, "Invoking Descriptors".
pub fn bind_class(t: Option<Value>, three: &Three, c: Class) -> Reply
    ensures { result ≡ bound_class t three.now c }
{
    match t {
        Some(value) => bind_to_class(value, three, c),
        None => Reply::NoAttr,
    }
}

fn bind_to_class(t: Value, three: &Three, class: Class) -> Reply
    ensures { result ≡ bound_to_class t three.now class }
{
    match t {
        Value::Func(f) | Value::Static(f) => Reply::Value(Value::Func(f)),
        Value::ClassM(f) => Reply::Method(f, Value::Class(class)),
        Value::Obj(d) => descriptor_read(three.get, d, Value::Nothing, class),
        _ => Reply::Value(t),
    }
}
