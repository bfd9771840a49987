//! The rows of the five tables, and beside each the neighbours that tell it from the next.
ghost use Rattle.std.specs.Prelude.{◌<◌};
ghost use Rattle.at_value.specs.Widths.{functions};

use crate::{Three, bind_class, bind_del, bind_get, bind_set, bind_special};
use at_value::{Class, Func, Name, Obj, Prop, Reply, Value};
use std::process::Abort;
use std::test::Fail;

fn function(n: u16) -> Func
    requires { n < functions }
{
    Func::new(n).unwrap()
}

/// The object that is read or written, of the class below.
fn subject() -> Obj {
    Obj::new(7).unwrap()
}

fn class() -> Class {
    Class::new(2).unwrap()
}

fn name() -> Name {
    Name::new(6).unwrap()
}

/// What the class has: a function, or an object that may be a descriptor.
fn method() -> Option<Value> {
    Some(Value::Func(function(1)))
}

fn static_method() -> Option<Value> {
    Some(Value::Static(function(1)))
}

fn class_method() -> Option<Value> {
    Some(Value::ClassM(function(1)))
}

fn descriptor() -> Option<Value> {
    Obj::new(3).map(|object| Value::Obj(object))
}

/// A property with these parts.
fn property(get: Option<u16>, set: Option<u16>, del: Option<u16>) -> Option<Value> {
    let get = get.and_then(|number| Func::new(number));
    let set = set.and_then(|number| Func::new(number));
    let del = del.and_then(|number| Func::new(number));
    Some(Value::Prop(Prop::new(get, set, del)))
}

/// A descriptor's class with those of `__get__` (function 10), `__set__` (11) and `__delete__` (12) that are asked for.
fn three(get: bool, set: bool, del: bool) -> Three {
    Three {
        get: if get {
            Some(Value::Func(function(10)))
        } else {
            None
        },
        set: if set {
            Some(Value::Func(function(11)))
        } else {
            None
        },
        del: if del {
            Some(Value::Func(function(12)))
        } else {
            None
        },
    }
}

/// No descriptor.
fn none() -> Three {
    three(false, false, false)
}

/// The object's own value.
fn own() -> Option<Value> {
    Some(Value::Int(4))
}

/// What `__getattr__` is.
fn hook() -> Option<Value> {
    Some(Value::Func(function(13)))
}

const GETTER: &str = "Hook(Getter, Func(Func(1)), Obj(Obj(7)), Nothing, Nothing)";

const DESC_GET: &str = "Hook(DescGet, Func(Func(10)), Obj(Obj(3)), Obj(Obj(7)), Class(Class(2)))";

const GET_ATTR: &str = "Hook(GetAttr, Func(Func(13)), Obj(Obj(7)), Text(Name(6)), Nothing)";

const OWN: &str = "Value(Int(4))";

#[test]
fn an_instance_is_read(rt: HostRuntime) -> Result<(), Fail> {
    let rows = [
        // a property comes before the object's own value, and only one without a getter leads to `__getattr__`
        (property(Some(1), None, None), none(), own(), hook(), GETTER),
        (
            property(None, Some(1), Some(1)),
            none(),
            own(),
            None,
            "NoGetter",
        ),
        (
            property(None, Some(1), Some(1)),
            none(),
            own(),
            hook(),
            GET_ATTR,
        ),
        // a data descriptor with `__get__` comes before the object's own value, and no other object does
        (
            descriptor(),
            three(true, true, false),
            own(),
            hook(),
            DESC_GET,
        ),
        (
            descriptor(),
            three(true, false, true),
            own(),
            hook(),
            DESC_GET,
        ),
        (descriptor(), three(true, true, true), own(), None, DESC_GET),
        (descriptor(), three(true, false, false), own(), hook(), OWN),
        (descriptor(), three(false, true, true), own(), hook(), OWN),
        (descriptor(), three(false, true, false), own(), None, OWN),
        (descriptor(), three(false, false, true), own(), hook(), OWN),
        (descriptor(), none(), own(), None, OWN),
        // the object's own value comes before all other values of the class
        (method(), none(), own(), hook(), OWN),
        (static_method(), none(), own(), hook(), OWN),
        (class_method(), none(), own(), None, OWN),
        (Some(Value::Int(8)), none(), own(), None, OWN),
        (None, none(), own(), hook(), OWN),
        (
            method(),
            none(),
            Some(Value::Nothing),
            hook(),
            "Value(Nothing)",
        ),
        // what the class has
        (
            method(),
            none(),
            None,
            hook(),
            "Method(Func(1), Obj(Obj(7)))",
        ),
        (
            static_method(),
            none(),
            None,
            hook(),
            "Value(Func(Func(1)))",
        ),
        (
            class_method(),
            none(),
            None,
            hook(),
            "Method(Func(1), Class(Class(2)))",
        ),
        (
            descriptor(),
            three(true, false, false),
            None,
            hook(),
            DESC_GET,
        ),
        (
            descriptor(),
            three(false, true, true),
            None,
            hook(),
            "Value(Obj(Obj(3)))",
        ),
        (
            descriptor(),
            three(false, true, false),
            None,
            hook(),
            "Value(Obj(Obj(3)))",
        ),
        (
            descriptor(),
            three(false, false, true),
            None,
            hook(),
            "Value(Obj(Obj(3)))",
        ),
        (descriptor(), none(), None, None, "Value(Obj(Obj(3)))"),
        (Some(Value::Int(8)), none(), None, hook(), "Value(Int(8))"),
        (Some(Value::Nothing), none(), None, hook(), "Value(Nothing)"),
        (
            Some(Value::Text(name())),
            none(),
            None,
            None,
            "Value(Text(Name(6)))",
        ),
        (
            Some(Value::Class(class())),
            none(),
            None,
            None,
            "Value(Class(Class(2)))",
        ),
        // nothing
        (None, none(), None, None, "NoAttr"),
        (None, none(), None, hook(), GET_ATTR),
        (
            None,
            none(),
            None,
            Some(Value::Nothing),
            "Hook(GetAttr, Nothing, Obj(Obj(7)), Text(Name(6)), Nothing)",
        ),
    ];
    for (t, three, own, a, wanted) in &rows {
        let reply = bind_get(*t, three, *own, subject(), class(), name(), *a);
        let text = format!(in rt.alloc(); "{reply:?}")?;
        assert_eq!(rt; text.as_str(), *wanted, "{t:?} {three:?} {own:?} {a:?}");
    }
    Ok(())
}

#[test]
fn a_special_method_is_looked_up(rt: HostRuntime) -> Result<(), Fail> {
    let rows = [
        (property(Some(1), None, None), none(), GETTER),
        (property(None, Some(1), Some(1)), none(), "NoGetter"),
        (method(), none(), "Method(Func(1), Obj(Obj(7)))"),
        (static_method(), none(), "Value(Func(Func(1)))"),
        (class_method(), none(), "Method(Func(1), Class(Class(2)))"),
        (descriptor(), three(true, true, false), DESC_GET),
        (descriptor(), three(true, false, false), DESC_GET),
        (descriptor(), three(false, true, true), "Value(Obj(Obj(3)))"),
        (
            descriptor(),
            three(false, true, false),
            "Value(Obj(Obj(3)))",
        ),
        (
            descriptor(),
            three(false, false, true),
            "Value(Obj(Obj(3)))",
        ),
        (descriptor(), none(), "Value(Obj(Obj(3)))"),
        (Some(Value::Int(8)), none(), "Value(Int(8))"),
        (None, none(), "NoAttr"),
    ];
    for (t, three, wanted) in &rows {
        let reply = bind_special(*t, three, subject(), class());
        let text = format!(in rt.alloc(); "{reply:?}")?;
        assert_eq!(rt; text.as_str(), *wanted, "{t:?} {three:?}");
    }
    Ok(())
}

#[test]
fn a_class_is_read(rt: HostRuntime) -> Result<(), Fail> {
    let of_class = "Hook(DescGet, Func(Func(10)), Obj(Obj(3)), Nothing, Class(Class(2)))";
    let rows = [
        (method(), none(), "Value(Func(Func(1)))"),
        (static_method(), none(), "Value(Func(Func(1)))"),
        (class_method(), none(), "Method(Func(1), Class(Class(2)))"),
        (descriptor(), three(true, false, false), of_class),
        (descriptor(), three(true, true, true), of_class),
        (descriptor(), three(false, true, true), "Value(Obj(Obj(3)))"),
        (descriptor(), none(), "Value(Obj(Obj(3)))"),
        (Some(Value::Int(8)), none(), "Value(Int(8))"),
        (Some(Value::Nothing), none(), "Value(Nothing)"),
        (
            Some(Value::Class(class())),
            none(),
            "Value(Class(Class(2)))",
        ),
        (None, none(), "NoAttr"),
    ];
    for (t, three, wanted) in &rows {
        let reply = bind_class(*t, three, class());
        let text = format!(in rt.alloc(); "{reply:?}")?;
        assert_eq!(rt; text.as_str(), *wanted, "{t:?} {three:?}");
    }
    Ok(())
}

/// The property that was read.
fn property_in(reply: &Reply) -> Option<Prop> {
    match reply {
        Reply::Value(Value::Prop(property)) => Some(*property),
        _ => None,
    }
}

#[test]
fn a_property_gives_itself_to_its_class(rt: HostRuntime) {
    let reply = bind_class(property(Some(1), None, None), &none(), class());
    let wanted = Some(Prop::new(Func::new(1), None, None));
    assert_eq!(rt; property_in(&reply), wanted);
    let reply = bind_class(property(None, Some(1), None), &none(), class());
    let wanted = Some(Prop::new(None, Func::new(1), None));
    assert_eq!(rt; property_in(&reply), wanted);
}

#[test]
fn an_attribute_is_written(rt: HostRuntime) -> Result<(), Fail> {
    let setter = "Says(Hook(Setter, Func(Func(1)), Obj(Obj(7)), Nothing, Int(4)))";
    let desc_set = "Says(Hook(DescSet, Func(Func(11)), Obj(Obj(3)), Obj(Obj(7)), Int(4)))";
    let rows = [
        (property(None, Some(1), None), none(), setter),
        (property(Some(1), None, Some(1)), none(), "Says(NoSetter)"),
        (descriptor(), three(false, true, false), desc_set),
        (descriptor(), three(true, true, true), desc_set),
        (descriptor(), three(false, false, true), "Says(NoSetter)"),
        (descriptor(), three(true, false, true), "Says(NoSetter)"),
        (descriptor(), three(true, false, false), "Own"),
        (descriptor(), none(), "Own"),
        (method(), none(), "Own"),
        (static_method(), none(), "Own"),
        (class_method(), none(), "Own"),
        (Some(Value::Nothing), none(), "Own"),
        (None, none(), "Own"),
    ];
    for (t, three, wanted) in &rows {
        let step = bind_set(*t, three, subject(), Value::Int(4));
        let text = format!(in rt.alloc(); "{step:?}")?;
        assert_eq!(rt; text.as_str(), *wanted, "{t:?} {three:?}");
    }
    Ok(())
}

#[test]
fn an_attribute_is_deleted(rt: HostRuntime) -> Result<(), Fail> {
    let deleter = "Says(Hook(Deleter, Func(Func(1)), Obj(Obj(7)), Nothing, Nothing))";
    let desc_del = "Says(Hook(DescDel, Func(Func(12)), Obj(Obj(3)), Obj(Obj(7)), Nothing))";
    let rows = [
        (property(None, None, Some(1)), none(), deleter),
        (property(Some(1), Some(1), None), none(), "Says(NoDeleter)"),
        (descriptor(), three(false, false, true), desc_del),
        (descriptor(), three(true, true, true), desc_del),
        (descriptor(), three(false, true, false), "Says(NoDeleter)"),
        (descriptor(), three(true, true, false), "Says(NoDeleter)"),
        (descriptor(), three(true, false, false), "Own"),
        (descriptor(), none(), "Own"),
        (method(), none(), "Own"),
        (static_method(), none(), "Own"),
        (class_method(), none(), "Own"),
        (Some(Value::Int(8)), none(), "Own"),
        (None, none(), "Own"),
    ];
    for (t, three, wanted) in &rows {
        let step = bind_del(*t, three, subject());
        let text = format!(in rt.alloc(); "{step:?}")?;
        assert_eq!(rt; text.as_str(), *wanted, "{t:?} {three:?}");
    }
    Ok(())
}
