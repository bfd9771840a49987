//! The data model on worked histories: what operations reply, one after another, and the namespaces at the end.

ghost use Rattle.std.specs.Prelude.{◌<◌};
ghost use Rattle.at_value.specs.Widths as widths;

mod worked;

use crate::Plain;
use at_value::{Bases, Class, Func, Name, Obj, Op, Prop, Reply, Value};
use std::alloc::AllocError;
use std::process::Abort;
use std::test::Fail;

fn class(n: u16) -> Class
    requires { n < widths.classes }
{
    Class::new(n).unwrap()
}

fn object(n: u16) -> Obj
    requires { n < widths.objects }
{
    Obj::new(n).unwrap()
}

fn name(n: u16) -> Name
    requires { n < widths.names }
{
    Name::new(n).unwrap()
}

fn function() -> Func {
    Func::new(0).unwrap()
}

/// A class with one base.
fn class_of(c: u16, base: u16) -> Op
    requires { (c < widths.classes) × (base < widths.classes) }
{
    Op::NewClass(class(c), Bases::only(class(base)))
}

/// A class with two bases.
fn class_of_two(c: u16, first: u16, second: u16) -> Op
    requires { (c < widths.classes) × ((first < widths.classes) × (second < widths.classes)) }
{
    let mut bases = Bases::only(class(first));
    let _ = bases.push(class(second));
    Op::NewClass(class(c), bases)
}

/// Applies the operations in turn, and compares each reply as it is printed for debugging.
fn replies<R: Abort + AllocGlobal>(
    rt: &R,
    plain: &mut Plain,
    rows: &[(Op, &str)],
) -> Result<(), Fail> {
    for (op, wanted) in rows {
        let reply = plain.apply(op)?;
        let text = format!(in rt.alloc(); "{reply:?}")?;
        assert_eq!(rt; text.as_str(), *wanted, "{op:?}");
    }
    Ok(())
}

#[test]
fn an_object_hides_its_class(rt: HostRuntime) -> Result<(), Fail> {
    let rows = [
        (class_of(1, 0), "Done"),
        (Op::TypeSet(class(1), name(5), Value::Int(1)), "Done"),
        (Op::New(class(1)), "Made(Obj(0), None)"),
        (Op::Get(object(0), name(5)), "Value(Int(1))"),
        (Op::Set(object(0), name(5), Value::Int(5)), "Done"),
        (Op::Get(object(0), name(5)), "Value(Int(5))"),
        (Op::Get(object(0), name(6)), "NoAttr"),
    ];
    let mut plain = Plain::new(rt.alloc())?;
    replies(&rt, &mut plain, &rows)?;
    assert_eq!(rt; plain.place().0, 4);
    Ok(())
}

/// Class 1 has object 1, and class 2 object 0, which is to be a descriptor on class 1.
fn two_objects(plain: &mut Plain) -> Result<(), AllocError> {
    for op in [
        class_of(1, 0),
        class_of(2, 0),
        Op::New(class(2)),
        Op::New(class(1)),
    ] {
        let _ = plain.apply(&op)?;
    }
    Ok(())
}

#[test]
fn a_property_comes_before_the_objects_own(rt: HostRuntime) -> Result<(), Fail> {
    let read_only = Value::Prop(Prop::new(Some(function()), None, None));
    let rows = [
        (Op::Set(object(1), name(5), Value::Int(5)), "Done"),
        (Op::TypeSet(class(1), name(5), read_only), "Done"),
        (
            Op::Get(object(1), name(5)),
            "Hook(Getter, Func(Func(0)), Obj(Obj(1)), Nothing, Nothing)",
        ),
        (Op::Set(object(1), name(5), Value::Int(6)), "NoSetter"),
        (
            Op::TypeSet(class(1), name(5), Value::Func(function())),
            "Done",
        ),
        (Op::Get(object(1), name(5)), "Value(Int(5))"),
    ];
    let mut plain = Plain::new(rt.alloc())?;
    two_objects(&mut plain)?;
    replies(&rt, &mut plain, &rows)
}

#[test]
fn an_object_becomes_a_descriptor_by_its_class(rt: HostRuntime) -> Result<(), Fail> {
    let f = Value::Func(function());
    let rows = [
        (
            Op::TypeSet(class(1), name(5), Value::Obj(object(0))),
            "Done",
        ),
        (Op::Set(object(1), name(5), Value::Int(1)), "Done"),
        (Op::TypeSet(class(2), Name::descriptor_set(), f), "Done"),
        (
            Op::Set(object(1), name(5), Value::Int(2)),
            "Hook(DescSet, Func(Func(0)), Obj(Obj(0)), Obj(Obj(1)), Int(2))",
        ),
        (Op::Get(object(1), name(5)), "Value(Int(1))"),
        (
            Op::TypeSet(class(2), Name::descriptor_get(), Value::Func(function())),
            "Done",
        ),
        (
            Op::Get(object(1), name(5)),
            "Hook(DescGet, Func(Func(0)), Obj(Obj(0)), Obj(Obj(1)), Class(Class(1)))",
        ),
        (
            Op::TypeSet(class(1), Name::getattr(), Value::Func(function())),
            "Done",
        ),
        (
            Op::Get(object(1), name(9)),
            "Hook(GetAttr, Func(Func(0)), Obj(Obj(1)), Text(Name(9)), Nothing)",
        ),
    ];
    let mut plain = Plain::new(rt.alloc())?;
    two_objects(&mut plain)?;
    replies(&rt, &mut plain, &rows)
}

/// The order of class 6 in a diamond over F 1, E 2 and D 3: C 4 is made of D and F, B 5 of these two, A 6 of B and C.
fn has_order<R: Abort + AllocGlobal>(
    rt: &R,
    first: u16,
    second: u16,
    wanted: &str,
) -> Result<(), Fail>
    requires { (first < widths.classes) × (second < widths.classes) }
{
    let mut plain = Plain::new(rt.alloc())?;
    for op in [
        class_of(1, 0),
        class_of(2, 0),
        class_of(3, 0),
        class_of_two(4, 3, 1),
        class_of_two(5, first, second),
        class_of_two(6, 5, 4),
    ] {
        let _ = plain.apply(&op)?;
    }
    let last = plain.last()?;
    let end = last.classes.at(6).ok_or("no class 6")?;
    let text = format!(in rt.alloc(); "{:?}", end.order)?;
    assert_eq!(rt; text.as_str(), wanted);
    Ok(())
}

#[test]
fn diamonds_have_the_orders_of_c3(rt: HostRuntime) -> Result<(), Fail> {
    has_order(&rt, 3, 2, "ClassList { items: [6, 5, 4, 3, 2, 1, 0] }")?;
    has_order(&rt, 2, 3, "ClassList { items: [6, 5, 2, 4, 3, 1, 0] }")
}

#[test]
fn refusals_of_classes_come_in_their_order(rt: HostRuntime) -> Result<(), Fail> {
    let rows = [
        (class_of(1, 0), "Done"),
        (class_of(2, 0), "Done"),
        (class_of_two(3, 1, 2), "Done"),
        (class_of_two(4, 2, 1), "Done"),
        (class_of_two(5, 3, 4), "NoOrder(Class(5))"),
        (class_of(6, 5), "NoClass"),
        (class_of(6, 6), "NoClass"),
        (class_of(1, 1), "NameTaken"),
        (Op::NewClass(class(6), Bases::none()), "EmptyBases"),
        (class_of_two(6, 1, 1), "Duplicate"),
    ];
    let mut plain = Plain::new(rt.alloc())?;
    replies(&rt, &mut plain, &rows)?;
    assert_eq!(rt; plain.place().0, 4);
    Ok(())
}

#[test]
fn refusals_of_values_come_in_their_order(rt: HostRuntime) -> Result<(), Fail> {
    let rows = [
        (Op::New(class(5)), "NoClass"),
        (Op::New(Class::object()), "Immutable"),
        (
            Op::TypeSet(Class::object(), name(5), Value::Nothing),
            "Immutable",
        ),
        (
            Op::TypeSet(Class::object(), name(5), Value::Class(class(5))),
            "NoClass",
        ),
        (
            Op::TypeSet(class(5), name(5), Value::Obj(object(0))),
            "NoAttr",
        ),
        (Op::Get(object(0), name(5)), "NoAttr"),
    ];
    let mut plain = Plain::new(rt.alloc())?;
    replies(&rt, &mut plain, &rows)?;
    assert_eq!(rt; plain.place().0, 0);
    Ok(())
}

#[test]
fn objects_come_to_an_end(rt: HostRuntime) -> Result<(), Fail> {
    let mut plain = Plain::new(rt.alloc())?;
    let _ = plain.apply(&class_of(1, 0))?;
    for _ in 0..Obj::COUNT {
        let _ = plain.apply(&Op::New(class(1)))?;
    }
    replies(&rt, &mut plain, &[(Op::New(class(1)), "Full")])?;
    let last = plain.last()?;
    assert_eq!(rt; last.objects.len(), usize::from(Obj::COUNT));
    Ok(())
}
