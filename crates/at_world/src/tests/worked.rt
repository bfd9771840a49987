//! Worked histories, each as the operations with their replies and the count of writes at the end.

ghost use Rattle.std.specs.Prelude.{◌<◌};
ghost use Rattle.at_value.specs.Widths as widths;

use super::{class, class_of, class_of_two, function, name, object, replies};
use crate::Plain;
use at_value::{Bases, Class, Name, Op, Prop, Value};
use std::process::Abort;
use std::test::Fail;

/// Gives class c one base.
fn bases_of(c: u16, base: u16) -> Op
    requires { (c < widths.classes) × (base < widths.classes) }
{
    Op::SetBases(class(c), Bases::only(class(base)))
}

/// Gives class c two bases.
fn bases_of_two(c: u16, first: u16, second: u16) -> Op
    requires { (c < widths.classes) × ((first < widths.classes) × (second < widths.classes)) }
{
    let mut bases = Bases::only(class(first));
    let _ = bases.push(class(second));
    Op::SetBases(class(c), bases)
}

/// Puts a number under name 5 of a class.
fn put(c: u16, value: i32) -> Op
    requires { c < widths.classes }
{
    Op::TypeSet(class(c), name(5), Value::Int(value))
}

/// Writes a number under name 5 of an object.
fn set(o: u16, value: i32) -> Op
    requires { o < widths.objects }
{
    Op::Set(object(o), name(5), Value::Int(value))
}

/// Reads name 5 of an object.
fn get(o: u16) -> Op
    requires { o < widths.objects }
{
    Op::Get(object(o), name(5))
}

/// Runs a history on the opening world, and compares its replies and the count of its writes.
fn is_history<R: Abort + AllocGlobal>(
    rt: &R,
    rows: &[(Op, &str)],
    place: u64,
) -> Result<Plain, Fail> {
    let mut plain = Plain::new(rt.alloc())?;
    replies(rt, &mut plain, rows)?;
    assert_eq!(rt; plain.place().0, place);
    Ok(plain)
}

#[test]
fn names_are_deleted_and_found_again(rt: HostRuntime) -> Result<(), Fail> {
    let deletion = [
        (class_of(1, 0), "Done"),
        (put(1, 1), "Done"),
        (Op::New(class(1)), "Made(Obj(0), None)"),
        (set(0, 5), "Done"),
        (get(0), "Value(Int(5))"),
        (Op::Del(object(0), name(5)), "Done"),
        (get(0), "Value(Int(1))"),
        (Op::Del(object(0), name(5)), "NoAttr"),
    ];
    let getter = Value::Prop(Prop::new(Some(function()), None, None));
    let data_descriptor = [
        (class_of(1, 0), "Done"),
        (Op::New(class(1)), "Made(Obj(0), None)"),
        (set(0, 5), "Done"),
        (Op::TypeSet(class(1), name(5), getter), "Done"),
        (
            get(0),
            "Hook(Getter, Func(Func(0)), Obj(Obj(0)), Nothing, Nothing)",
        ),
        (Op::Del(object(0), name(5)), "NoDeleter"),
        (Op::TypeDel(class(1), name(5)), "Done"),
        (get(0), "Value(Int(5))"),
        (Op::TypeDel(class(1), name(5)), "NoAttr"),
        (Op::TypeDel(Class::object(), name(5)), "Immutable"),
    ];
    let _ = is_history(&rt, &deletion, 5)?;
    let _ = is_history(&rt, &data_descriptor, 5)?;
    Ok(())
}

#[test]
fn bases_that_are_refused_change_nothing(rt: HostRuntime) -> Result<(), Fail> {
    let rolled_back = [
        (class_of(1, 0), "Done"),
        (class_of(2, 0), "Done"),
        (class_of_two(3, 1, 2), "Done"),
        (class_of_two(4, 1, 2), "Done"),
        (class_of_two(5, 3, 4), "Done"),
        (bases_of_two(3, 2, 1), "NoOrder(Class(5))"),
        (
            Op::Mro(class(3)),
            "Order(ClassList { items: [3, 1, 2, 0] })",
        ),
        (
            Op::Mro(class(5)),
            "Order(ClassList { items: [5, 3, 4, 1, 2, 0] })",
        ),
    ];
    let unordered = [
        (class_of(1, 0), "Done"),
        (class_of(2, 0), "Done"),
        (class_of_two(3, 1, 2), "Done"),
        (class_of_two(4, 2, 1), "Done"),
        (class_of_two(5, 3, 4), "NoOrder(Class(5))"),
        (Op::Mro(class(5)), "NoClass"),
    ];
    // The class without an order has a lower number than the one that is changed.
    let below = [
        (class_of(6, 0), "Done"),
        (class_of(7, 0), "Done"),
        (class_of_two(5, 6, 7), "Done"),
        (class_of_two(4, 6, 7), "Done"),
        (class_of_two(2, 5, 4), "Done"),
        (class_of(1, 2), "Done"),
        (bases_of_two(4, 7, 6), "NoOrder(Class(1))"),
    ];
    let refusals = [
        (class_of(1, 0), "Done"),
        (class_of(3, 1), "Done"),
        (bases_of(1, 3), "Cycle"),
        (Op::SetBases(class(1), Bases::none()), "EmptyBases"),
        (bases_of(0, 1), "Immutable"),
        (bases_of(1, 1), "Cycle"),
        (bases_of_two(1, 0, 0), "Duplicate"),
        (bases_of(1, 9), "NoClass"),
        (class_of_two(5, 1, 1), "Duplicate"),
    ];
    let _ = is_history(&rt, &rolled_back, 5)?;
    let _ = is_history(&rt, &unordered, 4)?;
    let _ = is_history(&rt, &below, 6)?;
    let _ = is_history(&rt, &refusals, 2)?;
    Ok(())
}

/// Classes 1 A, 2 B, 3 T of A and B, 4 X and 5 Y of T, 6 Z of X and Y. As T is given the bases B and A, its subclasses
/// come to their new orders together; where they came one by one, Z had none for a moment.
#[test]
fn bases_are_judged_by_the_orders_at_the_end(rt: HostRuntime) -> Result<(), Fail> {
    let rows = [
        (class_of(1, 0), "Done"),
        (class_of(2, 0), "Done"),
        (class_of_two(3, 1, 2), "Done"),
        (class_of(4, 3), "Done"),
        (class_of(5, 3), "Done"),
        (class_of_two(6, 4, 5), "Done"),
        (Op::New(class(6)), "Made(Obj(0), None)"),
        (put(1, 1), "Done"),
        (put(2, 2), "Done"),
        (get(0), "Value(Int(1))"),
        (bases_of_two(3, 2, 1), "Done"),
        (get(0), "Value(Int(2))"),
        (
            Op::Mro(class(6)),
            "Order(ClassList { items: [6, 4, 5, 3, 2, 1, 0] })",
        ),
        (bases_of(3, 1), "Done"),
        (
            Op::Mro(class(5)),
            "Order(ClassList { items: [5, 3, 1, 0] })",
        ),
    ];
    let _ = is_history(&rt, &rows, 11)?;
    Ok(())
}

#[test]
fn objects_turn_and_share(rt: HostRuntime) -> Result<(), Fail> {
    let turn = [
        (class_of(1, 0), "Done"),
        (class_of(2, 0), "Done"),
        (Op::New(class(1)), "Made(Obj(0), None)"),
        (put(2, 5), "Done"),
        (Op::SetClass(object(0), class(2)), "Done"),
        (get(0), "Value(Int(5))"),
        (Op::SetClass(object(0), Class::object()), "Immutable"),
        (Op::New(Class::object()), "Immutable"),
        (Op::ClassOf(object(0)), "Value(Class(Class(2)))"),
    ];
    let second = Op::Set(object(0), name(6), Value::Int(2));
    let share_twice = [
        (class_of(1, 0), "Done"),
        (Op::New(class(1)), "Made(Obj(0), None)"),
        (Op::New(class(1)), "Made(Obj(1), None)"),
        (set(0, 1), "Done"),
        (Op::Share(object(0), object(1)), "Done"),
        (get(0), "NoAttr"),
        (Op::Share(object(1), object(0)), "Done"),
        (second, "Done"),
        (Op::Get(object(1), name(6)), "Value(Int(2))"),
        (Op::Share(object(0), object(0)), "Done"),
        (Op::Share(object(0), object(2)), "NoAttr"),
    ];
    let _ = is_history(&rt, &turn, 5)?;
    let _ = is_history(&rt, &share_twice, 8)?;
    Ok(())
}

#[test]
fn one_dictionary_serves_two_objects(rt: HostRuntime) -> Result<(), Fail> {
    let rows = [
        (class_of(1, 0), "Done"),
        (class_of(2, 0), "Done"),
        (Op::New(class(1)), "Made(Obj(0), None)"),
        (Op::New(class(1)), "Made(Obj(1), None)"),
        (Op::Share(object(0), object(1)), "Done"),
        (set(0, 1), "Done"),
        (get(1), "Value(Int(1))"),
        (Op::SetClass(object(1), class(2)), "Done"),
        (get(1), "Value(Int(1))"),
    ];
    let plain = is_history(&rt, &rows, 7)?;
    let last = plain.last()?;
    let text = format!(in rt.alloc(); "{:?}", last.objects)?;
    assert_eq!(rt;
        text.as_str(),
        concat!(
            "Sequence { items: [ObjEnd { class: Class(1), own: Pairs { items: [(Name(5), Int(1))] } }, ",
            "ObjEnd { class: Class(2), own: Pairs { items: [(Name(5), Int(1))] } }] }"
        )
    );
    Ok(())
}

#[test]
fn classes_and_special_names_are_read(rt: HostRuntime) -> Result<(), Fail> {
    let f = Value::Func(function());
    let of_class = Value::ClassM(function());
    let rows = [
        (class_of(1, 0), "Done"),
        (class_of(2, 1), "Done"),
        (class_of(3, 0), "Done"),
        (Op::New(class(2)), "Made(Obj(0), None)"),
        (Op::TypeSet(class(1), name(5), f), "Done"),
        (Op::TypeSet(class(2), name(5), of_class), "Done"),
        (set(0, 9), "Done"),
        (get(0), "Value(Int(9))"),
        (
            Op::Special(object(0), name(5)),
            "Method(Func(0), Class(Class(2)))",
        ),
        (
            Op::TypeGet(class(2), name(5)),
            "Method(Func(0), Class(Class(2)))",
        ),
        (Op::TypeGet(class(1), name(5)), "Value(Func(Func(0)))"),
        (Op::TypeGet(class(1), name(6)), "NoAttr"),
        (
            Op::Super(class(2), object(0), name(5)),
            "Method(Func(0), Obj(Obj(0)))",
        ),
        (Op::Super(class(1), object(0), name(5)), "NoAttr"),
        (Op::Super(class(3), object(0), name(5)), "NotSubclass"),
        (Op::Super(class(4), object(0), name(5)), "NoClass"),
        (Op::Super(class(4), object(1), name(5)), "NoAttr"),
        (Op::Special(object(0), name(6)), "NoAttr"),
    ];
    let _ = is_history(&rt, &rows, 7)?;
    Ok(())
}
