//! Histories of classes, each as the operations with their replies.

use super::{bases_of, bases_of_two, class, class_of, class_of_two, has_order, name, put, replies};
use crate::Types;
use at_value::{Bases, Class, Obj, Op, Value};
use std::process::Abort;
use std::test::Fail;

/// Runs a history on the class `object` alone, and compares its replies.
fn is_history<R: Abort + AllocGlobal>(rt: &R, rows: &[(Op, &str)]) -> Result<Types, Fail> {
    let mut types = Types::new(rt.alloc(), 3)?;
    replies(rt, &mut types, rows)?;
    Ok(types)
}

#[test]
fn a_class_without_an_order_is_not_made(rt: HostRuntime) -> Result<(), Fail> {
    let rows = [
        (class_of(1, 0), "Done"),
        (class_of(2, 0), "Done"),
        (class_of_two(3, 1, 2), "Done"),
        (class_of_two(4, 2, 1), "Done"),
        (class_of_two(5, 3, 4), "NoOrder(Class(5))"),
        (class_of(6, 5), "NoClass"),
    ];
    let types = is_history(&rt, &rows)?;
    assert!(rt; !types.is_made(class(5)));
    has_order(&rt, &types, 5, "None")?;
    has_order(&rt, &types, 4, "Some(ClassList { items: [4, 2, 1, 0] })")
}

#[test]
fn bases_that_are_refused_leave_every_order(rt: HostRuntime) -> Result<(), Fail> {
    let rows = [
        (class_of(1, 0), "Done"),
        (class_of(2, 0), "Done"),
        (class_of_two(3, 1, 2), "Done"),
        (class_of_two(4, 1, 2), "Done"),
        (class_of_two(5, 3, 4), "Done"),
        (bases_of_two(3, 2, 1), "NoOrder(Class(5))"),
    ];
    let types = is_history(&rt, &rows)?;
    has_order(&rt, &types, 3, "Some(ClassList { items: [3, 1, 2, 0] })")?;
    has_order(
        &rt,
        &types,
        5,
        "Some(ClassList { items: [5, 3, 4, 1, 2, 0] })",
    )?;
    // The class without an order has a lower number than the one that is changed.
    let below = [
        (class_of(6, 0), "Done"),
        (class_of(7, 0), "Done"),
        (class_of_two(5, 6, 7), "Done"),
        (class_of_two(4, 6, 7), "Done"),
        (class_of_two(2, 5, 4), "Done"),
        (class_of(1, 2), "Done"),
        (bases_of_two(4, 7, 6), "NoOrder(Class(1))"),
    ];
    let _ = is_history(&rt, &below)?;
    Ok(())
}

#[test]
fn refusals_come_in_their_order(rt: HostRuntime) -> Result<(), Fail> {
    let rows = [
        (class_of(1, 0), "Done"),
        (class_of(3, 1), "Done"),
        (bases_of(1, 3), "Cycle"),
        (Op::SetBases(class(1), Bases::none()), "EmptyBases"),
        (bases_of(0, 1), "Immutable"),
        (bases_of(1, 1), "Cycle"),
        (bases_of_two(1, 0, 0), "Duplicate"),
        (bases_of(1, 9), "NoClass"),
        (bases_of(9, 1), "NoClass"),
        (class_of_two(5, 1, 1), "Duplicate"),
        (class_of(1, 1), "NameTaken"),
        (Op::NewClass(class(5), Bases::none()), "EmptyBases"),
        (put(0, 1), "Immutable"),
        (put(9, 1), "NoClass"),
        (
            Op::TypeSet(class(9), name(5), Value::Obj(Obj::new(0).unwrap())),
            "NoAttr",
        ),
        (
            Op::TypeSet(Class::object(), name(5), Value::Class(class(9))),
            "NoClass",
        ),
        (Op::TypeDel(class(1), name(5)), "NoAttr"),
        (Op::TypeDel(Class::object(), name(5)), "Immutable"),
        (Op::TypeDel(class(9), name(5)), "NoClass"),
    ];
    let _ = is_history(&rt, &rows)?;
    Ok(())
}

/// Classes 1 A, 2 B, 3 T of A and B, 4 X and 5 Y of T, 6 Z of X and Y. As T is given the bases B and A, its subclasses
/// come to their new orders together; where they came one by one, Z had none for a moment.
#[test]
fn bases_are_judged_by_the_orders_at_the_end(rt: HostRuntime) -> Result<(), Fail> {
    let rows = [
        (class_of(1, 0), "Done"),
        (class_of(2, 0), "Done"),
        (class_of_two(3, 1, 2), "Done"),
        (class_of(4, 3), "Done"),
        (class_of(5, 3), "Done"),
        (class_of_two(6, 4, 5), "Done"),
        (put(1, 1), "Done"),
        (put(2, 2), "Done"),
    ];
    let mut types = is_history(&rt, &rows)?;
    assert_eq!(rt; types.find(class(6), name(5)), Some(Value::Int(1)));
    assert_eq!(rt;
        types.find_after(class(1), class(6), name(5)),
        Some(Value::Int(2))
    );
    assert_eq!(rt; types.find_after(class(2), class(6), name(5)), None);
    assert_eq!(rt; types.find_after(class(6), class(3), name(5)), None);
    replies(&rt, &mut types, &[(bases_of_two(3, 2, 1), "Done")])?;
    assert_eq!(rt; types.find(class(6), name(5)), Some(Value::Int(2)));
    has_order(
        &rt,
        &types,
        6,
        "Some(ClassList { items: [6, 4, 5, 3, 2, 1, 0] })",
    )?;
    replies(&rt, &mut types, &[(bases_of(3, 1), "Done")])?;
    has_order(&rt, &types, 5, "Some(ClassList { items: [5, 3, 1, 0] })")?;
    let list = types.below(class(0), &[false; 255])?;
    assert_eq!(rt; list.as_slice(), [6, 4, 5, 3, 1, 2, 0].as_slice());
    assert_eq!(rt; types.own_at(class(1), 0), Some((name(5), Value::Int(1))));
    assert_eq!(rt; types.own_at(class(1), 1), None);
    assert_eq!(rt; types.own_at(class(9), 0), None);
    Ok(())
}
