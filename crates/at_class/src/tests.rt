//! Operations on classes, each by its call, with their places and replies.
ghost use Rattle.std.specs.Prelude.{◌<◌, IfOk};
ghost use Rattle.at_value.specs.Widths as widths;
ghost use Rattle.at_core.specs.Passes.{IsOf};
ghost use Rattle.at_section.specs.Surfaces.{Surface};

use crate::{ClassFault, bases, cut, new_class, put};
use at_core::note::MOST_NOTES;
use at_core::{OpenFault, Pass, World};
use at_super::{class_get, class_of, mro, special, super_get};
use at_value::{Answer, Bases, Class, Limits, Name, Obj, Op, Value};
use std::alloc::{AllocError, Global};
use std::process::Abort;
use std::sync::Wait;
use std::test::Fail;

/// A world with room for so many writes, and its first pass.
#[tactic(auto, using(at_section::proofs::Outside::outside))]
fn open(alloc: Global, place_max: u64) -> Result<(World, Pass), OpenFault>
    ensures { IfOk result (λ r. IsOf r.1 r.0 × Surface r.1) }
{
    let limits = Limits {
        place_max,
        ..Limits::program()
    };
    World::open(alloc, limits)
}

/// An operation on classes by its call; no other is done.
fn apply<R: Wait>(
    alloc: Global,
    world: &World,
    rt: &R,
    pass: &mut Pass,
    op: &Op,
) -> Result<Option<Answer>, ClassFault>
    requires of { IsOf pass.old world.now }
    requires surface { Surface pass.old }
    ensures { IsOf pass.new world.now × Surface pass.new }
{
    if usize::from(pass.sections()) >= MOST_NOTES {
        return Ok(None);
    }
    match op {
        Op::NewClass(c, bases) => new_class(world, rt, pass, *c, bases).map(|answer| Some(answer)),
        Op::TypeSet(c, n, v) => put(world, rt, pass, *c, *n, *v).map(|answer| Some(answer)),
        Op::TypeDel(c, n) => cut(world, rt, pass, *c, *n).map(|answer| Some(answer)),
        Op::SetBases(c, list) => bases(world, rt, pass, *c, list).map(|answer| Some(answer)),
        Op::TypeGet(c, n) => Ok(Some(class_get(world, rt, pass, *c, *n))),
        Op::Super(k, o, n) => Ok(Some(super_get(world, rt, pass, *k, *o, *n))),
        Op::Special(o, n) => Ok(Some(special(world, rt, pass, *o, *n))),
        Op::ClassOf(o) => Ok(Some(class_of(world, rt, pass, *o))),
        Op::Mro(c) => match mro(alloc, world, rt, pass, *c) {
            Ok(answer) => Ok(Some(answer)),
            Err(_) => Err(ClassFault::NoMemory),
        },
        _ => Ok(None),
    }
}

/// What came of an operation: the place and the reply as it is printed for debugging, or why it wasn't done.
fn told(alloc: Global, done: Result<Option<Answer>, ClassFault>) -> Result<String, AllocError> {
    match done {
        Ok(Some(answer)) => format!(in alloc; "{} {:?}", answer.place.0, answer.reply),
        Ok(None) => format!(in alloc; "not done"),
        Err(fault) => format!(in alloc; "{fault}"),
    }
}

/// Does the operations in turn, and compares what came of each.
fn replies<R: Abort + AllocGlobal + Wait>(
    rt: &R,
    world: &World,
    pass: &mut Pass,
    rows: &[(Op, &str)],
) -> Result<(), Fail>
    requires of { IsOf pass.old world.now }
    requires surface { Surface pass.old }
{
    for (op, wanted) in rows {
        let done = apply(rt.alloc(), world, rt, pass, op);
        let text = told(rt.alloc(), done)?;
        assert_eq!(rt; text.as_str(), *wanted, "{op:?}");
    }
    Ok(())
}

fn class(n: u16) -> Class
    requires { n < widths.classes }
{
    Class::new(n).unwrap()
}

fn name(n: u16) -> Name
    requires { n < widths.names }
{
    Name::new(n).unwrap()
}

fn of_one(c: u16, base: u16) -> Op
    requires { (c < widths.classes) × (base < widths.classes) }
{
    Op::NewClass(class(c), Bases::only(class(base)))
}

fn two(first: u16, second: u16) -> Bases
    requires { (first < widths.classes) × (second < widths.classes) }
{
    let mut bases = Bases::only(class(first));
    let _ = bases.push(class(second));
    bases
}

fn object() -> Obj {
    Obj::new(0).unwrap()
}

/// Classes 1 A, 2 B and 3 C of A and B; each write has its place, and a read that of the writes before it.
#[test]
fn classes_are_written_and_read(rt: HostRuntime) -> Result<(), Fail> {
    let Ok((world, mut pass)) = open(rt.alloc(), 1_000) else {
        return Ok(());
    };
    let rows = [
        (
            Op::Mro(Class::object()),
            "0 Order(ClassList { items: [0] })",
        ),
        (of_one(1, 0), "1 Done"),
        (of_one(2, 0), "2 Done"),
        (Op::NewClass(class(3), two(1, 2)), "3 Done"),
        (
            Op::Mro(class(3)),
            "3 Order(ClassList { items: [3, 1, 2, 0] })",
        ),
        (Op::TypeSet(class(2), name(9), Value::Int(7)), "4 Done"),
        (Op::TypeGet(class(3), name(9)), "4 Value(Int(7))"),
        (Op::TypeGet(class(1), name(9)), "4 NoAttr"),
        (Op::TypeSet(class(1), name(9), Value::Int(8)), "5 Done"),
        (Op::TypeGet(class(3), name(9)), "5 Value(Int(8))"),
        (Op::SetBases(class(3), two(2, 1)), "6 Done"),
        (Op::TypeGet(class(3), name(9)), "6 Value(Int(7))"),
        (
            Op::Mro(class(3)),
            "6 Order(ClassList { items: [3, 2, 1, 0] })",
        ),
        (Op::TypeDel(class(2), name(9)), "7 Done"),
        (Op::TypeGet(class(3), name(9)), "7 Value(Int(8))"),
    ];
    replies(&rt, &world, &mut pass, &rows)
}

/// What is refused takes no place and changes nothing.
#[test]
fn refusals_take_no_place(rt: HostRuntime) -> Result<(), Fail> {
    let Ok((world, mut pass)) = open(rt.alloc(), 1_000) else {
        return Ok(());
    };
    let rows = [
        (of_one(1, 0), "1 Done"),
        (of_one(2, 1), "2 Done"),
        (of_one(1, 0), "2 NameTaken"),
        (of_one(3, 9), "2 NoClass"),
        (Op::NewClass(class(3), Bases::none()), "2 EmptyBases"),
        (Op::NewClass(class(3), two(1, 1)), "2 Duplicate"),
        (Op::NewClass(class(3), two(1, 2)), "2 NoOrder(Class(3))"),
        (Op::Mro(class(3)), "2 NoClass"),
        (Op::SetBases(class(1), Bases::only(class(2))), "2 Cycle"),
        (Op::SetBases(class(2), two(0, 1)), "2 NoOrder(Class(2))"),
        (Op::Mro(class(2)), "2 Order(ClassList { items: [2, 1, 0] })"),
        (Op::SetBases(class(0), Bases::only(class(2))), "2 Immutable"),
        (
            Op::TypeSet(class(0), name(9), Value::Nothing),
            "2 Immutable",
        ),
        (
            Op::TypeSet(class(1), name(9), Value::Class(class(5))),
            "2 NoClass",
        ),
        (
            Op::TypeSet(class(1), name(9), Value::Obj(object())),
            "2 NoAttr",
        ),
        (Op::TypeDel(class(1), name(9)), "2 NoAttr"),
        (Op::TypeGet(class(5), name(9)), "2 NoClass"),
        (Op::ClassOf(object()), "2 NoAttr"),
        (Op::Special(object(), name(9)), "2 NoAttr"),
        (Op::Super(class(1), object(), name(9)), "2 NoAttr"),
    ];
    replies(&rt, &world, &mut pass, &rows)
}

/// With room for two writes there is none for a third, and what would be refused is refused yet.
#[test]
fn places_are_full(rt: HostRuntime) -> Result<(), Fail> {
    let Ok((world, mut pass)) = open(rt.alloc(), 2) else {
        return Ok(());
    };
    let rows = [
        (of_one(1, 0), "1 Done"),
        (Op::TypeSet(class(1), name(9), Value::Int(7)), "2 Done"),
        (of_one(2, 1), "there are 2 writes, as many as there may be"),
        (Op::Mro(class(2)), "2 NoClass"),
        (of_one(1, 0), "2 NameTaken"),
        (Op::TypeDel(class(1), name(8)), "2 NoAttr"),
        (
            Op::TypeDel(class(1), name(9)),
            "there are 2 writes, as many as there may be",
        ),
        (Op::TypeGet(class(1), name(9)), "2 Value(Int(7))"),
    ];
    replies(&rt, &world, &mut pass, &rows)
}
