//! Worked histories of classes, and of a pool of three tags.

ghost use Rattle.std.specs.Prelude.{◌<◌};
ghost use Rattle.at_value.specs.Widths as widths;

mod pool;
mod worked;

use crate::Types;
use at_value::{Bases, Class, Name, Obj, Op, Reply, Value};
use std::alloc::AllocError;
use std::process::Abort;
use std::test::Fail;

fn class(n: u16) -> Class
    requires { n < widths.classes }
{
    Class::new(n).unwrap()
}

fn name(n: u16) -> Name
    requires { n < widths.names }
{
    Name::new(n).unwrap()
}

/// The list of two bases.
fn two(first: u16, second: u16) -> Bases
    requires { (first < widths.classes) × (second < widths.classes) }
{
    let mut bases = Bases::only(class(first));
    let _ = bases.push(class(second));
    bases
}

/// Makes a class with one base.
fn class_of(c: u16, base: u16) -> Op
    requires { (c < widths.classes) × (base < widths.classes) }
{
    Op::NewClass(class(c), Bases::only(class(base)))
}

/// Makes a class with two bases.
fn class_of_two(c: u16, first: u16, second: u16) -> Op
    requires { (c < widths.classes) × ((first < widths.classes) × (second < widths.classes)) }
{
    Op::NewClass(class(c), two(first, second))
}

/// Gives a class one base.
fn bases_of(c: u16, base: u16) -> Op
    requires { (c < widths.classes) × (base < widths.classes) }
{
    Op::SetBases(class(c), Bases::only(class(base)))
}

/// Gives a class two bases.
fn bases_of_two(c: u16, first: u16, second: u16) -> Op
    requires { (c < widths.classes) × ((first < widths.classes) × (second < widths.classes)) }
{
    Op::SetBases(class(c), two(first, second))
}

/// Puts a number under name 5 of a class.
fn put(c: u16, value: i32) -> Op
    requires { c < widths.classes }
{
    Op::TypeSet(class(c), name(5), Value::Int(value))
}

/// The reply to an operation on classes; no other is applied.
fn apply(types: &mut Types, op: &Op) -> Result<Reply, AllocError> {
    match op {
        Op::NewClass(c, bases) => types.define(*c, bases),
        Op::TypeSet(c, n, v) => types.put(*c, *n, *v),
        Op::TypeDel(c, n) => Ok(types.cut(*c, *n)),
        Op::SetBases(c, bases) => types.rebase(*c, bases),
        _ => Ok(Reply::NoAttr),
    }
}

/// What the reply to an operation on classes would be.
fn would(types: &Types, op: &Op) -> Result<Option<Reply>, AllocError> {
    match op {
        Op::NewClass(_, _) | Op::TypeSet(_, _, _) | Op::TypeDel(_, _) | Op::SetBases(_, _) => Ok(
            Some(types.would(op)?),
        ),
        _ => Ok(None),
    }
}

/// Applies the operations in turn, and compares each reply as it is printed for debugging, and before each what the reply
/// would be.
fn replies<R: Abort + AllocGlobal>(
    rt: &R,
    types: &mut Types,
    rows: &[(Op, &str)],
) -> Result<(), Fail> {
    for (op, wanted) in rows {
        if let Some(reply) = would(types, op)? {
            let text = format!(in rt.alloc(); "{reply:?}")?;
            assert_eq!(rt; text.as_str(), *wanted, "would {op:?}");
        }
        let reply = apply(types, op)?;
        let text = format!(in rt.alloc(); "{reply:?}")?;
        assert_eq!(rt; text.as_str(), *wanted, "{op:?}");
    }
    Ok(())
}

/// Compares the order of a class as it is printed for debugging.
fn has_order<R: Abort + AllocGlobal>(
    rt: &R,
    types: &Types,
    c: u16,
    wanted: &str,
) -> Result<(), Fail>
    requires { c < widths.classes }
{
    let text = format!(in rt.alloc(); "{:?}", types.order_of(class(c)))?;
    assert_eq!(rt; text.as_str(), wanted);
    Ok(())
}
