//! The budget, and what is numbered.
use super::{Offence, assert_texts, script_of};
use crate::{Block, Cause, Operand, Stmt, Target};
use at_value::{Func, Prop, Value};
use std::test::Fail;

const BUDGETS: [(&str, Offence); 9] = [
    ("attrs 1\nbudget 1\nmain\nend\n", None),
    ("attrs 1\nbudget 100000\nmain\nend\n", None),
    ("attrs 1\nbudget 0\nmain\nend\n", Some((2, Cause::Number))),
    (
        "attrs 1\nbudget 100001\nmain\nend\n",
        Some((2, Cause::Number)),
    ),
    ("attrs 1\nbudget -5\nmain\nend\n", Some((2, Cause::Number))),
    (
        "attrs 1\nbudget 4294967297\nmain\nend\n",
        Some((2, Cause::Number)),
    ),
    ("attrs 1\nbudget 007\nmain\nend\n", Some((2, Cause::Form))),
    ("attrs 1\nbudget a\nmain\nend\n", Some((2, Cause::Form))),
    ("attrs 1\nbudget\nmain\nend\n", Some((2, Cause::Form))),
];

#[test]
fn budgets(rt: HostRuntime) -> Result<(), Fail> {
    assert_texts(&rt, rt.alloc(), &BUDGETS)
}

/// Variables are numbered in the order of their words, and a function isn't one.
#[test]
fn operands(rt: HostRuntime) -> Result<(), Fail> {
    let text = "attrs 1\nfunc f\nend\nmain\nshare a b\nlet c prop:f,-,f\nbegin it c\nfinish\nend\n";
    let script = script_of(rt.alloc(), text)?;
    let property = Prop::new(Func::new(0), None, Func::new(0));
    let main = [
        Stmt::Share(Target::Var(0), Target::Var(1)),
        Stmt::Let(2, Operand::Value(Value::Prop(property))),
        Stmt::Begin(Target::It, Some(Target::Var(2))),
        Stmt::Finish,
    ];
    assert!(rt; script.block(Block::Main) == Some(main.as_slice()));
    Ok(())
}
