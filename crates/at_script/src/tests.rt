//! Bytes that are scripts, and what is first wrong with bytes that aren't.

mod limits;
mod lines;
mod numbers;
mod texts;

use crate::{Block, Cause, Operand, ReadFault, Script, Stmt, Target, read};
use at_value::{Bases, Class, Name, Value};
use std::alloc::Global;
use std::mem::size_of;
use std::process::Abort;
use std::test::Fail;

/// What is first wrong with a text: the line and the cause.
type Offence = Option<(u32, Cause)>;

/// The script of the text.
fn script_of(alloc: Global, text: &str) -> Result<Script, Fail> {
    Ok(read(alloc, text.as_bytes())?)
}

fn offence_of(alloc: Global, bytes: &[u8]) -> Result<Offence, Fail> {
    match read(alloc, bytes) {
        Ok(_) => Ok(None),
        Err(ReadFault::Refused { line, cause }) => Ok(Some((line, cause))),
        Err(ReadFault::NoMemory) => Err("out of memory".into()),
    }
}

/// What is first wrong with each text is as its row says.
fn assert_texts<R: Abort>(rt: &R, alloc: Global, rows: &[(&str, Offence)]) -> Result<(), Fail> {
    for (text, wanted) in rows {
        assert!(rt; offence_of(alloc, text.as_bytes())? == *wanted, "{text:?}");
    }
    Ok(())
}

/// A thread may be handed a value of this type, and share it.
fn may_cross_threads<T: Send + Sync>(_value: &T) {}

#[test]
fn a_script_may_cross_threads(rt: HostRuntime) -> Result<(), Fail> {
    may_cross_threads(&script_of(rt.alloc(), "attrs 1\nmain\nend\n")?);
    Ok(())
}

#[test]
fn faults_as_text(rt: HostRuntime) -> Result<(), Fail> {
    let refused = ReadFault::Refused {
        line: 3,
        cause: Cause::Byte,
    };
    let refused = format!(in rt.alloc(); "{refused}")?;
    let no_memory = format!(in rt.alloc(); "{}", ReadFault::NoMemory)?;
    assert_eq!(rt; refused.as_str(), "line 3: a byte that no script has");
    assert_eq!(rt; no_memory.as_str(), "out of memory");
    Ok(())
}

#[test]
fn statements_are_small(rt: HostRuntime) {
    assert!(rt; size_of::<Stmt>() <= 28);
}

const FIRST_PATH: &str = "attrs 1\nmain\nclass C\nput C.x 1\nnew a C\nget a.x\nget a.x\nend\n";

/// How many bytes the text is cut to, and what is first wrong with those.
const CUTS: [(usize, Offence); 8] = [
    (0, Some((1, Cause::Header))),
    (6, Some((1, Cause::Header))),
    (7, Some((2, Cause::End))),
    (53, Some((7, Cause::Form))),
    (55, Some((8, Cause::End))),
    (57, Some((8, Cause::Word))),
    (58, None),
    (59, None),
];

#[test]
fn cuts(rt: HostRuntime) -> Result<(), Fail> {
    let text = FIRST_PATH.as_bytes();
    assert_eq!(rt; text.len(), 59);
    for (length, wanted) in CUTS {
        let Some(cut) = text.get(..length) else {
            return Err("too long".into());
        };
        assert!(rt; offence_of(rt.alloc(), cut)? == wanted, "{length}");
    }
    Ok(())
}

const WHOLE: &str = "attrs 1
budget 7
func f
return arg
end
func g
end
main
class C
put C.f f
new a C 4
end
thread
get a.x
end
thread
end
finally
mro C
end
";

fn has_block(script: &Script, block: Block, statements: &[Stmt]) -> bool {
    script.block(block) == Some(statements)
}

fn class() -> Class {
    Class::new(1).unwrap()
}

fn name(number: u16) -> Name {
    Name::new(number).unwrap_or(Name::init())
}

fn func(number: u16) -> Block {
    match at_value::Func::new(number) {
        Some(func) => Block::Func(func),
        None => Block::Main,
    }
}

fn assert_blocks<R: Abort>(rt: &R, script: &Script) {
    let first = at_value::Func::new(0).unwrap();
    let main = [
        Stmt::Class(class(), Bases::only(Class::object())),
        Stmt::Put(class(), name(5), Operand::Value(Value::Func(first))),
        Stmt::New(0, class(), Some(Operand::Value(Value::Int(4)))),
    ];
    assert!(rt; has_block(script, func(0), &[Stmt::Return(Operand::Arg)]));
    assert!(rt; has_block(script, func(1), &[]));
    assert!(rt; has_block(script, Block::Main, &main));
    assert!(rt;
        has_block(
            script,
            Block::Thread(0),
            &[Stmt::Get(Target::Var(0), name(6))]
        )
    );
    assert!(rt; has_block(script, Block::Thread(1), &[]));
    assert!(rt; has_block(script, Block::Finally, &[Stmt::Mro(class())]));
}

fn assert_no_more<R: Abort>(rt: &R, script: &Script) {
    assert!(rt; script.block(func(2)).is_none());
    assert!(rt; script.block(Block::Thread(2)).is_none());
    assert_eq!(rt; script.budget(), 7);
    assert_eq!(rt; script.threads(), 2);
    assert_eq!(rt; script.class_text(class()), Some("C"));
    assert_eq!(rt; script.name_text(name(5)), Some("f"));
    assert_eq!(rt; script.var_text(0), Some("a"));
    assert_eq!(rt; script.var_text(1), None);
}

#[test]
fn a_whole_script(rt: HostRuntime) -> Result<(), Fail> {
    let script = script_of(rt.alloc(), WHOLE)?;
    assert_blocks(&rt, &script);
    assert_no_more(&rt, &script);
    Ok(())
}

#[test]
fn a_script_of_main_alone(rt: HostRuntime) -> Result<(), Fail> {
    let script = script_of(rt.alloc(), "attrs 1\nmain\nend\n")?;
    assert!(rt; has_block(&script, Block::Main, &[]));
    assert!(rt; script.block(Block::Finally).is_none());
    assert!(rt; script.block(Block::Thread(0)).is_none());
    assert_eq!(rt; script.budget(), 10_000);
    assert_eq!(rt; script.threads(), 0);
    Ok(())
}
