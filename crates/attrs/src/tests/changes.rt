//! Runs of scripts in which one line is changed. Each is then no run of its script any more, or isn't legal.
use super::judging::{Breaks, broken_by};
use super::legality::told;
use at_line::{Line, LineOp, LineReply, Local, MAIN_THREAD, What};
use at_run::run_plain;
use at_script::{Script, read};
use at_value::{Class, Func, HookKind, Name, Obj, Op, Path, Place, Reply, Value};
use at_world::Plain;
use std::alloc::{AllocError, Global};
use std::process::Abort;
use std::test::Fail;

/// A reply in the place of another.
#[derive(Clone, Copy)]
pub enum Anew {
    NoAttr,
    Done,
    Made(Obj),
    Value(Value),
    NoOrder(Class),
    Hook(HookKind, Value, Value, Value, Value),
    Suspended,
}

/// How one line is changed.
#[derive(Clone, Copy)]
pub enum Change {
    /// It is left out, and the lines after it are numbered anew.
    LeftOut,
    /// It stands twice, and the lines after it are numbered anew.
    Doubled,
    /// It and the next one are swapped, and numbered anew.
    Swapped,
    Number(u32),
    Thread(u8),
    /// It is of another thread, and all lines are numbered anew.
    Moved(u8),
    At(u64),
    By(Path),
    Asks(LineOp),
    Replies(Anew),
    Says(Local),
}

/// A line that was changed, from 1, how, and what isn't so then.
pub type Row = (usize, Change, Breaks);

fn reply_anew(anew: &Anew) -> LineReply {
    LineReply::Of(match anew {
        Anew::NoAttr => Reply::NoAttr,
        Anew::Done => Reply::Done,
        Anew::Made(object) => Reply::Made(*object, None),
        Anew::Value(value) => Reply::Value(*value),
        Anew::NoOrder(class) => Reply::NoOrder(*class),
        Anew::Hook(kind, callee, receiver, other, value) => {
            Reply::Hook(*kind, *callee, *receiver, *other, *value)
        }
        Anew::Suspended => return LineReply::Suspended(1),
    })
}

/// Changes what a line says that did an operation.
fn change_what(what: &mut What, change: &Change) {
    let What::Did(place, path, op, reply) = what else {
        return;
    };
    match change {
        Change::At(other) => *place = Place(*other),
        Change::By(other) => *path = *other,
        Change::Asks(other) => *op = *other,
        Change::Replies(anew) => *reply = reply_anew(anew),
        _ => {}
    }
}

fn change_line(line: &mut Line, change: &Change) {
    match change {
        Change::Number(number) => line.number = *number,
        Change::Thread(thread) | Change::Moved(thread) => line.thread = *thread,
        Change::Says(local) => line.what = What::Local(*local),
        _ => change_what(&mut line.what, change),
    }
}

fn change_line_at(lines: &mut [Line], at: usize, change: &Change) {
    if let Some(line) = lines.get_mut(at) {
        change_line(line, change);
    }
}

/// The line again, with the reply of the data model, which goes on with it.
fn line_again(plain: &mut Plain, line: &Line) -> Result<Line, AllocError> {
    let what = match &line.what {
        What::Did(_, _, op, _) => told(plain, op)?,
        What::Local(local) => What::Local(*local),
    };
    Ok(Line {
        what,
        number: line.number,
        thread: line.thread,
    })
}

/// Adds the line, and once more where it is doubled. Only a read may be: a write would be done twice.
fn add_line(
    lines: &mut Vec<Line>,
    plain: &mut Plain,
    line: &Line,
    is_doubled: bool,
) -> Result<(), AllocError> {
    lines.push(line_again(plain, line)?)?;
    if is_doubled {
        lines.push(line_again(plain, line)?)?;
    }
    Ok(())
}

/// The lines again, where the one at this index may stand twice.
fn lines_by(
    alloc: Global,
    plain: &mut Plain,
    lines: &[Line],
    at: usize,
    is_doubled: bool,
) -> Result<Vec<Line>, AllocError> {
    let mut anew = Vec::new(alloc);
    for (i, line) in lines.iter().enumerate() {
        add_line(&mut anew, plain, line, is_doubled && i == at)?;
    }
    Ok(anew)
}

/// The lines of a run anew, where the one at this index may stand twice. They are the run's own, since those were found
/// to be so in the data model.
fn lines_anew(
    alloc: Global,
    lines: &[Line],
    at: usize,
    is_doubled: bool,
) -> Result<Vec<Line>, AllocError> {
    let mut plain = Plain::new(alloc)?;
    lines_by(alloc, &mut plain, lines, at, is_doubled)
}

fn leave_out(lines: &mut Vec<Line>, at: usize) {
    if at < lines.len() {
        let _ = lines.remove(at);
    }
}

fn swap_with_next(lines: &mut [Line], at: usize) {
    if at < lines.len() && 1 < lines.len() - at {
        lines.swap(at, at + 1);
    }
}

/// Numbers the lines of each thread from 1.
fn number_anew(lines: &mut [Line]) {
    let mut thread = MAIN_THREAD;
    let mut number = 0_u32;
    for line in lines {
        if line.thread != thread {
            thread = line.thread;
            number = 0;
        }
        number = number.wrapping_add(1);
        line.number = number;
    }
}

/// Changes the line at this index, which stands twice already where it is to be doubled.
fn change_lines(lines: &mut Vec<Line>, at: usize, change: &Change) {
    match change {
        Change::LeftOut => leave_out(lines, at),
        Change::Doubled => {}
        Change::Swapped => swap_with_next(lines, at),
        _ => change_line_at(lines, at, change),
    }
}

/// What isn't so of the lines once the one at this index is changed.
fn broken_by_change(
    alloc: Global,
    script: &Script,
    lines: &[Line],
    at: usize,
    change: &Change,
) -> Result<Breaks, Fail> {
    let is_doubled = matches!(change, Change::Doubled);
    let mut changed = lines_anew(alloc, lines, at, is_doubled)?;
    change_lines(&mut changed, at, change);
    if is_doubled || matches!(change, Change::LeftOut | Change::Swapped | Change::Moved(_)) {
        number_anew(&mut changed);
    }
    broken_by(alloc, script, &changed)
}

/// Changes one line of a run at a time.
fn try_lines<R: Abort>(
    rt: &R,
    alloc: Global,
    script: &Script,
    lines: &[Line],
    rows: &[Row],
) -> Result<(), Fail> {
    assert_eq!(rt; broken_by(alloc, script, lines)?, Breaks::Nothing);
    for (i, (number, change, wanted)) in rows.iter().enumerate() {
        let broken = broken_by_change(alloc, script, lines, number.saturating_sub(1), change)?;
        assert_eq!(rt; broken, *wanted, "row {i}, of line {number}");
    }
    Ok(())
}

/// Runs the script, whose lines are as many, and changes one line at a time.
fn try_script<R: Abort>(
    rt: &R,
    alloc: Global,
    script: &Script,
    count: usize,
    rows: &[Row],
) -> Result<(), Fail> {
    let ran = run_plain(alloc, script)?;
    assert_eq!(rt; ran.lines.len(), count);
    try_lines(rt, alloc, script, ran.lines.items(), rows)
}

/// Runs the script of this text, whose lines are as many, and changes one line at a time.
pub fn tries<R: Abort>(
    rt: &R,
    alloc: Global,
    text: &str,
    count: usize,
    rows: &[Row],
) -> Result<(), Fail> {
    let script = read(alloc, text.as_bytes())?;
    try_script(rt, alloc, &script, count, rows)
}

fn class(n: u16) -> Class {
    Class::new(n).unwrap_or(Class::object())
}

/// The name of this number, or `__init__` where there is none.
pub fn name(n: u16) -> Name {
    Name::new(n).unwrap_or(Name::init())
}

/// The object of this number, or a fault where there is none.
pub fn object(n: u16) -> Result<Obj, Fail> {
    Ok(Obj::new(n).ok_or("object")?)
}

/// The change that a line asks for this operation.
pub fn asks(op: Op) -> Change {
    Change::Asks(LineOp::Of(op))
}

/// Changes of a line itself, of two objects.
fn first_rows(b: Obj) -> [Row; 12] {
    let two = Anew::Value(Value::Int(2));
    [
        // The last line is missing, and one more stands at the end.
        (5, Change::LeftOut, Breaks::Run),
        (5, Change::Doubled, Breaks::Run),
        (2, Change::LeftOut, Breaks::Both),
        (2, Change::Swapped, Breaks::Both),
        (4, Change::Number(5), Breaks::Run),
        (4, Change::Thread(1), Breaks::Run),
        // A place before the object, and a place that no write has.
        (4, Change::At(2), Breaks::Law),
        (4, Change::At(4), Breaks::Law),
        (2, Change::At(1), Breaks::Law),
        (4, Change::By(Path::Fast), Breaks::Law),
        (4, Change::Replies(two), Breaks::Law),
        (3, Change::Replies(Anew::Made(b)), Breaks::Both),
    ]
}

/// Changes of the operation of a line.
fn first_operations(a: Obj, c: Class, x: Name) -> [Row; 4] {
    [
        // Two reads that reply the same, and one that doesn't.
        (4, asks(Op::TypeGet(c, x)), Breaks::Run),
        (4, asks(Op::Special(a, x)), Breaks::Run),
        (4, asks(Op::Get(a, Name::init())), Breaks::Both),
        (2, asks(Op::TypeSet(c, x, Value::Int(2))), Breaks::Both),
    ]
}

#[test]
fn changes_of_a_first_path(rt: HostRuntime) -> Result<(), Fail> {
    tries(&rt, rt.alloc(), super::FIRST, 5, &first_rows(object(1)?))
}

#[test]
fn changes_of_operations(rt: HostRuntime) -> Result<(), Fail> {
    let rows = first_operations(object(0)?, class(1), name(5));
    tries(&rt, rt.alloc(), super::FIRST, 5, &rows)
}

const REFUSING: &str = "attrs 1
func f
end
main
class A
class B
class X A B
class Y B A
class Z X Y
put A.__init__ 5
put X.x f
new a X
get a.x
set a.y 3
del a.z
get q.x
mro X
super A a.x
end
";

fn refusing_rows(a: Obj) -> [Row; 14] {
    let value = Anew::Value(Value::Nothing);
    let other_order = Anew::NoOrder(class(4));
    [
        (1, Change::Swapped, Breaks::Both),
        // A class without an order is refused by its own name, and isn't made.
        (5, Change::Replies(Anew::Done), Breaks::Law),
        (5, Change::Replies(other_order), Breaks::Law),
        // The object's init is called, and can't be called.
        (8, Change::Replies(Anew::Made(a)), Breaks::Both),
        (9, Change::LeftOut, Breaks::Run),
        (9, Change::Doubled, Breaks::Run),
        (9, Change::Says(Local::Depth), Breaks::Run),
        (10, Change::Replies(value), Breaks::Law),
        // A write of another value, which nobody reads.
        (11, asks(Op::Set(a, name(6), Value::Int(4))), Breaks::Run),
        (12, Change::Replies(Anew::Done), Breaks::Law),
        (12, Change::Swapped, Breaks::Run),
        (13, Change::Says(Local::Unbound(0)), Breaks::Run),
        (13, Change::Says(Local::Kind), Breaks::Run),
        (14, Change::Replies(Anew::Done), Breaks::Law),
    ]
}

#[test]
fn changes_of_refusals(rt: HostRuntime) -> Result<(), Fail> {
    tries(&rt, rt.alloc(), REFUSING, 15, &refusing_rows(object(0)?))
}

const CALLING: &str = "attrs 1
func f
end
main
class D
class C
put D.__get__ f
put D.__set__ 7
new d D
put C.x d
new a C
get a.x
set a.x d
get C.x
classof a
set C.x 1
cut C.x
get a.x
end
";

/// A hook of an object that is a descriptor, read by another object of the class of this number.
fn hook(kind: HookKind, callee: Value, d: Obj, a: Obj, owner: u16) -> Change {
    let owner = Value::Class(class(owner));
    Change::Replies(Anew::Hook(kind, callee, Value::Obj(d), Value::Obj(a), owner))
}

/// Changes of a hook: the hook itself, its kind, its class and its callee. The function says nothing.
fn hook_rows(d: Obj, a: Obj, f: Func) -> [Row; 4] {
    let value = Change::Replies(Anew::Value(Value::Nothing));
    let getter = hook(HookKind::Getter, Value::Func(f), d, a, 2);
    let of_another = hook(HookKind::DescGet, Value::Func(f), d, a, 1);
    let no_function = hook(HookKind::DescGet, Value::Int(7), d, a, 2);
    [
        (8, value, Breaks::Law),
        (8, getter, Breaks::Law),
        (8, of_another, Breaks::Law),
        (8, no_function, Breaks::Both),
    ]
}

fn calling_rows(d: Obj) -> [Row; 8] {
    [
        // A hook of a write isn't a write.
        (9, Change::Replies(Anew::Done), Breaks::Both),
        (9, Change::At(8), Breaks::Law),
        (12, asks(Op::ClassOf(d)), Breaks::Both),
        (13, Change::Says(Local::NotCallable), Breaks::Run),
        (14, asks(Op::TypeDel(class(1), name(5))), Breaks::Both),
        // The history has room, and no read needs any.
        (14, Change::Says(Local::Full(7)), Breaks::Law),
        (15, Change::Says(Local::Full(8)), Breaks::Both),
        (15, Change::At(7), Breaks::Law),
    ]
}

#[test]
fn changes_of_hooks(rt: HostRuntime) -> Result<(), Fail> {
    let f = Func::new(0).ok_or("function")?;
    let rows = hook_rows(object(0)?, object(1)?, f);
    tries(&rt, rt.alloc(), CALLING, 15, &rows)
}

#[test]
fn changes_of_calls(rt: HostRuntime) -> Result<(), Fail> {
    tries(&rt, rt.alloc(), CALLING, 15, &calling_rows(object(0)?))
}
