//! The run of a script of four blocks, in which one line is changed.
use super::changes::{Anew, Change, Row, asks, name, object, tries};
use super::judging::Breaks;
use at_line::{LineOp, Local};
use at_value::{Obj, Op, Path, Value};
use std::test::Fail;

/// The last line of the first thread is that of its budget.
const SCRIPT: &str = "attrs 1
budget 6
func f
set self.y arg
return arg
end
main
class C
new a C
put C.f f
let b 1
new d C
end
thread
begin a
set a.x b
finish
call a.f 2
get a.y
end
thread
begin a
get a.y
finish
set d.x b
get q.x
end
finally
begin d
get a.y
finish
get a.x
set a.z it
end
";

/// How many lines it has: four of `main`, six and five of the threads, and five of `finally`.
const COUNT: usize = 20;

const PLACES: [Row; 14] = [
    // A place has two writes, and another has none.
    (4, Change::At(5), Breaks::Law),
    (6, Change::At(4), Breaks::Law),
    (9, Change::At(7), Breaks::Law),
    (14, Change::At(9), Breaks::Law),
    (20, Change::At(7), Breaks::Law),
    // A thread goes back behind `main`, and `finally` behind a thread.
    (5, Change::At(3), Breaks::Law),
    (17, Change::At(6), Breaks::Law),
    // Past the last write.
    (5, Change::At(9), Breaks::Law),
    (13, Change::At(9), Breaks::Law),
    // Places fall in a thread, or a write has that of the read before.
    (7, Change::At(4), Breaks::Law),
    (8, Change::At(4), Breaks::Law),
    (12, Change::At(7), Breaks::Law),
    (19, Change::At(8), Breaks::Law),
    // The first thread writes the object of the section.
    (11, Change::At(5), Breaks::Law),
];

#[test]
fn places_of_blocks(rt: HostRuntime) -> Result<(), Fail> {
    tries(&rt, rt.alloc(), SCRIPT, COUNT, &PLACES)
}

const THREADS: [Row; 12] = [
    (4, Change::Thread(1), Breaks::Run),
    (5, Change::Thread(2), Breaks::Run),
    (10, Change::Thread(0), Breaks::Run),
    (14, Change::Thread(1), Breaks::Run),
    (5, Change::Thread(33), Breaks::Both),
    (19, Change::Thread(0), Breaks::Both),
    // A thread that the script hasn't.
    (19, Change::Thread(34), Breaks::Run),
    // The last line of a block begins the next one, and the other way round.
    (4, Change::Moved(1), Breaks::Run),
    (10, Change::Moved(2), Breaks::Run),
    (11, Change::Moved(1), Breaks::Run),
    (15, Change::Moved(33), Breaks::Run),
    (16, Change::Moved(2), Breaks::Run),
];

#[test]
fn threads_of_lines(rt: HostRuntime) -> Result<(), Fail> {
    tries(&rt, rt.alloc(), SCRIPT, COUNT, &THREADS)
}

const ORDER: [Row; 13] = [
    (5, Change::Number(5), Breaks::Run),
    (10, Change::Number(5), Breaks::Run),
    (11, Change::Number(0), Breaks::Run),
    (20, Change::Number(6), Breaks::Run),
    (7, Change::LeftOut, Breaks::Run),
    (10, Change::LeftOut, Breaks::Run),
    (14, Change::LeftOut, Breaks::Both),
    (15, Change::LeftOut, Breaks::Run),
    (20, Change::LeftOut, Breaks::Run),
    (12, Change::Doubled, Breaks::Run),
    (15, Change::Doubled, Breaks::Run),
    (6, Change::Swapped, Breaks::Both),
    (15, Change::Swapped, Breaks::Run),
];

#[test]
fn lines_of_blocks(rt: HostRuntime) -> Result<(), Fail> {
    tries(&rt, rt.alloc(), SCRIPT, COUNT, &ORDER)
}

const NINE: Change = Change::Replies(Anew::Value(Value::Int(9)));

/// Replies, of which the second object is one.
fn replies(b: Obj) -> [Row; 10] {
    [
        (2, Change::Replies(Anew::Made(b)), Breaks::Both),
        // A begin that is refused opens no section.
        (5, Change::Replies(Anew::NoAttr), Breaks::Both),
        // A write that has no place any more.
        (6, Change::Replies(Anew::NoAttr), Breaks::Law),
        (7, Change::Replies(Anew::Done), Breaks::Both),
        (8, NINE, Breaks::Both),
        (12, NINE, Breaks::Law),
        (12, Change::Replies(Anew::NoAttr), Breaks::Law),
        // Nobody disturbs a section of `finally`.
        (18, Change::Replies(Anew::Suspended), Breaks::Law),
        // The next line uses the value.
        (19, NINE, Breaks::Both),
        (16, Change::By(Path::Fast), Breaks::Law),
    ]
}

#[test]
fn replies_in_blocks(rt: HostRuntime) -> Result<(), Fail> {
    tries(&rt, rt.alloc(), SCRIPT, COUNT, &replies(object(1)?))
}

/// A section of a thread may say that it was suspended.
const SUSPENDED: [Row; 2] = [
    (7, Change::Replies(Anew::Suspended), Breaks::Nothing),
    (13, Change::Replies(Anew::Suspended), Breaks::Nothing),
];

#[test]
fn sections_may_be_suspended(rt: HostRuntime) -> Result<(), Fail> {
    tries(&rt, rt.alloc(), SCRIPT, COUNT, &SUSPENDED)
}

/// Local lines. The variables a and b are those with the numbers 0 and 1, which `main` has bound.
const LOCALS: [Row; 13] = [
    // The budget, before it is used up.
    (8, Change::Says(Local::Budget), Breaks::Run),
    (9, Change::Says(Local::Budget), Breaks::Both),
    (15, Change::Says(Local::Budget), Breaks::Run),
    (19, Change::Says(Local::Budget), Breaks::Run),
    (10, Change::Says(Local::Depth), Breaks::Run),
    // A variable that is bound.
    (5, Change::Says(Local::Unbound(0)), Breaks::Run),
    (12, Change::Says(Local::Unbound(0)), Breaks::Run),
    (14, Change::Says(Local::Unbound(1)), Breaks::Both),
    (17, Change::Says(Local::Unbound(0)), Breaks::Run),
    (15, Change::Says(Local::Kind), Breaks::Run),
    // No limit is met, and no read has any.
    (20, Change::Says(Local::Full(8)), Breaks::Law),
    (20, Change::Says(Local::Worn(2)), Breaks::Law),
    (19, Change::Says(Local::Full(7)), Breaks::Both),
];

#[test]
fn local_lines_of_blocks(rt: HostRuntime) -> Result<(), Fail> {
    tries(&rt, rt.alloc(), SCRIPT, COUNT, &LOCALS)
}

const TWO: Value = Value::Int(2);

/// Other operations on both objects. The names y, f, x and z have the numbers from 5 on.
fn operations(a: Obj, b: Obj) -> [Row; 6] {
    [
        (5, Change::Asks(LineOp::Begin(b, None)), Breaks::Run),
        (6, asks(Op::Set(a, name(7), TWO)), Breaks::Both),
        (12, asks(Op::Get(b, name(5))), Breaks::Both),
        (14, asks(Op::Set(b, name(7), TWO)), Breaks::Run),
        (17, asks(Op::Get(a, name(7))), Breaks::Both),
        (20, asks(Op::Set(a, name(8), TWO)), Breaks::Run),
    ]
}

#[test]
fn operations_in_blocks(rt: HostRuntime) -> Result<(), Fail> {
    let rows = operations(object(0)?, object(1)?);
    tries(&rt, rt.alloc(), SCRIPT, COUNT, &rows)
}
