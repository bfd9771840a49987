//! The text of whole runs, byte by byte.
ghost use Rattle.std.specs.Prelude.{◌<◌};

mod words;

use crate::{PrintFault, examples, laws, print};
use at_line::{Line, LineOp, LineReply, Ran, What};
use at_model::{ClassEnd, Final, ObjEnd};
use at_script::read;
use at_source::MemSink;
use at_value::{
    Bases, Class, ClassList, Miss, Name, Obj, Op, Pairs, Path, Place, Reply, Sequence, Value,
};
use std::alloc::{AllocError, Global};
use std::process::Abort;
use std::test::Fail;

/// Prints the run of the script into the sink.
fn print_run(
    alloc: Global,
    script: &[u8],
    run: &Ran,
    out: &mut MemSink,
) -> Result<Result<(), PrintFault>, Fail> {
    let names = read(alloc, script)?;
    Ok(print(alloc, script, &names, run, out))
}

/// A sink that takes at most `most` bytes a write, once the run is printed.
fn printed(
    rt: &(impl Abort + Alloc<A = Global>),
    script: &[u8],
    run: &Ran,
    most: usize,
) -> Result<MemSink, Fail>
    requires { 0 < most }
{
    let alloc = rt.alloc();
    let mut out = MemSink::new(alloc, 10_000, most, Vec::new(alloc))?;
    assert_eq!(rt; print_run(alloc, script, run, &mut out)?, Ok(()));
    Ok(out)
}

/// The sink has taken this text.
fn assert_taken(rt: &impl Abort, out: &MemSink, text: &str) {
    assert_eq!(rt; out.bytes(), text.as_bytes());
}

fn class(n: u16) -> Class {
    Class::new(n).unwrap_or(Class::object())
}

fn name(n: u16) -> Name {
    Name::new(n).unwrap_or(Name::init())
}

fn object(n: u16) -> Result<Obj, Fail> {
    Ok(Obj::new(n).ok_or("no object")?)
}

/// A run of these lines, of no class and no object.
fn run_of(alloc: Global, lines: Vec<Line>) -> Ran {
    Ran {
        lines: Sequence::of(lines),
        last: Final {
            classes: Sequence::of(Vec::new(alloc)),
            objects: Sequence::of(Vec::new(alloc)),
        },
    }
}

/// A line of `main`.
fn went(number: u32, place: u64, path: Path, op: Op, reply: Reply) -> Line {
    Line {
        what: What::Did(Place(place), path, LineOp::Of(op), LineReply::Of(reply)),
        number,
        thread: 0,
    }
}

fn pairs(alloc: Global, own: &[(Name, Value)]) -> Result<Pairs, AllocError> {
    let mut pairs = Pairs::new(alloc);
    for (name, value) in own {
        pairs.put(*name, *value)?;
    }
    Ok(pairs)
}

fn class_end(
    alloc: Global,
    number: u16,
    order: &[Class],
    own: &[(Name, Value)],
) -> Result<ClassEnd, AllocError> {
    Ok(ClassEnd {
        class: class(number),
        order: ClassList::copy_of(alloc, order)?,
        own: pairs(alloc, own)?,
    })
}

const EMPTY_SCRIPT: &[u8] = b"attrs 1\nmain\nend\n";

const EMPTY: &str = "attrs transcript 1
script 17
attrs 1
main
end

lines 0
final
class object = object
end
";

#[test]
fn an_empty_run_is_printed(rt: HostRuntime) -> Result<(), Fail> {
    let alloc = rt.alloc();
    let mut classes = Vec::new(alloc);
    classes.push(class_end(alloc, 0, &[class(0)], &[])?)?;
    let mut run = run_of(alloc, Vec::new(alloc));
    run.last.classes = Sequence::of(classes);
    let out = printed(&rt, EMPTY_SCRIPT, &run, 1000)?;
    assert_taken(&rt, &out, EMPTY);
    Ok(())
}

const FIRST_PATH_SCRIPT: &[u8] =
    b"attrs 1\nmain\nclass C\nput C.x 1\nnew a C\nget a.x\nget a.x\nend\n";

const FIRST_PATH: &str = "attrs transcript 1
script 59
attrs 1
main
class C
put C.x 1
new a C
get a.x
get a.x
end

lines 5
m 1 1 locked class C object = done
m 2 2 locked put C.x 1 = done
m 3 3 locked new C = made #0
m 4 3 untagged get #0.x = value 1
m 5 3 fast get #0.x = value 1
final
class object = object
class C = C object
.x 1
object #0 C
end
";

fn first_path_lines(o: Obj) -> [Line; 5] {
    let (c, x) = (class(1), name(5));
    let made = Op::NewClass(c, Bases::only(class(0)));
    let put = Op::TypeSet(c, x, Value::Int(1));
    let miss = Path::Slow(Miss::Untagged(c));
    [
        went(1, 1, Path::Locked, made, Reply::Done),
        went(2, 2, Path::Locked, put, Reply::Done),
        went(3, 3, Path::Locked, Op::New(c), Reply::Made(o, None)),
        went(4, 3, miss, Op::Get(o, x), Reply::Value(Value::Int(1))),
        went(5, 3, Path::Fast, Op::Get(o, x), Reply::Value(Value::Int(1))),
    ]
}

fn first_path_classes(alloc: Global) -> Result<Vec<ClassEnd>, AllocError> {
    let mut classes = Vec::new(alloc);
    classes.push(class_end(alloc, 0, &[class(0)], &[])?)?;
    let own = [(name(5), Value::Int(1))];
    classes.push(class_end(alloc, 1, &[class(1), class(0)], &own)?)?;
    Ok(classes)
}

fn first_path_objects(alloc: Global) -> Result<Vec<ObjEnd>, AllocError> {
    let mut objects = Vec::new(alloc);
    objects.push(ObjEnd {
        class: class(1),
        own: Pairs::new(alloc),
    })?;
    Ok(objects)
}

fn first_path(alloc: Global) -> Result<Ran, Fail> {
    let mut lines = Vec::new(alloc);
    for line in first_path_lines(object(0)?) {
        lines.push(line)?;
    }
    let mut run = run_of(alloc, lines);
    run.last.classes = Sequence::of(first_path_classes(alloc)?);
    run.last.objects = Sequence::of(first_path_objects(alloc)?);
    Ok(run)
}

#[test]
fn the_first_path_is_printed_however_the_sink_takes_it(rt: HostRuntime) -> Result<(), Fail> {
    let run = first_path(rt.alloc())?;
    for most in [1, 7, 100_000] {
        let out = printed(&rt, FIRST_PATH_SCRIPT, &run, most)?;
        assert_taken(&rt, &out, FIRST_PATH);
    }
    Ok(())
}

/// A sink with room for `room` bytes, whose call of the number `fails` fails.
fn failing_sink(alloc: Global, room: usize, fails: u64) -> Result<MemSink, AllocError> {
    let mut calls = Vec::new(alloc);
    calls.push(fails)?;
    MemSink::new(alloc, room, 1000, calls)
}

/// Room, the call that fails, and how much of the text is written then. Without a failed write the flush is call 1.
fn faults(text: &str) -> [(usize, u64, usize); 4] {
    [
        (0, 9, 0),
        (100, 9, 100),
        (1000, 0, 0),
        (1000, 1, text.len()),
    ]
}

/// The sink has taken the prefix of the text of this length.
fn assert_prefix(rt: &impl Abort, out: &MemSink, length: usize, text: &str) {
    assert_eq!(rt; out.bytes().len(), length);
    assert!(rt; text.as_bytes().starts_with(out.bytes()));
}

#[test]
fn a_sink_that_fails_has_a_prefix(rt: HostRuntime) -> Result<(), Fail> {
    let alloc = rt.alloc();
    let run = first_path(alloc)?;
    for (room, fails, length) in faults(FIRST_PATH) {
        let mut out = failing_sink(alloc, room, fails)?;
        let printed = print_run(alloc, FIRST_PATH_SCRIPT, &run, &mut out)?;
        assert_eq!(rt; printed, Err(PrintFault::WriteFault));
        assert_prefix(&rt, &out, length, FIRST_PATH);
    }
    Ok(())
}

const NAMES_SCRIPT: &[u8] =
    b"attrs 1\nmain\nclass C\nclass D C\nput C.zeta 1\nput C.b 1\nput C.B 1\nput C.ab 1\nput D.a 1\nnew v C\nend\n";

/// The text after the first `end` and the empty line after it.
fn after_script(text: &[u8]) -> Option<&str> {
    let (_, after) = str::from_utf8(text).ok()?.split_once("end\n\n")?;
    Some(after)
}

/// What is printed after the bytes of `NAMES_SCRIPT`.
fn assert_prints(
    rt: &(impl Abort + Alloc<A = Global>),
    run: &Ran,
    expected: &str,
) -> Result<(), Fail> {
    let out = printed(rt, NAMES_SCRIPT, run, 10_000)?;
    assert_eq!(rt; after_script(out.bytes()), Some(expected));
    Ok(())
}

/// Objects with the first three, five and one of `zeta`, `b`, `B`, `ab` and `a`.
fn named_objects(alloc: Global) -> Result<Vec<ObjEnd>, AllocError> {
    let mut own = Vec::new(alloc);
    for number in 5..10 {
        own.push((name(number), Value::Int(i32::from(number))))?;
    }
    let mut objects = Vec::new(alloc);
    for n in [3, 5, 1] {
        let most = own.len().min(n);
        objects.push(ObjEnd {
            class: class(2),
            own: pairs(alloc, &own[..most])?,
        })?;
    }
    Ok(objects)
}

const NAMED: &str = "lines 0
final
object #0 D
.B 7
.b 6
.zeta 5
object #1 D
.B 7
.a 9
.ab 8
.b 6
.zeta 5
object #2 D
.zeta 5
end
";

#[test]
fn own_names_stand_by_their_bytes(rt: HostRuntime) -> Result<(), Fail> {
    let alloc = rt.alloc();
    let mut run = run_of(alloc, Vec::new(alloc));
    run.last.objects = Sequence::of(named_objects(alloc)?);
    assert_prints(&rt, &run, NAMED)
}

#[test]
fn faults_are_told_in_words(rt: HostRuntime) -> Result<(), Fail> {
    let text = format!(in rt.alloc(); "{}, {}", PrintFault::NoMemory, PrintFault::WriteFault)?;
    assert_eq!(rt; text.as_str(), "out of memory, the output failed");
    Ok(())
}

#[test]
fn laws_and_examples() -> Result<(), Fail> {
    laws::text_is_one_to_one();
    examples::a_run_that_no_script_makes();
    Ok(())
}
