//! A thread that executes the statements of a script, and the laws of executions.
use crate::{Next, ReplyUse, Thread, examples, laws};
use at_line::{LineOp, LineReply, Local};
use at_script::{Block, Operand, Script, Stmt, Target, read};
use at_value::{Bases, Class, Func, HookKind, Name, Obj, Op, Reply, Value};
use std::alloc::Global;
use std::process::Abort;
use std::test::Fail;

/// What a thread is told where it asks for an operation.
#[derive(Clone, Copy)]
enum Told {
    Done,
    /// An object was made.
    Made,
    /// An object was made, whose class has the function as `__init__`.
    MadeWithInit,
    /// A hook that is an integer.
    Hook,
    /// The section was kept.
    Kept,
    /// A line stands in the operation's place.
    Declined,
}

fn script_of(alloc: Global, text: &str) -> Result<Script, Fail> {
    Ok(read(alloc, text.as_bytes())?)
}

fn class() -> Class {
    Class::new(1).unwrap()
}

fn name() -> Name {
    Name::new(5).unwrap()
}

fn object() -> Obj {
    Obj::new(0).unwrap()
}

fn function() -> Value {
    Value::Func(Func::new(0).unwrap())
}

/// The demand of an operation.
fn asks(op: Op, reply_use: ReplyUse) -> Next {
    Next::Asks(LineOp::Of(op), reply_use)
}

fn hook() -> Reply {
    let receiver = Value::Obj(object());
    Reply::Hook(
        HookKind::Getter,
        Value::Int(1),
        receiver,
        Value::Nothing,
        Value::Nothing,
    )
}

/// Answers a demand, where it is that of an operation.
fn answer(thread: &mut Thread<'_>, demand: &Next, told: Told) {
    let Next::Asks(_, reply_use) = demand else {
        return;
    };
    let reply = match told {
        Told::Done => LineReply::Of(Reply::Done),
        Told::Made => LineReply::Of(Reply::Made(object(), None)),
        Told::MadeWithInit => LineReply::Of(Reply::Made(object(), Some(function()))),
        Told::Hook => LineReply::Of(hook()),
        Told::Kept => LineReply::Kept,
        Told::Declined => return thread.decline(),
    };
    thread.accept(reply_use, &reply);
}

/// Compares what a thread demands next, and answers it.
fn demands<'a, R: Abort>(
    rt: &R,
    thread: &mut Thread<'a>,
    script: &'a Script,
    wanted: &Next,
    told: Told,
) {
    let demand = thread.next(script);
    assert!(rt; demand == *wanted, "{wanted:?}");
    answer(thread, &demand, told);
}

/// Whether the first variable has the object.
fn is_bound_to_the_object(variables: &[Option<Value>]) -> bool {
    match variables.first() {
        Some(Some(Value::Obj(o))) => *o == object(),
        _ => false,
    }
}

fn statements_of_main(script: &Script) -> &[Stmt] {
    script.block(Block::Main).unwrap_or(&[])
}

/// Executes the block with these steps, after which the first of two variables has the object.
fn execute<R: Abort>(
    rt: &R,
    alloc: Global,
    script: &Script,
    block: &[Stmt],
    steps: &[(Next, Told)],
) -> Result<(), Fail> {
    let unbound: Vec<Option<Value>> = vec![in alloc; None; 2]?;
    let mut thread = Thread::new(alloc, block, unbound)?;
    for (wanted, told) in steps {
        demands(rt, &mut thread, script, wanted, *told);
    }
    assert!(rt; is_bound_to_the_object(thread.variables()));
    Ok(())
}

/// Executes `main` of the script of this text.
fn execute_text<R: Abort>(
    rt: &R,
    alloc: Global,
    text: &str,
    steps: &[(Next, Told)],
) -> Result<(), Fail> {
    let script = script_of(alloc, text)?;
    execute(rt, alloc, &script, statements_of_main(&script), steps)
}

/// `class C`, which is the first statement of each script here.
fn class_is_made() -> (Next, Told) {
    let made = Op::NewClass(class(), Bases::only(Class::object()));
    (asks(made, ReplyUse::Ignore), Told::Done)
}

const CALLING: &str = "attrs 1\nfunc f\nend\nmain\nclass C\nput C.x f\nnew a C 7\nend\n";

fn calling_steps() -> [(Next, Told); 8] {
    let put = Op::TypeSet(class(), name(), function());
    let bind = ReplyUse::Bind(0, Value::Int(7));
    [
        class_is_made(),
        (asks(put, ReplyUse::Ignore), Told::Done),
        (asks(Op::New(class()), bind), Told::MadeWithInit),
        // The function begins and ends, and then `main` ends.
        (Next::Silent, Told::Done),
        (Next::Silent, Told::Done),
        (Next::Silent, Told::Done),
        (Next::Ended, Told::Done),
        (Next::Ended, Told::Done),
    ]
}

#[test]
fn an_object_is_bound_before_its_init_runs(rt: HostRuntime) -> Result<(), Fail> {
    execute_text(&rt, rt.alloc(), CALLING, &calling_steps())
}

const SAYING: &str =
    "attrs 1\nmain\nclass C\nnew a C\nset b.x 1\nget a.x\nset C.x 1\ndel a.x\nend\n";

fn saying_steps() -> [(Next, Told); 11] {
    let bind = ReplyUse::Bind(0, Value::Nothing);
    let (get, del) = (Op::Get(object(), name()), Op::Del(object(), name()));
    [
        class_is_made(),
        (asks(Op::New(class()), bind), Told::MadeWithInit),
        (Next::Silent, Told::Done),
        (Next::Silent, Told::Done),
        (Next::Says(Local::Unbound(1)), Told::Done),
        (asks(get, ReplyUse::Read), Told::Hook),
        (Next::Says(Local::NotCallable), Told::Done),
        (Next::Says(Local::Kind), Told::Done),
        (asks(del, ReplyUse::Write), Told::Declined),
        (Next::Silent, Told::Done),
        (Next::Ended, Told::Done),
    ]
}

#[test]
fn lines_that_are_no_operation(rt: HostRuntime) -> Result<(), Fail> {
    execute_text(&rt, rt.alloc(), SAYING, &saying_steps())
}

const SECTION: [Stmt; 6] = [
    Stmt::Begin(Target::Var(0), Some(Target::Var(0))),
    Stmt::Checkpoint,
    Stmt::Let(1, Operand::Var(0)),
    Stmt::Finish,
    Stmt::Finish,
    Stmt::Return(Operand::It),
];

fn section_steps() -> [(Next, Told); 9] {
    [
        (
            asks(Op::New(class()), ReplyUse::Bind(0, Value::Nothing)),
            Told::Made,
        ),
        (
            Next::Asks(LineOp::Begin(object(), None), ReplyUse::Open),
            Told::Done,
        ),
        (Next::Checkpoint, Told::Done),
        (Next::Silent, Told::Done),
        (Next::Asks(LineOp::Finish, ReplyUse::Close), Told::Kept),
        // Here no section is open.
        (Next::Silent, Told::Done),
        (Next::Silent, Told::Done),
        (Next::Ended, Told::Done),
        (Next::Ended, Told::Done),
    ]
}

#[test]
fn a_section_and_a_checkpoint(rt: HostRuntime) -> Result<(), Fail> {
    let script = script_of(rt.alloc(), "attrs 1\nmain\nend\n")?;
    let mut block = vec![in rt.alloc(); Stmt::New(0, class(), None); 1]?;
    block.extend_from_slice(&SECTION)?;
    execute(&rt, rt.alloc(), &script, &block, &section_steps())
}

#[test]
fn laws_hold() {
    laws::replies_determine_executions();
    laws::executions_are_short();
    laws::numbers_have_no_gap();
    laws::own_lines_name_no_limit();
}

#[test]
fn answers_are_judged() {
    examples::lines_in_place_of_operations();
    examples::replies_of_operations();
}
