//! The words of every kind of line.
use super::{assert_prints, class, name, object, run_of};
use at_line::{Line, LineOp, LineReply, Local, What};
use at_value::{
    Bases, Class, ClassList, Func, HookKind, Miss, Name, Obj, Op, Path, Place, Prop, Reply, Value,
};
use std::alloc::{AllocError, Global};
use std::test::Fail;

/// A line of `main` under locks.
fn did(op: LineOp, reply: LineReply) -> Line {
    Line {
        what: What::Did(Place(7), Path::Locked, op, reply),
        number: 1,
        thread: 0,
    }
}

fn operations(o: Obj, p: Obj) -> [LineOp; 19] {
    let (c, d, x, y) = (class(1), class(2), name(5), name(6));
    let object = Bases::only(class(0));
    [
        LineOp::Of(Op::NewClass(d, Bases::only(c))),
        LineOp::Of(Op::SetBases(c, object)),
        LineOp::Of(Op::SetBases(d, Bases::none())),
        LineOp::Of(Op::TypeSet(c, x, Value::Text(y))),
        LineOp::Of(Op::TypeDel(c, x)),
        LineOp::Of(Op::New(c)),
        LineOp::Of(Op::Set(p, y, Value::Int(-5))),
        LineOp::Of(Op::Del(p, y)),
        LineOp::Of(Op::SetClass(p, d)),
        LineOp::Of(Op::Share(o, p)),
        LineOp::Of(Op::Get(p, x)),
        LineOp::Of(Op::TypeGet(d, y)),
        LineOp::Of(Op::Super(d, p, x)),
        LineOp::Of(Op::Special(p, Name::init())),
        LineOp::Of(Op::ClassOf(p)),
        LineOp::Of(Op::Mro(class(0))),
        LineOp::Begin(o, None),
        LineOp::Begin(o, Some(o)),
        LineOp::Finish,
    ]
}

const OPERATIONS: &str = "lines 19
m 1 7 locked class D C = done
m 1 7 locked bases C object = done
m 1 7 locked bases D = done
m 1 7 locked put C.zeta \"b\" = done
m 1 7 locked cut C.zeta = done
m 1 7 locked new C = done
m 1 7 locked set #4095.b -5 = done
m 1 7 locked del #4095.b = done
m 1 7 locked turn #4095 D = done
m 1 7 locked share #0 #4095 = done
m 1 7 locked get #4095.zeta = done
m 1 7 locked cget D.b = done
m 1 7 locked super D #4095.zeta = done
m 1 7 locked special #4095.__init__ = done
m 1 7 locked classof #4095 = done
m 1 7 locked mro object = done
m 1 7 locked begin #0 = done
m 1 7 locked begin #0 #0 = done
m 1 7 locked finish = done
final
end
";

#[test]
fn each_operation_has_its_words(rt: HostRuntime) -> Result<(), Fail> {
    let alloc = rt.alloc();
    let mut lines = Vec::new(alloc);
    for op in operations(object(0)?, object(4095)?) {
        lines.push(did(op, LineReply::Of(Reply::Done)))?;
    }
    assert_prints(&rt, &run_of(alloc, lines), OPERATIONS)
}

fn values(o: Obj, f: Func) -> [Value; 9] {
    [
        Value::Nothing,
        Value::Int(i32::MIN),
        Value::Text(name(8)),
        Value::Func(f),
        Value::Prop(Prop::new(None, Some(f), None)),
        Value::Static(f),
        Value::ClassM(f),
        Value::Class(class(0)),
        Value::Obj(o),
    ]
}

fn hook_kinds() -> [HookKind; 7] {
    [
        HookKind::Getter,
        HookKind::Setter,
        HookKind::Deleter,
        HookKind::DescGet,
        HookKind::DescSet,
        HookKind::DescDel,
        HookKind::GetAttr,
    ]
}

fn refusals() -> [Reply; 13] {
    [
        Reply::NoAttr,
        Reply::NoGetter,
        Reply::NoSetter,
        Reply::NoDeleter,
        Reply::NoClass,
        Reply::NameTaken,
        Reply::EmptyBases,
        Reply::Duplicate,
        Reply::Cycle,
        Reply::NoOrder(class(2)),
        Reply::Immutable,
        Reply::NotSubclass,
        Reply::Full,
    ]
}

/// Replies of every kind but values, hooks and refusals.
fn replies(alloc: Global, o: Obj, f: Func) -> Result<[Reply; 6], AllocError> {
    let order = [class(2), class(1), class(0)];
    Ok([
        Reply::Done,
        Reply::Made(o, None),
        Reply::Made(o, Some(Value::Class(class(1)))),
        Reply::Method(f, Value::Obj(o)),
        Reply::Order(ClassList::copy_of(alloc, &order)?),
        Reply::Order(ClassList::copy_of(alloc, &[])?),
    ])
}

fn hook(kind: HookKind, o: Obj) -> Reply {
    Reply::Hook(
        kind,
        Value::Nothing,
        Value::Obj(o),
        Value::Class(class(2)),
        Value::Int(7),
    )
}

/// The lines of all replies.
fn reply_lines(alloc: Global, o: Obj, f: Func) -> Result<Vec<Line>, AllocError> {
    let replies = replies(alloc, o, f)?.into_iter();
    let values = values(o, f).into_iter().map(Reply::Value);
    let hooks = hook_kinds().into_iter().map(|kind| hook(kind, o));
    let mut lines = Vec::new(alloc);
    for reply in replies.chain(values).chain(hooks).chain(refusals()) {
        lines.push(did(LineOp::Finish, LineReply::Of(reply)))?;
    }
    Ok(lines)
}

// The script has no functions, so function 0 is printed as nothing.
const REPLIES: &str = "lines 37
m 1 7 locked finish = done
m 1 7 locked finish = made #9
m 1 7 locked finish = made #9 init C
m 1 7 locked finish = method  #9
m 1 7 locked finish = order D C object
m 1 7 locked finish = order
m 1 7 locked finish = value none
m 1 7 locked finish = value -2147483648
m 1 7 locked finish = value \"ab\"
m 1 7 locked finish = value 
m 1 7 locked finish = value prop:-,,-
m 1 7 locked finish = value static:
m 1 7 locked finish = value classm:
m 1 7 locked finish = value object
m 1 7 locked finish = value #9
m 1 7 locked finish = hook getter none #9 D 7
m 1 7 locked finish = hook setter none #9 D 7
m 1 7 locked finish = hook deleter none #9 D 7
m 1 7 locked finish = hook dget none #9 D 7
m 1 7 locked finish = hook dset none #9 D 7
m 1 7 locked finish = hook ddel none #9 D 7
m 1 7 locked finish = hook getattr none #9 D 7
m 1 7 locked finish = noattr
m 1 7 locked finish = nogetter
m 1 7 locked finish = nosetter
m 1 7 locked finish = nodeleter
m 1 7 locked finish = noclass
m 1 7 locked finish = nametaken
m 1 7 locked finish = emptybases
m 1 7 locked finish = duplicate
m 1 7 locked finish = cycle
m 1 7 locked finish = noorder D
m 1 7 locked finish = immutable
m 1 7 locked finish = notsubclass
m 1 7 locked finish = full
m 1 7 locked finish = kept
m 1 7 locked finish = suspended 4294967295
final
end
";

#[test]
fn each_reply_has_its_words(rt: HostRuntime) -> Result<(), Fail> {
    let alloc = rt.alloc();
    let o = object(9)?;
    let f = Func::new(0).ok_or("no function")?;
    let mut lines = reply_lines(alloc, o, f)?;
    lines.push(did(LineOp::Finish, LineReply::Kept))?;
    lines.push(did(LineOp::Finish, LineReply::Suspended(u32::MAX)))?;
    assert_prints(&rt, &run_of(alloc, lines), REPLIES)
}

fn paths(o: Obj) -> [Path; 10] {
    [
        Path::Fast,
        Path::Locked,
        Path::Slow(Miss::Untagged(class(1))),
        Path::Slow(Miss::Unlike(7)),
        Path::Slow(Miss::Writing(7, 3)),
        Path::Slow(Miss::Changed(7, 2, 4)),
        Path::Slow(Miss::Odd(o, 3)),
        Path::Slow(Miss::Dict(o, 2)),
        Path::Slow(Miss::Keyless(class(1), name(5))),
        Path::Slow(Miss::Moved(7, 2, 4)),
    ]
}

fn locals() -> [Local; 7] {
    [
        Local::Depth,
        Local::Budget,
        Local::Kind,
        Local::Unbound(0),
        Local::NotCallable,
        Local::Worn(1_099_511_627_774),
        Local::Full(u64::MAX),
    ]
}

const PATHS_AND_LOCALS: &str = "lines 17
t1 4294967295 18446744073709551615 fast classof #2 = noattr
t1 4294967295 18446744073709551615 locked classof #2 = noattr
t1 4294967295 18446744073709551615 untagged classof #2 = noattr
t1 4294967295 18446744073709551615 unlike classof #2 = noattr
t1 4294967295 18446744073709551615 writing classof #2 = noattr
t1 4294967295 18446744073709551615 changed classof #2 = noattr
t1 4294967295 18446744073709551615 odd classof #2 = noattr
t1 4294967295 18446744073709551615 dict classof #2 = noattr
t1 4294967295 18446744073709551615 keyless classof #2 = noattr
t1 4294967295 18446744073709551615 moved classof #2 = noattr
t30 1 - local depth
t31 1 - local budget
t32 1 - local kind
f 1 - local unbound v
t34 1 - local notcallable
t35 1 - local worn 1099511627774
t36 1 - local full 18446744073709551615
final
end
";

#[test]
fn each_path_and_local_word_is_printed(rt: HostRuntime) -> Result<(), Fail> {
    let alloc = rt.alloc();
    let o = object(2)?;
    let mut lines = Vec::new(alloc);
    for path in paths(o) {
        let op = LineOp::Of(Op::ClassOf(o));
        lines.push(Line {
            what: What::Did(Place(u64::MAX), path, op, LineReply::Of(Reply::NoAttr)),
            number: u32::MAX,
            thread: 1,
        })?;
    }
    for (thread, local) in locals().into_iter().enumerate() {
        lines.push(Line {
            what: What::Local(local),
            number: 1,
            thread: 30 + thread as u8,
        })?;
    }
    assert_prints(&rt, &run_of(alloc, lines), PATHS_AND_LOCALS)
}
