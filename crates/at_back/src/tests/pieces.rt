//! The readers of pieces: values, operations and lines, each at its bounds.
ghost use Rattle.std.specs.Prelude.{IfOk};
ghost use Rattle.at_script.specs.Laws.{AreToldApart};

use crate::cursor::Cursor;
use crate::fault::PieceFault;
use crate::index::Index;
use crate::line::line_at;
use crate::operation::line_op_at;
use crate::value::value_at;
use at_line::LineOp;
use at_script::{Script, names_are_told_apart, read};
use at_value::{Class, Func, Name, Obj, Op, Prop, Value};
use std::alloc::Global;
use std::process::Abort;
use std::test::Fail;

/// Names 5 and 6 are `x` and `y`, classes 1 and 2 `C` and `D`, function 0 is `f`, and variables 0 and 1 are `a` and `b`.
const SCRIPT: &[u8] = b"attrs 1
func f
return none
end
main
class C
class D C
new a C
new b D
set a.x 1
set b.y \"x\"
end
";

/// The script of this text, whose names are told apart.
fn script(alloc: Global, text: &[u8]) -> Result<Script, Fail>
    ensures { IfOk result AreToldApart }
{
    names_are_told_apart();
    Ok(read(alloc, text)?)
}

/// The value that the text is, where nothing follows it.
fn value(names: &Index<'_>, text: &[u8]) -> Option<Value> {
    let mut cursor = Cursor::new(text);
    let value = value_at(&mut cursor, names)?;
    if cursor.rest().is_empty() {
        Some(value)
    } else {
        None
    }
}

fn func() -> Option<Func> {
    Func::new(0)
}

fn integers() -> [(&'static [u8], Option<Value>); 12] {
    [
        (b"0", Some(Value::Int(0))),
        (b"-1", Some(Value::Int(-1))),
        (b"2147483647", Some(Value::Int(i32::MAX))),
        (b"-2147483648", Some(Value::Int(i32::MIN))),
        (b"2147483648", None),
        (b"-2147483649", None),
        (b"-0", None),
        (b"00", None),
        (b"01", None),
        (b"1x", None),
        (b"+1", None),
        (b"", None),
    ]
}

fn objects() -> [(&'static [u8], Option<Value>); 5] {
    [
        (b"#0", object(0)),
        (b"#4095", object(4095)),
        (b"#4096", None),
        (b"#01", None),
        (b"#", None),
    ]
}

fn object(number: u16) -> Option<Value> {
    Some(Value::Obj(Obj::new(number)?))
}

fn named() -> [(&'static [u8], Option<Value>); 10] {
    [
        (b"none", Some(Value::Nothing)),
        (b"object", Some(Value::Class(Class::object()))),
        (b"f", function()),
        (b"a", None),
        (b"x", None),
        (b"nones", None),
        (b"\"__init__\"", Some(Value::Text(Name::init()))),
        (b"\"C\"", None),
        (b"\"x", None),
        (b"\"x\" ", None),
    ]
}

fn function() -> Option<Value> {
    Some(Value::Func(func()?))
}

fn wrapped() -> [(&'static [u8], Option<Value>); 8] {
    [
        (b"static:f", static_function()),
        (b"classm:f", class_function()),
        (b"static:C", None),
        (b"statics:f", None),
        (
            b"prop:f,-,-",
            Some(Value::Prop(Prop::new(func(), None, None))),
        ),
        (
            b"prop:-,f,f",
            Some(Value::Prop(Prop::new(None, func(), func()))),
        ),
        (b"prop:f,-", None),
        (b"prop:f,-,-,-", None),
    ]
}

fn static_function() -> Option<Value> {
    Some(Value::Static(func()?))
}

fn class_function() -> Option<Value> {
    Some(Value::ClassM(func()?))
}

fn assert_values(rt: &impl Abort, names: &Index<'_>, table: &[(&'static [u8], Option<Value>)]) {
    for (text, expected) in table {
        assert_eq!(rt; value(names, text), *expected);
    }
}

#[test]
fn values_are_read_at_their_bounds(rt: HostRuntime) -> Result<(), Fail> {
    let script = script(rt.alloc(), SCRIPT)?;
    let names = Index::new(rt.alloc(), &script)?;
    assert_values(&rt, &names, &integers());
    assert_values(&rt, &names, &objects());
    assert_values(&rt, &names, &named());
    assert_values(&rt, &names, &wrapped());
    Ok(())
}

/// The operation that the text is, where nothing follows it.
fn operation(names: &Index<'_>, text: &[u8]) -> Option<LineOp> {
    let mut cursor = Cursor::new(text);
    let operation = line_op_at(&mut cursor, names)?;
    if cursor.rest().is_empty() {
        Some(operation)
    } else {
        None
    }
}

/// Texts of operations, each with whether it is one.
const OPERATIONS: [(&[u8], bool); 28] = [
    (b"class C", true),
    (b"class C object D", true),
    (b"class C D D D D D D D D", true),
    (b"class C D D D D D D D D D", false),
    (b"class C ", false),
    (b"class E", false),
    (b"bases D C", true),
    (b"put C.x 1", true),
    (b"put C.x", false),
    (b"cut C.y", true),
    (b"new C", true),
    (b"new C 1", false),
    (b"set #0.x \"y\"", true),
    (b"set a.x 1", false),
    (b"del #1.__init__", true),
    (b"get #0.x", true),
    (b"get #0.z", false),
    (b"get C.x", false),
    (b"cget C.x", true),
    (b"turn #0 D", true),
    (b"share #0 #0", true),
    (b"super D #0.x", true),
    (b"special #0.y", true),
    (b"classof #3", true),
    (b"mro object", true),
    (b"begin #0 #0", true),
    (b"begin #0 #1 #2", false),
    (b"finish", true),
];

#[test]
fn operations_are_read(rt: HostRuntime) -> Result<(), Fail> {
    let script = script(rt.alloc(), SCRIPT)?;
    let names = Index::new(rt.alloc(), &script)?;
    for (text, is_operation) in OPERATIONS {
        assert_eq!(rt; operation(&names, text).is_some(), is_operation);
    }
    let read = operation(&names, b"cget D.x");
    let expected = match (Class::new(2), Name::new(5)) {
        (Some(class), Some(name)) => Some(LineOp::Of(Op::TypeGet(class, name))),
        _ => None,
    };
    assert_eq!(rt; read, expected);
    Ok(())
}

/// Whether the text is a line, and nothing follows it.
fn is_line(alloc: Global, names: &Index<'_>, text: &[u8]) -> Result<bool, Fail> {
    let mut cursor = Cursor::new(text);
    match line_at(alloc, &mut cursor, names) {
        Ok(_) => Ok(cursor.rest().is_empty()),
        Err(PieceFault::Wrong) => Ok(false),
        Err(PieceFault::NoMemory) => Err(Fail::from("out of memory")),
    }
}

/// Texts of lines, each with whether it is one.
const LINES: [(&[u8], bool); 40] = [
    (b"m 1 1 locked new C = made #0\n", true),
    (b"m 1 1 locked new C = made #0", false),
    (b"m 1 1 locked new C = made #0 \n", false),
    (b"m 1 1 locked new C = made #0 init f\n", true),
    (b"m 1 1 locked new C = made #0 init\n", false),
    (b"m 01 1 locked new C = done\n", false),
    (b"t1 1 0 fast get #0.x = value -5\n", true),
    (b"t32 1 0 untagged get #0.x = noattr\n", true),
    (b"t33 1 0 fast get #0.x = noattr\n", false),
    (b"t0 1 0 fast get #0.x = noattr\n", false),
    (b"t01 1 0 fast get #0.x = noattr\n", false),
    (
        b"f 4294967295 18446744073709551615 moved mro C = order C object\n",
        true,
    ),
    (b"f 4294967296 1 moved mro C = order C object\n", false),
    (
        b"f 1 18446744073709551616 moved mro C = order C object\n",
        false,
    ),
    (b"f 1 1 slow mro C = order\n", false),
    (b"f 1 1 keyless mro C = order\n", true),
    (b"f 1 1 keyless mro C = order \n", false),
    (b"m 1 0 locked get #0.x = method f #0\n", true),
    (
        b"m 1 0 locked get #0.x = hook getter f #0 none none\n",
        true,
    ),
    (
        b"m 1 0 locked get #0.x = hook getattr f C \"x\" none\n",
        true,
    ),
    (b"m 1 0 locked get #0.x = hook getter f #0 none\n", false),
    (
        b"m 1 0 locked get #0.x = hook other f #0 none none\n",
        false,
    ),
    (b"m 1 0 locked class D C = noorder D\n", true),
    (b"m 1 0 locked class D C = noorder\n", false),
    (b"m 1 0 locked finish = suspended 4294967295\n", true),
    (b"m 1 0 locked finish = suspended 4294967296\n", false),
    (b"m 1 0 locked finish = kept\n", true),
    (b"m 1 0 locked finish  = kept\n", false),
    (b"m 1 0 locked finish= kept\n", false),
    (b"m 1 0 locked begin #1 = emptybases\n", true),
    (b"m 1 - local depth\n", true),
    (b"m 1 - local unbound b\n", true),
    (b"m 1 - local unbound C\n", false),
    (b"m 1 - local worn 18446744073709551615\n", true),
    (b"m 1 - local full 0\n", true),
    (b"m 1 - local full 00\n", false),
    (b"m 1 - local notcallable\n", true),
    (b"m 1 - local budgets\n", false),
    (b"m 1 - locals budget\n", false),
    (b"", false),
];

#[test]
fn lines_are_read(rt: HostRuntime) -> Result<(), Fail> {
    let script = script(rt.alloc(), SCRIPT)?;
    let names = Index::new(rt.alloc(), &script)?;
    for (text, expected) in LINES {
        assert_eq!(rt; is_line(rt.alloc(), &names, text)?, expected);
    }
    Ok(())
}
