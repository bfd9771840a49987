//! Lines of a block.
use super::offence_of;
use crate::Cause;
use std::alloc::Global;
use std::process::Abort;
use std::test::Fail;

/// What is wrong with a line after a function f, `class C` and `new a C`.
fn cause_of(alloc: Global, line: &str) -> Result<Option<Cause>, Fail> {
    let text = format!(in alloc; "attrs 1\nfunc f\nend\nmain\nclass C\nnew a C\n{line}\nend\n")?;
    match offence_of(alloc, text.as_bytes())? {
        Some((7, cause)) => Ok(Some(cause)),
        Some(_) => Err("another line".into()),
        None => Ok(None),
    }
}

fn assert_lines<R: Abort>(
    rt: &R,
    alloc: Global,
    rows: &[(&str, Option<Cause>)],
) -> Result<(), Fail> {
    for (line, wanted) in rows {
        assert!(rt; cause_of(alloc, line)? == *wanted, "{line:?}");
    }
    Ok(())
}

const CLASSES: [(&str, Option<Cause>); 23] = [
    ("class D C", None),
    ("class D C C C C C C C C", None),
    ("class D C C C C C C C C C", Some(Cause::Form)),
    ("class D C C C C C C C C 1", Some(Cause::Form)),
    ("class C", None),
    ("class D object", None),
    ("class", Some(Cause::Form)),
    ("class object", Some(Cause::Name)),
    ("class none", Some(Cause::Name)),
    ("class 1", Some(Cause::Form)),
    ("class D Unknown", Some(Cause::Class)),
    ("class D a", Some(Cause::Name)),
    ("class D f", Some(Cause::Name)),
    ("class D self", Some(Cause::Name)),
    ("class f", Some(Cause::Name)),
    (" \tclass\tD\rC ", None),
    ("bases C C C", None),
    ("bases C", None),
    ("bases object C", None),
    ("bases D C", Some(Cause::Class)),
    ("bases f", Some(Cause::Name)),
    ("bases", Some(Cause::Form)),
    ("bases C C C C C C C C C C", Some(Cause::Form)),
];

#[test]
fn classes(rt: HostRuntime) -> Result<(), Fail> {
    assert_lines(&rt, rt.alloc(), &CLASSES)
}

const STATEMENTS: [(&str, Option<Cause>); 62] = [
    ("cut C.x", None),
    ("cut object.x", None),
    ("cut a.x", Some(Cause::Name)),
    ("cut b.x", Some(Cause::Class)),
    ("cut C.x 1", Some(Cause::Form)),
    ("cut C", Some(Cause::Form)),
    ("new b C", None),
    ("new b object none", None),
    ("new b C b", None),
    ("new b C \"x\"", None),
    ("new b C 1 2", Some(Cause::Form)),
    ("new b Unknown", Some(Cause::Class)),
    ("new b b", Some(Cause::Class)),
    ("new a a", Some(Cause::Name)),
    ("new C C", Some(Cause::Name)),
    ("new self C", Some(Cause::Name)),
    ("new b", Some(Cause::Form)),
    ("new b C it", None),
    ("set a.x -17", None),
    ("set b.x 1", None),
    ("set C.x 1", None),
    ("set self.x arg", None),
    ("set none.x 1", Some(Cause::Name)),
    ("set f.x 1", Some(Cause::Name)),
    ("set a.x 1 2", Some(Cause::Form)),
    ("del a.x", None),
    ("del other.x", None),
    ("del a.x 1", Some(Cause::Form)),
    ("get C.x", None),
    ("get object.x", None),
    ("get a.x.y", Some(Cause::Form)),
    ("get a.", Some(Cause::Form)),
    ("get .x", Some(Cause::Form)),
    ("get a", Some(Cause::Form)),
    ("turn a C", None),
    ("turn a D", Some(Cause::Class)),
    ("turn a b", Some(Cause::Class)),
    ("turn a", Some(Cause::Form)),
    ("share a b", None),
    ("share it a", None),
    ("share a f", Some(Cause::Name)),
    ("share a b c", Some(Cause::Form)),
    ("super C a.x", None),
    ("super a C.x", Some(Cause::Name)),
    ("super C a", Some(Cause::Form)),
    ("special a.__len__", None),
    ("special it.x", None),
    ("classof arg", None),
    ("classof a.x", Some(Cause::Form)),
    ("mro object", None),
    ("mro a", Some(Cause::Name)),
    ("mro C C", Some(Cause::Form)),
    ("call a.x", None),
    ("call C.x f", None),
    ("call a.x 1 2", Some(Cause::Form)),
    ("callsuper C a.x", None),
    ("callsuper C a.x \"y\"", None),
    ("callsuper C", Some(Cause::Form)),
    ("let b 1", None),
    ("let C 1", Some(Cause::Name)),
    ("let b", Some(Cause::Form)),
    ("checkpoint 1", Some(Cause::Form)),
];

#[test]
fn statements(rt: HostRuntime) -> Result<(), Fail> {
    assert_lines(&rt, rt.alloc(), &STATEMENTS)
}

const VALUES: [(&str, Option<Cause>); 50] = [
    ("let b none", None),
    ("let b 0", None),
    ("let b 2147483647", None),
    ("let b 2147483648", Some(Cause::Number)),
    ("let b -2147483648", None),
    ("let b -2147483649", Some(Cause::Number)),
    ("let b 99999999999999999999999", Some(Cause::Number)),
    ("let b -0", Some(Cause::Form)),
    ("let b 007", Some(Cause::Form)),
    ("let b +1", Some(Cause::Form)),
    ("let b -", Some(Cause::Form)),
    ("let b 1.5", Some(Cause::Form)),
    ("let b 1a", Some(Cause::Form)),
    ("let b \"text\"", None),
    ("let b \"mro\"", None),
    ("let b \"__class__\"", None),
    ("let b \"none\"", Some(Cause::Name)),
    ("let b \"object\"", Some(Cause::Name)),
    ("let b \"\"", Some(Cause::Form)),
    ("let b \"a b\"", Some(Cause::Form)),
    ("let b \"a", Some(Cause::Form)),
    ("let b a\"", Some(Cause::Form)),
    ("let b \"a\"\"", Some(Cause::Form)),
    ("let b \"a\"b", Some(Cause::Form)),
    ("let b \"1\"", Some(Cause::Form)),
    ("let b C", None),
    ("let b object", None),
    ("let b f", None),
    ("let b b", None),
    ("let b self", None),
    ("let b other", None),
    ("let b static:f", None),
    ("let b static:C", Some(Cause::Name)),
    ("let b static:object", Some(Cause::Name)),
    ("let b static:a", Some(Cause::Name)),
    ("let b static:b", Some(Cause::Func)),
    ("let b static:it", Some(Cause::Name)),
    ("let b static", None),
    ("let b static:", Some(Cause::Form)),
    ("let b static:f:f", Some(Cause::Form)),
    ("let b classm:f", None),
    ("let b classm:g", Some(Cause::Func)),
    ("let b class:f", Some(Cause::Form)),
    ("let b prop:-,-,-", None),
    ("let b prop:f,-,f", None),
    ("let b prop:g,-,C", Some(Cause::Name)),
    ("let b prop:-,-", Some(Cause::Form)),
    ("let b prop:-,-,-,-", Some(Cause::Form)),
    ("let b prop:-,,-", Some(Cause::Form)),
    ("let b prop:-,-,1", Some(Cause::Form)),
];

#[test]
fn values(rt: HostRuntime) -> Result<(), Fail> {
    assert_lines(&rt, rt.alloc(), &VALUES)
}

const NAMES: [(&str, Option<Cause>); 21] = [
    ("get a.__get__", None),
    ("get a.__getitem__", None),
    ("get a.__dict__", Some(Cause::Name)),
    ("put C.__class__ 1", Some(Cause::Name)),
    ("get a.__", Some(Cause::Name)),
    ("get a.___", Some(Cause::Name)),
    ("get a.____", Some(Cause::Name)),
    ("get a.__x", None),
    ("get a.x__", None),
    ("get a._x1", None),
    ("get a.none", Some(Cause::Name)),
    ("get a.self", Some(Cause::Name)),
    ("get a.object", Some(Cause::Name)),
    ("get a.mro", Some(Cause::Name)),
    ("get a.1", Some(Cause::Form)),
    ("get a.aaaaaaaaaaaaaaaaaaaaaaaaaaaaaaaa", None),
    ("get a.aaaaaaaaaaaaaaaaaaaaaaaaaaaaaaaaa", Some(Cause::Name)),
    ("get aaaaaaaaaaaaaaaaaaaaaaaaaaaaaaaaa.a", Some(Cause::Name)),
    ("let aaaaaaaaaaaaaaaaaaaaaaaaaaaaaaaaa 1", Some(Cause::Name)),
    ("let b aaaaaaaaaaaaaaaaaaaaaaaaaaaaaaaaa", Some(Cause::Name)),
    ("mro aaaaaaaaaaaaaaaaaaaaaaaaaaaaaaaaa", Some(Cause::Name)),
];

#[test]
fn names(rt: HostRuntime) -> Result<(), Fail> {
    assert_lines(&rt, rt.alloc(), &NAMES)
}
