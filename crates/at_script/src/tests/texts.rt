//! Whole texts.
use super::{Offence, assert_texts, offence_of};
use crate::Cause;
use std::test::Fail;

const HEADERS: [(&str, Offence); 14] = [
    ("", Some((1, Cause::Header))),
    ("\n", Some((1, Cause::Header))),
    ("attrs 9\n", Some((1, Cause::Header))),
    ("attrs 1", Some((2, Cause::End))),
    ("attrs  1\r\nmain\nend\n", None),
    (" attrs\t1 \nmain\nend\n", None),
    ("attrs 1 1\nmain\nend\n", Some((1, Cause::Header))),
    ("attrs1\nmain\nend\n", Some((1, Cause::Header))),
    ("\nattrs 1\nmain\nend\n", Some((1, Cause::Header))),
    ("# attrs 1\nattrs 1\nmain\nend\n", Some((1, Cause::Header))),
    ("attrs 1\nattrs 1\nmain\nend\n", Some((2, Cause::Place))),
    ("attrs 1\nmain\nend\nattrs 1\n", Some((4, Cause::Place))),
    ("jump\nmain\nend\n", Some((1, Cause::Header))),
    ("attrs 1 \x07\nmain\nend\n", Some((1, Cause::Byte))),
];

#[test]
fn headers(rt: HostRuntime) -> Result<(), Fail> {
    assert_texts(&rt, rt.alloc(), &HEADERS)
}

const BYTES: [(&str, Offence); 10] = [
    ("attrs 1\nmain\n# \x7e\nend\n", None),
    ("attrs 1\nmain\n# \x7f\nend\n", Some((3, Cause::Byte))),
    ("attrs 1\nmain\n\x1f\nend\n", Some((3, Cause::Byte))),
    ("attrs 1\nmain\njump \x00\nend\n", Some((3, Cause::Byte))),
    ("attrs 1\nmain\nend\n#\x0b", Some((4, Cause::Byte))),
    ("attrs 1\nmain\nend\x0c", Some((3, Cause::Byte))),
    ("attrs 1\nmain\nend\n\r \t\n", None),
    (
        "attrs 1\n# attrs\n \t\r\n  #main\nmain\n#class C\nend\n",
        None,
    ),
    ("attrs 1\nmain\nclass C # D\nend\n", Some((3, Cause::Form))),
    ("attrs 1\nmain\nend #\n", Some((3, Cause::Form))),
];

#[test]
fn bytes(rt: HostRuntime) -> Result<(), Fail> {
    assert_texts(&rt, rt.alloc(), &BYTES)
}

#[test]
fn bytes_above_ascii(rt: HostRuntime) -> Result<(), Fail> {
    let offence = offence_of(rt.alloc(), b"attrs 1\nmain\n# \x80\nend\n")?;
    assert!(rt; offence == Some((3, Cause::Byte)));
    Ok(())
}

const PLACES: [(&str, Offence); 25] = [
    ("attrs 1\nmain\n", Some((3, Cause::End))),
    ("attrs 1\nmain\nend\nthread\n", Some((5, Cause::End))),
    ("attrs 1\nfunc f\nend\n", Some((4, Cause::End))),
    ("attrs 1\n# main\n", Some((3, Cause::End))),
    ("attrs 1\njump\n", Some((2, Cause::Word))),
    ("attrs 1\nmain\njump a.x\nend\n", Some((3, Cause::Word))),
    ("attrs 1\nmain\nend\nEnd\n", Some((4, Cause::Word))),
    ("attrs 1\nend\n", Some((2, Cause::Place))),
    ("attrs 1\nget a.x\n", Some((2, Cause::Place))),
    ("attrs 1\nthread\n", Some((2, Cause::Place))),
    (
        "attrs 1\nbudget 5\nbudget 5\nmain\nend\n",
        Some((3, Cause::Place)),
    ),
    (
        "attrs 1\nfunc f\nend\nbudget 5\nmain\nend\n",
        Some((4, Cause::Place)),
    ),
    ("attrs 1\nmain\nfunc f\n", Some((3, Cause::Place))),
    ("attrs 1\nfunc f\nmain\nend\n", Some((3, Cause::Place))),
    ("attrs 1\nmain\nend\nend\n", Some((4, Cause::Place))),
    ("attrs 1\nmain\nend\nmain\nend\n", Some((4, Cause::Place))),
    ("attrs 1\nmain\nend\nfunc f\nend\n", Some((4, Cause::Place))),
    ("attrs 1\nmain\nend\nlet a 1\n", Some((4, Cause::Place))),
    (
        "attrs 1\nmain\nend\nfinally\nend\nthread\nend\n",
        Some((6, Cause::Place)),
    ),
    (
        "attrs 1\nmain\nend\nfinally\nend\nfinally\nend\n",
        Some((6, Cause::Place)),
    ),
    ("attrs 1\nmain\nend\nthread\nend\nfinally\nend\n#\n", None),
    ("attrs 1\nbudget 5\nfunc f\nend\nmain\nend", None),
    ("attrs 1\nmain main\nend\n", Some((2, Cause::Form))),
    ("attrs 1\nmain\nend end\n", Some((3, Cause::Form))),
    (
        "attrs 1\nmain\nend\nthread 1\nend\n",
        Some((4, Cause::Form)),
    ),
];

#[test]
fn places(rt: HostRuntime) -> Result<(), Fail> {
    assert_texts(&rt, rt.alloc(), &PLACES)
}

const SECTIONS: [(&str, Offence); 12] = [
    ("attrs 1\nmain\nbegin a\nend\n", Some((4, Cause::Place))),
    (
        "attrs 1\nmain\nbegin a\nbegin b\nfinish\nend\n",
        Some((4, Cause::Place)),
    ),
    ("attrs 1\nmain\nfinish\nend\n", Some((3, Cause::Place))),
    (
        "attrs 1\nmain\nbegin a b\nfinish\nfinish\nend\n",
        Some((5, Cause::Place)),
    ),
    (
        "attrs 1\nmain\nbegin a\ncheckpoint\nfinish\nend\n",
        Some((4, Cause::Place)),
    ),
    (
        "attrs 1\nmain\nbegin a\nget a.x\nfinish\ncheckpoint\nbegin b\nfinish\nend\n",
        None,
    ),
    ("attrs 1\nmain\nreturn 1\nend\n", Some((3, Cause::Place))),
    (
        "attrs 1\nmain\nend\nthread\nreturn 1\nend\n",
        Some((5, Cause::Place)),
    ),
    (
        "attrs 1\nfunc f\nbegin self\nreturn 1\nfinish\nend\nmain\nend\n",
        Some((4, Cause::Place)),
    ),
    (
        "attrs 1\nfunc f\nbegin self other\nfinish\nreturn 1\nend\nmain\nend\n",
        None,
    ),
    (
        "attrs 1\nfunc f\nbegin self\nend\nmain\nend\n",
        Some((4, Cause::Place)),
    ),
    ("attrs 1\nmain\nbegin\nend\n", Some((3, Cause::Form))),
];

#[test]
fn sections(rt: HostRuntime) -> Result<(), Fail> {
    assert_texts(&rt, rt.alloc(), &SECTIONS)
}

const DECLARED: [(&str, Offence); 23] = [
    // A declaration serves the lines before it, stands in any block, and on a line that is refused.
    ("attrs 1\nmain\nnew a C\nclass C\nend\n", None),
    ("attrs 1\nfunc f\nclass C\nend\nmain\nnew a C\nend\n", None),
    (
        "attrs 1\nfunc f\nnew a C\nend\nmain\nend\nthread\nclass C\nend\n",
        None,
    ),
    (
        "attrs 1\nmain\nnew a C\nclass C 1\nend\n",
        Some((4, Cause::Form)),
    ),
    (
        "attrs 1\nmain\nnew a C\n#class C\nend\n",
        Some((3, Cause::Class)),
    ),
    (
        "attrs 1\nmain\nput object.x static:f\nfunc f\nend\n",
        Some((4, Cause::Place)),
    ),
    (
        "attrs 1\nmain\nnew C C\nclass C \x01\nend\n",
        Some((3, Cause::Name)),
    ),
    (
        "attrs 1\nmain\nlet a f\nput object.x f\nend\nfunc f 1\n",
        Some((6, Cause::Place)),
    ),
    // A function is one against a class of the same name, whichever stands first.
    (
        "attrs 1\nfunc f\nend\nmain\nclass f\nend\n",
        Some((5, Cause::Name)),
    ),
    (
        "attrs 1\nfunc g\nclass f\nend\nfunc f\nend\nmain\nend\n",
        Some((3, Cause::Name)),
    ),
    (
        "attrs 1\nfunc f\nend\nfunc f\nend\nmain\nend\n",
        Some((4, Cause::Name)),
    ),
    (
        "attrs 1\nfunc f\nend\nfunc g\nend\nfunc f\nend\nmain\nend\n",
        Some((6, Cause::Name)),
    ),
    (
        "attrs 1\nfunc f\nend\nmain\nlet f 1\nend\n",
        Some((5, Cause::Name)),
    ),
    (
        "attrs 1\nfunc f\nend\nmain\nget f.x\nend\n",
        Some((5, Cause::Name)),
    ),
    (
        "attrs 1\nfunc f\nend\nmain\nmro f\nend\n",
        Some((5, Cause::Name)),
    ),
    (
        "attrs 1\nfunc f\nend\nmain\nput object.x prop:f,-,f\nend\n",
        None,
    ),
    ("attrs 1\nfunc\nend\nmain\nend\n", Some((2, Cause::Form))),
    (
        "attrs 1\nfunc f # g\nend\nmain\nend\n",
        Some((2, Cause::Form)),
    ),
    ("attrs 1\nfunc 1\nend\nmain\nend\n", Some((2, Cause::Form))),
    (
        "attrs 1\nfunc object\nend\nmain\nend\n",
        Some((2, Cause::Name)),
    ),
    ("attrs 1\nfunc it\nend\nmain\nend\n", Some((2, Cause::Name))),
    ("attrs 1\nmain\nclass object\nend\n", Some((3, Cause::Name))),
    (
        "attrs 1\nmain\nnew a object\nclass a\nend\n",
        Some((3, Cause::Name)),
    ),
];

#[test]
fn declarations(rt: HostRuntime) -> Result<(), Fail> {
    assert_texts(&rt, rt.alloc(), &DECLARED)
}

const ORDERS: [(&str, Offence); 9] = [
    // Of the causes of one line the first is said, and of the lines the first.
    (
        "attrs 1\nmain\njump 2147483648\nend\n",
        Some((3, Cause::Word)),
    ),
    ("attrs 1\nfunc 1\nfunc 2\n", Some((2, Cause::Form))),
    (
        "attrs 1\nmain\nput D.mro 2147483648\nend\n",
        Some((3, Cause::Number)),
    ),
    (
        "attrs 1\nmain\nput D.mro static:g\nend\n",
        Some((3, Cause::Name)),
    ),
    (
        "attrs 1\nmain\nput D.x static:g\nend\n",
        Some((3, Cause::Class)),
    ),
    (
        "attrs 1\nmain\nput object.x static:g\nend\n",
        Some((3, Cause::Func)),
    ),
    (
        "attrs 1\nmain\nput object.x static:1\nend\nend\n",
        Some((3, Cause::Form)),
    ),
    ("attrs 1\nmain\nend\nend 1\n", Some((4, Cause::Place))),
    (
        "attrs 1\nmain\nget a.none\nget 1\nend\n",
        Some((3, Cause::Name)),
    ),
];

#[test]
fn orders(rt: HostRuntime) -> Result<(), Fail> {
    assert_texts(&rt, rt.alloc(), &ORDERS)
}
