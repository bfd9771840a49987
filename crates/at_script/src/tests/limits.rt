//! How many bytes, classes, names, functions, variables and threads a script may have.
use super::{Offence, offence_of};
use crate::Cause;
use std::alloc::{AllocError, Global};
use std::test::Fail;

/// What a script has one more of with each line, and how many such lines it may have.
#[derive(Clone, Copy)]
struct Limit {
    /// The lines before those.
    head: &'static str,
    /// A line before its number.
    before: &'static str,
    /// A line after its number.
    after: &'static str,
    /// The lines after those.
    tail: &'static str,
    most: u32,
    /// The line that is one too many.
    line: u32,
}

const LIMITS: [Limit; 5] = [
    // `object` is a class too.
    Limit {
        head: "main\nbases C0 C253\n",
        before: "class C",
        after: "\n",
        tail: "end\n",
        most: 254,
        line: 258,
    },
    // Five special names are there from the start.
    Limit {
        head: "main\n",
        before: "put object.n",
        after: " 0\n",
        tail: "end\n",
        most: 4091,
        line: 4094,
    },
    Limit {
        head: "main\n",
        before: "classof v",
        after: "\n",
        tail: "end\n",
        most: 1024,
        line: 1027,
    },
    Limit {
        head: "",
        before: "func f",
        after: "\nend\n",
        tail: "main\nput object.x f1023\nend\n",
        most: 1024,
        line: 2050,
    },
    Limit {
        head: "main\nend\n",
        before: "thread\nlet v ",
        after: "\nend\n",
        tail: "",
        most: 32,
        line: 100,
    },
];

/// The script of this many lines.
fn script_of_lines(alloc: Global, limit: &Limit, lines: u32) -> Result<String, AllocError> {
    let mut text = format!(in alloc; "attrs 1\n{}", limit.head)?;
    for i in 0..lines {
        text.push_str(&format!(in alloc; "{}{i}{}", limit.before, limit.after)?)?;
    }
    text.push_str(limit.tail)?;
    Ok(text)
}

/// What is first wrong with this many lines.
fn offence_of_lines(alloc: Global, limit: &Limit, lines: u32) -> Result<Offence, Fail> {
    let text = script_of_lines(alloc, limit, lines)?;
    offence_of(alloc, text.as_bytes())
}

#[test]
fn limits(rt: HostRuntime) -> Result<(), Fail> {
    for limit in LIMITS {
        let within = offence_of_lines(rt.alloc(), &limit, limit.most)?;
        let above = offence_of_lines(rt.alloc(), &limit, limit.most + 1)?;
        assert!(rt; within.is_none(), "{}", limit.before);
        assert!(rt;
            above == Some((limit.line, Cause::Limit)),
            "{}",
            limit.before
        );
    }
    Ok(())
}

/// A script of this many bytes, the last line of which is a comment with a newline, or without.
fn script_of_bytes(alloc: Global, bytes: usize, newline: bool) -> Result<String, AllocError> {
    let mut text = String::from_str(alloc, "attrs 1\nmain\nend\n#")?;
    let end = if newline { "\n" } else { "" };
    let others = if newline { 19 } else { 18 };
    for _ in others..bytes {
        text.push_str("x")?;
    }
    text.push_str(end)?;
    Ok(text)
}

#[test]
fn bytes(rt: HostRuntime) -> Result<(), Fail> {
    for (length, newline, wanted) in [
        (1_048_576, true, None),
        (1_048_576, false, None),
        (1_048_577, true, Some((4, Cause::Limit))),
        (1_048_577, false, Some((4, Cause::Limit))),
    ] {
        let text = script_of_bytes(rt.alloc(), length, newline)?;
        assert_eq!(rt; text.len(), length);
        assert!(rt;
            offence_of(rt.alloc(), text.as_bytes())? == wanted,
            "{length}"
        );
    }
    Ok(())
}
