//! The words of the program: which they are, what they do, and the codes of its statuses.
use super::{FIRST, TRANSCRIPT, command_ends, owned};
use crate::gate::{Gate, OpenGate};
use crate::status::Status;
use crate::words::words_from;
use at_script::Cause;
use std::alloc::AllocError;
use std::io::{self, ErrorKind};
use std::process::Abort;
use std::test::Fail;

const USAGE: &str = "usage: attrs run or plain or make SEED COUNT\n";

/// Words, how the program ends, and what it writes.
const COMMANDS: [(&[&str], Status, &str); 11] = [
    (&[], Status::Usage, USAGE),
    (&["run", "x"], Status::Usage, USAGE),
    (&["RUN"], Status::Usage, USAGE),
    (&["runs"], Status::Usage, USAGE),
    (&["plain", "plain"], Status::Usage, USAGE),
    (&["plai"], Status::Usage, USAGE),
    (&["make", "1", "1"], Status::Usage, USAGE),
    (&["check"], Status::Usage, USAGE),
    (&[""], Status::Usage, USAGE),
    (&["run"], Status::Good, TRANSCRIPT),
    (&["plain"], Status::Good, TRANSCRIPT),
];

#[test]
fn words_are_compared_whole(rt: HostRuntime) -> Result<(), Fail> {
    for (words, status, written) in COMMANDS {
        command_ends(&rt, rt.alloc(), words, FIRST, status, written)?;
    }
    OpenGate.before(&rt, 0, 1);
    Ok(())
}

/// Arguments, the program's name first, and the words after it.
const ARGUMENTS: [(&[&str], &[&str]); 4] = [
    (&[], &[]),
    (&["attrs"], &[]),
    (&["attrs", "run"], &["run"]),
    (&["attrs", "run", "", "x"], &["run", "", "x"]),
];

fn assert_words<R: Abort>(rt: &R, words: &[String], wanted: &[&str]) {
    assert_eq!(rt; words.len(), wanted.len());
    for (word, wanted) in words.iter().zip(wanted) {
        assert_eq!(rt; word.as_str(), *wanted);
    }
}

#[test]
fn words_stand_after_the_name(rt: HostRuntime) -> Result<(), Fail> {
    for (arguments, wanted) in ARGUMENTS {
        let words = words_from(rt.alloc(), Ok(owned(rt.alloc(), arguments)?))?;
        assert_words(&rt, &words, wanted);
    }
    Ok(())
}

#[test]
fn arguments_that_are_no_text_are_one_empty_word(rt: HostRuntime) -> Result<(), Fail> {
    let words = words_from(rt.alloc(), Err(io::Error::from(ErrorKind::InvalidData)))?;
    assert_words(&rt, &words, &[""]);
    Ok(())
}

#[test]
fn arguments_without_memory_are_no_words(rt: HostRuntime) {
    let words = words_from(rt.alloc(), Err(io::Error::from(ErrorKind::OutOfMemory)));
    assert!(rt; matches!(&words, Err(AllocError)));
}

#[test]
fn statuses_have_their_codes(rt: HostRuntime) {
    let rows = [
        (Status::Good, 0),
        (Status::Refused(3, Cause::Form), 1),
        (Status::TooLong, 1),
        (Status::Usage, 2),
        (Status::NoMemory, 3),
        (Status::ReadFault, 4),
        (Status::WriteFault, 5),
    ];
    for (status, code) in rows {
        assert_eq!(rt; status.code(), code, "{status:?}");
    }
}
