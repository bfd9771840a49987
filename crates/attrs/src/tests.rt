//! The program end to end, over sources and sinks in memory: the text that it writes, and how it ends. More scripts
//! stand in `examples/`, each beside its transcript.

mod blocks;
mod changes;
mod judging;
mod legality;
mod limits;
mod running;
mod words;

use crate::command::{attrs, plain_text};
use crate::gate::OpenGate;
use crate::status::Status;
use at_script::Cause;
use at_source::{MemSink, MemSource};
use std::alloc::{AllocError, Global};
use std::process::Abort;
use std::sync::Wait;
use std::test::Fail;
use std::thread::Threads;

const FIRST: &str = "attrs 1\nmain\nclass C\nput C.x 1\nnew a C\nget a.x\nget a.x\nend\n";

const TRANSCRIPT: &str = concat!(
    "attrs transcript 1\nscript 59\n",
    "attrs 1\nmain\nclass C\nput C.x 1\nnew a C\nget a.x\nget a.x\nend\n\n",
    "lines 5\nm 1 1 locked class C object = done\nm 2 2 locked put C.x 1 = done\nm 3 3 locked new C = made #0\n",
    "m 4 3 locked get #0.x = value 1\nm 5 3 locked get #0.x = value 1\n",
    "final\nclass object = object\nclass C = C object\n.x 1\nobject #0 C\nend\n"
);

/// A short script, and its transcript.
const SHORT: &str = "attrs 1\nbudget 1\nmain\nmro object\nend\n";

const SHORT_TRANSCRIPT: &str = concat!(
    "attrs transcript 1\nscript 37\nattrs 1\nbudget 1\nmain\nmro object\nend\n\n",
    "lines 1\nm 1 0 locked mro object = order object\nfinal\nclass object = object\nend\n"
);

/// How many bytes a source gives and a sink takes in one call, at least one, which call of each fails, and how many
/// bytes the sink takes in all.
#[derive(Clone, Copy, Debug)]
struct Ends {
    most_read: usize,
    failing_read: Option<u64>,
    room: usize,
    most_written: usize,
    failing_write: Option<u64>,
}

/// Ends that don't fail.
const SOUND: Ends = Ends {
    most_read: 1000,
    failing_read: None,
    room: 1_000_000,
    most_written: 1000,
    failing_write: None,
};

/// The numbers of the calls that fail.
fn failing(alloc: Global, call: Option<u64>) -> Result<Vec<u64>, AllocError> {
    let mut calls = Vec::new(alloc);
    if let Some(number) = call {
        calls.push(number)?;
    }
    Ok(calls)
}

fn source(alloc: Global, bytes: &[u8], ends: &Ends) -> Result<MemSource, AllocError> {
    let fails = failing(alloc, ends.failing_read)?;
    let bytes = Vec::from_slice(alloc, bytes)?;
    Ok(MemSource::new(bytes, ends.most_read.max(1), fails))
}

fn sink(alloc: Global, ends: &Ends) -> Result<MemSink, AllocError> {
    let fails = failing(alloc, ends.failing_write)?;
    MemSink::new(alloc, ends.room, ends.most_written.max(1), fails)
}

/// How a call ended, and the sink that it wrote to.
#[derive(Drop)]
struct Ended {
    status: Status,
    out: MemSink,
}

/// Runs a script on the plain data model.
fn plain_over(alloc: Global, script: &[u8], ends: &Ends) -> Result<Ended, AllocError> {
    let mut src = source(alloc, script, ends)?;
    let mut out = sink(alloc, ends)?;
    let status = plain_text(alloc, &mut src, &mut out);
    Ok(Ended { status, out })
}

/// Runs a script on the plain data model. The call has to end so, with these bytes written.
fn plain_ends<R: Abort>(
    rt: &R,
    alloc: Global,
    script: &[u8],
    ends: &Ends,
    status: Status,
    written: &[u8],
) -> Result<(), AllocError> {
    let ended = plain_over(alloc, script, ends)?;
    assert_ended(rt, &ended, status, written, ends);
    Ok(())
}

fn owned(alloc: Global, words: &[&str]) -> Result<Vec<String>, AllocError> {
    let mut owned = Vec::new(alloc);
    for word in words {
        owned.push(word.to_string(alloc)?)?;
    }
    Ok(owned)
}

/// Does what the words say, with a script to read.
fn commanded<R: Wait + Threads + Sync>(
    rt: &R,
    alloc: Global,
    words: &[String],
    script: &str,
) -> Result<Ended, AllocError> {
    let mut src = source(alloc, script.as_bytes(), &SOUND)?;
    let mut out = sink(alloc, &SOUND)?;
    let status = attrs(rt, alloc, words, &mut src, &mut out, &OpenGate);
    Ok(Ended { status, out })
}

/// Does what the words say, with a script to read. The call has to end so, with this text written.
fn command_ends<R: Wait + Threads + Sync + Abort>(
    rt: &R,
    alloc: Global,
    words: &[&str],
    script: &str,
    status: Status,
    written: &str,
) -> Result<(), AllocError> {
    let words = owned(alloc, words)?;
    let ended = commanded(rt, alloc, &words, script)?;
    assert_ended(rt, &ended, status, written.as_bytes(), &SOUND);
    Ok(())
}

/// The call has ended so over these ends, and this is what it wrote.
fn assert_ended<R: Abort>(rt: &R, ended: &Ended, status: Status, written: &[u8], ends: &Ends) {
    assert_eq!(rt; ended.status, status, "{ends:?}");
    assert_eq!(rt; ended.out.bytes(), written, "{ends:?}");
}

/// Scripts, what is written for them, and how the call ends.
const TEXTS: [(&str, &str, Status); 5] = [
    (
        "attrs 1\nmain\nend\n",
        "attrs transcript 1\nscript 17\nattrs 1\nmain\nend\n\nlines 0\nfinal\nclass object = object\nend\n",
        Status::Good,
    ),
    (FIRST, TRANSCRIPT, Status::Good),
    ("", "refused 1 header\n", Status::Refused(1, Cause::Header)),
    (
        "attrs 9\nmain\nend\n",
        "refused 1 header\n",
        Status::Refused(1, Cause::Header),
    ),
    (
        "attrs 1\nmain\nset a. 1\nend\n",
        "refused 3 form\n",
        Status::Refused(3, Cause::Form),
    ),
];

#[test]
fn texts_and_statuses(rt: HostRuntime) -> Result<(), Fail> {
    for (script, written, status) in TEXTS {
        for (most_read, most_written) in [(100_000, 100_000), (1, 100_000), (100_000, 1), (7, 3)] {
            let ends = Ends {
                most_read,
                most_written,
                ..SOUND
            };
            let (script, written) = (script.as_bytes(), written.as_bytes());
            plain_ends(&rt, rt.alloc(), script, &ends, status, written)?;
        }
    }
    Ok(())
}

#[test]
fn a_read_fault_writes_nothing(rt: HostRuntime) -> Result<(), Fail> {
    // 59 bytes come in nine reads of at most seven, and one more finds the end.
    for number in 0..10 {
        let ends = Ends {
            most_read: 7,
            failing_read: Some(number),
            ..SOUND
        };
        plain_ends(
            &rt,
            rt.alloc(),
            FIRST.as_bytes(),
            &ends,
            Status::ReadFault,
            &[],
        )?;
    }
    Ok(())
}

/// The first bytes of the text.
fn prefix(text: &str, length: usize) -> &[u8] {
    let most = length.min(text.len());
    &text.as_bytes()[..most]
}

/// Ends that take a byte a write and fail at one, so that the call's number is the count of bytes.
fn failing_at(number: usize) -> Ends {
    Ends {
        most_written: 1,
        failing_write: Some(number as u64),
        ..SOUND
    }
}

/// A write to these ends fails, with these bytes written before.
fn write_fails<R: Abort>(
    rt: &R,
    alloc: Global,
    script: &str,
    ends: &Ends,
    written: &[u8],
) -> Result<(), AllocError> {
    let bytes = script.as_bytes();
    plain_ends(rt, alloc, bytes, ends, Status::WriteFault, written)
}

#[test]
fn a_write_fault_leaves_a_prefix(rt: HostRuntime) -> Result<(), Fail> {
    // The last call is the flush.
    for number in 0..=SHORT_TRANSCRIPT.len() {
        let written = prefix(SHORT_TRANSCRIPT, number);
        write_fails(&rt, rt.alloc(), SHORT, &failing_at(number), written)?;
    }
    Ok(())
}

#[test]
fn a_full_sink_has_a_prefix(rt: HostRuntime) -> Result<(), Fail> {
    for room in 0..SHORT_TRANSCRIPT.len() {
        let ends = Ends {
            room,
            most_written: 100,
            ..SOUND
        };
        let written = prefix(SHORT_TRANSCRIPT, room);
        write_fails(&rt, rt.alloc(), SHORT, &ends, written)?;
    }
    Ok(())
}

#[test]
fn a_write_fault_leaves_a_prefix_of_a_refusal(rt: HostRuntime) -> Result<(), Fail> {
    let refusal = "refused 1 header\n";
    for number in 0..=refusal.len() {
        let written = prefix(refusal, number);
        write_fails(&rt, rt.alloc(), "", &failing_at(number), written)?;
    }
    Ok(())
}
