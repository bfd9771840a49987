//! The commands of the program.
ghost use Rattle.std.specs.Prelude.{◌≡◌, ◌≤◌, ◌⊎◌, Some, None, IfOk, OnErr, drop, map, string_bytes};
ghost use Rattle.std.specs.Vec.Iter.{into_iter_items};
ghost use Rattle.at_script.specs.Script.{script_of};
ghost use Rattle.at_run.specs.PlainRun.{IsPlainRun};
ghost use Rattle.at_run.specs.LegalRun.{IsLegalRun};
ghost use Rattle.attrs.specs.Commands.{command_of};
ghost use Rattle.attrs.specs.Answers.{SourceChange, source_change, sink_change, ReadNothing, ReadTooMany, Wrote};
ghost use Rattle.attrs.specs.Answers.{FailedWriting, WroteNothing, IsAnswer, IsTextAnswer, IsUsageAnswer};
ghost use Rattle.attrs.specs.Answers.{IsNoCommandAnswer, IsPlainAndLegal, refusal_text};

use crate::gate::Gate;
use crate::status::Status;
use crate::telling::{refusal, tell};
use crate::words::{Command, command_of, given_words};
use at_run::run_plain;
use at_script::{Cause, ReadFault, Script};
use at_source::{ReadAllFault, Sink, Source, read_all};
use at_text::{PrintFault, print};
use std::alloc::Global;
use std::env::Args;
use std::io;
use std::sync::Wait;
use std::thread::Threads;

/// How many bytes are too many for a script: one more than it may have.
pub(crate) const TOO_MANY: usize = 1_048_577;

/// Does what the words say. `run` reads a script to the end of the source, runs it, and writes the transcript of one
/// legal history: each write has its own place, the lines run the script, every reply is what the data model gives
/// after just that many writes, and the namespaces printed last are those after all of them. `plain` does the same with
/// the script's one run in which each line is done after the line before it. Any other words are no command: nothing is
/// read, and the usage line is written. What was written whole is flushed, and then neither the source nor the sink
/// failed in this call.
pub fn attrs<R: Wait + Threads + Sync, S: Source, K: Sink, G: Gate + Sync>(
    _rt: &R,
    alloc: Global,
    words: &[String],
    src: &mut S,
    out: &mut K,
    _gate: &G,
) -> Status
    ensures run { command_of (map string_bytes words.now) ≡ Some Command.Run →
        IsAnswer IsLegalRun (source_change S.left S.faults src.old src.new)
        (sink_change K.written K.is_flushed K.faults out.old out.new) result }
    ensures plain { command_of (map string_bytes words.now) ≡ Some Command.Plain →
        IsAnswer IsPlainRun (source_change S.left S.faults src.old src.new)
        (sink_change K.written K.is_flushed K.faults out.old out.new) result }
    ensures legal { command_of (map string_bytes words.now) ≡ Some Command.Plain →
        IsAnswer IsLegalRun (source_change S.left S.faults src.old src.new)
        (sink_change K.written K.is_flushed K.faults out.old out.new) result }
    ensures usage { command_of (map string_bytes words.now) ≡ None →
        IsUsageAnswer (source_change S.left S.faults src.old src.new)
        (sink_change K.written K.is_flushed K.faults out.old out.new) result }

    // No count of faults falls.
    ensures later { (S.faults src.old ≤ S.faults src.new) × (K.faults out.old ≤ K.faults out.new) }
{
    match command_of(words) {
        // The threads of a script run one after another for either.
        Some(Command::Run | Command::Plain) => plain_text(alloc, src, out),
        None => usage(out),
    }
}

/// Does what the words after the program's name say, of the arguments that the environment gives. Where they can't be
/// read, they are no command. Where there is no memory for the words, nothing is read and nothing written.
pub fn start<R: Wait + Threads + Sync, S: Source, K: Sink, G: Gate + Sync>(
    rt: &R,
    alloc: Global,
    arguments: io::Result<Args>,
    src: &mut S,
    out: &mut K,
    gate: &G,
) -> Status
    ensures run { IfOk arguments (λ all.
        command_of (map string_bytes (drop 1 (into_iter_items all))) ≡ Some Command.Run →
        IsAnswer IsLegalRun (source_change S.left S.faults src.old src.new)
        (sink_change K.written K.is_flushed K.faults out.old out.new) result) }
    ensures plain { IfOk arguments (λ all.
        command_of (map string_bytes (drop 1 (into_iter_items all))) ≡ Some Command.Plain →
        IsAnswer IsPlainRun (source_change S.left S.faults src.old src.new)
        (sink_change K.written K.is_flushed K.faults out.old out.new) result) }
    ensures legal { IfOk arguments (λ all.
        command_of (map string_bytes (drop 1 (into_iter_items all))) ≡ Some Command.Plain →
        IsAnswer IsLegalRun (source_change S.left S.faults src.old src.new)
        (sink_change K.written K.is_flushed K.faults out.old out.new) result) }
    ensures usage { IfOk arguments (λ all. command_of (map string_bytes (drop 1 (into_iter_items all))) ≡ None →
        IsNoCommandAnswer (source_change S.left S.faults src.old src.new)
        (sink_change K.written K.is_flushed K.faults out.old out.new) result) }
    ensures no_text { OnErr arguments (IsNoCommandAnswer (source_change S.left S.faults src.old src.new)
        (sink_change K.written K.is_flushed K.faults out.old out.new) result) }

    // No count of faults falls.
    ensures later { (S.faults src.old ≤ S.faults src.new) × (K.faults out.old ≤ K.faults out.new) }
{
    let Ok(words) = given_words(alloc, arguments) else {
        return Status::NoMemory;
    };
    attrs(rt, alloc, &words, src, out, gate)
}

fn usage<K: Sink>(out: &mut K) -> Status
    ensures answer { (r : SourceChange) → ReadNothing r →
        IsUsageAnswer r (sink_change K.written K.is_flushed K.faults out.old out.new) result }
    ensures later { K.faults out.old ≤ K.faults out.new }
{
    match tell(out, b"usage: attrs run or plain or make SEED COUNT\n") {
        Ok(()) => Status::Usage,
        Err(_) => Status::WriteFault,
    }
}

/// Reads a script to the end of the source, runs it on the plain data model, and writes the transcript.
/// It waits for nobody. Bytes that are no script, and more bytes than a script may have, are refused by a line on the
/// sink. A fault is answered only where the source or the sink failed in this call, and what was written whole is
/// flushed.
pub fn plain_text<S: Source, K: Sink>(alloc: Global, src: &mut S, out: &mut K) -> Status
    ensures plain { IsAnswer IsPlainRun (source_change S.left S.faults src.old src.new)
        (sink_change K.written K.is_flushed K.faults out.old out.new) result }
    ensures legal { IsAnswer IsLegalRun (source_change S.left S.faults src.old src.new)
        (sink_change K.written K.is_flushed K.faults out.old out.new) result }
    ensures later { (S.faults src.old ≤ S.faults src.new) × (K.faults out.old ≤ K.faults out.new) }
{
    match read_all(alloc, src, TOO_MANY) {
        Ok(bytes) => answer(alloc, &bytes, out),
        Err(ReadAllFault::Failed) => Status::ReadFault,
        Err(ReadAllFault::TooLong) => too_long(out),
        Err(ReadAllFault::NoMemory) => Status::NoMemory,
    }
}

fn too_long<K: Sink>(out: &mut K) -> Status
    ensures answer { (r : SourceChange) → ReadTooMany r →
        IsAnswer IsPlainAndLegal r (sink_change K.written K.is_flushed K.faults out.old out.new) result }
    ensures later { K.faults out.old ≤ K.faults out.new }
{
    match tell(out, b"refused 0 long\n") {
        Ok(()) => Status::TooLong,
        Err(_) => Status::WriteFault,
    }
}

/// Writes the transcript of the script of these bytes, or that they are no script.
fn answer<K: Sink>(alloc: Global, bytes: &[u8], out: &mut K) -> Status
    ensures answer { IsTextAnswer IsPlainAndLegal bytes.now
        (sink_change K.written K.is_flushed K.faults out.old out.new) result }
    ensures later { K.faults out.old ≤ K.faults out.new }
{
    match at_script::read(alloc, bytes) {
        Ok(script) => transcribe(alloc, bytes, &script, out),
        Err(ReadFault::Refused { line, cause }) => refuse(alloc, line, cause, out),
        Err(ReadFault::NoMemory) => Status::NoMemory,
    }
}

fn transcribe<K: Sink>(alloc: Global, bytes: &[u8], script: &Script, out: &mut K) -> Status
    requires { script_of bytes.now ≡ Some script.now }
    ensures answer { IsTextAnswer IsPlainAndLegal bytes.now
        (sink_change K.written K.is_flushed K.faults out.old out.new) result }
    ensures later { K.faults out.old ≤ K.faults out.new }
{
    let Ok(ran) = run_plain(alloc, script) else {
        return Status::NoMemory;
    };
    match print(alloc, bytes, script, &ran, out) {
        Ok(()) => Status::Good,
        Err(PrintFault::NoMemory) => Status::NoMemory,
        Err(PrintFault::WriteFault) => Status::WriteFault,
    }
}

fn refuse<K: Sink>(alloc: Global, line: u32, cause: Cause, out: &mut K) -> Status
    ensures refused { result ≡ Status.Refused line cause →
        Wrote (sink_change K.written K.is_flushed K.faults out.old out.new) (refusal_text line cause) }
    ensures fault { result ≡ Status.WriteFault →
        FailedWriting (sink_change K.written K.is_flushed K.faults out.old out.new) (refusal_text line cause) }
    ensures no_memory { result ≡ Status.NoMemory →
        WroteNothing (sink_change K.written K.is_flushed K.faults out.old out.new) }
    ensures answers { (result ≡ Status.Refused line cause) ⊎ (result ≡ Status.WriteFault) ⊎ (result ≡ Status.NoMemory) }
    ensures later { K.faults out.old ≤ K.faults out.new }
{
    let Ok(text) = refusal(alloc, line, cause) else {
        return Status::NoMemory;
    };
    match tell(out, &text) {
        Ok(()) => Status::Refused(line, cause),
        Err(_) => Status::WriteFault,
    }
}
