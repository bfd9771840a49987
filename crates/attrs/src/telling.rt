//! Short texts on the sink: why an input is refused.
ghost use Rattle.std.specs.Prelude.{◌≡◌, ◌≤◌, IsTrue, IfOk, OnOk, OnErr};
ghost use Rattle.std.specs.Io.KnownBytes.{append_known};
ghost use Rattle.at_source.specs.Faults.{Rose};
ghost use Rattle.at_source.specs.Whole.{GrewByPrefix};
ghost use Rattle.attrs.specs.Answers as answers;

use at_script::Cause;
use at_source::{Failed, Sink, send};
use std::alloc::{AllocError, Global};

/// Writes a text and flushes it. It is tried once: where the sink fails, a prefix of the text was written.
pub fn tell<K: Sink>(out: &mut K, text: &[u8]) -> Result<(), Failed>
    ensures whole { OnOk result (K.written out.new ≡ append_known (K.written out.old) text.now) }
    ensures flushed { OnOk result (IsTrue (K.is_flushed out.new)) }
    ensures part { OnErr result (GrewByPrefix (K.written out.old) (K.written out.new) text.now) }

    // The count of faults rises exactly where it fails, and never falls.
    ensures no_fault { OnOk result (K.faults out.new ≡ K.faults out.old) }
    ensures cause { OnErr result (Rose (K.faults out.old) (K.faults out.new)) }
    ensures later { K.faults out.old ≤ K.faults out.new }
{
    send(out, text)?;
    out.flush()
}

/// The text that says which line is wrong, and what is wrong with it.
pub fn refusal(alloc: Global, line: u32, cause: Cause) -> Result<Vec<u8>, AllocError>
    ensures { IfOk result (λ text. text.items ≡ answers.refusal_text line cause) }
{
    let mut number = itoa::Buffer::new();
    let mut text = Vec::from_slice(alloc, b"refused ")?;
    text.extend_from_slice(number.format(line).as_bytes())?;
    text.extend_from_slice(b" ")?;
    text.extend_from_slice(cause_word(cause).as_bytes())?;
    text.extend_from_slice(b"\n")?;
    Ok(text)
}

fn cause_word(cause: Cause) -> &'static str
    ensures { result.now ≡ answers.cause_word cause }
{
    match cause {
        Cause::Byte => "byte",
        Cause::Header => "header",
        Cause::Word => "word",
        Cause::Place => "place",
        Cause::Form => "form",
        Cause::Number => "number",
        Cause::Name => "name",
        Cause::Class => "class",
        Cause::Func => "func",
        Cause::Limit => "limit",
        Cause::End => "end",
    }
}
