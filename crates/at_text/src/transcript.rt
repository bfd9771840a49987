//! Printing a transcript.
#![tactic(auto, using(crate::proofs::Printing::then_texts))]

ghost use Rattle.std.specs.Prelude.{◌≡◌, ◌≤◌, Err, IsTrue, OnOk, slice_get};
ghost use Rattle.std.specs.Io.KnownBytes.{append_known};
ghost use Rattle.at_source.specs.Faults.{Rose};
ghost use Rattle.at_source.specs.Whole.{GrewByPrefix};
ghost use Rattle.at_text.specs.Lines.{line_text};
ghost use Rattle.at_text.specs.Prints.{Prints, item_text};
ghost use Rattle.at_text.specs.Transcript.{script_text, lines_text, text};

use crate::last::put_final;
use crate::line::put_line;
use crate::order::ByBytes;
use crate::pen::Pen;
use crate::words::{HEADER, LINES, SCRIPT};
use at_line::{Lines, Ran};
use at_script::Script;
use at_source::{Failed, Page, Sink};
use std::alloc::{AllocError, Global};
use thiserror::Error;

/// Why a transcript wasn't printed to its end.
#[derive(Clone, Copy, Debug, PartialEq, Eq, Error)]
pub enum PrintFault {
    /// There was no memory for printing. Nothing was written.
    #[error("out of memory")]
    NoMemory,
    /// The sink failed.
    #[error("the output failed")]
    WriteFault,
}

impl From<AllocError> for PrintFault {
    ghost use Rattle.std.specs.Prelude.{◌≡◌};
    ghost use Rattle.at_text.specs.declared.transcript.PrintFault.TheVariants as faults;

    ghost from_gives = { λ _ fault. fault ≡ faults.NoMemory };

    fn from(_: AllocError) -> PrintFault {
        PrintFault::NoMemory
    }
}

impl From<Failed> for PrintFault {
    ghost use Rattle.std.specs.Prelude.{◌≡◌};
    ghost use Rattle.at_text.specs.declared.transcript.PrintFault.TheVariants as faults;

    ghost from_gives = { λ _ fault. fault ≡ faults.WriteFault };

    fn from(_: Failed) -> PrintFault {
        PrintFault::WriteFault
    }
}

fn put_script<K: Sink>(pen: &mut Pen<'_, K>, script: &[u8])
    ensures { Prints pen.old pen.new (script_text script.now) }
{
    pen.write(HEADER);
    pen.write(SCRIPT);
    pen.number(script.len() as u64);
    pen.write(b"\n");
    pen.write(script);
    pen.write(b"\n");
}

#[inline]
fn put_line_at<K: Sink>(pen: &mut Pen<'_, K>, names: &Script, lines: &Lines, i: usize)
    ensures { Prints pen.old pen.new (item_text (line_text names.now) (slice_get lines.now i)) }
{
    if let Some(line) = lines.at(i) {
        put_line(pen, names, line);
    }
}

fn put_lines<K: Sink>(pen: &mut Pen<'_, K>, names: &Script, lines: &Lines)
    ensures { Prints pen.old pen.new (lines_text names.now lines.now) }
{
    pen.write(LINES);
    pen.number(lines.len() as u64);
    pen.write(b"\n");
    for i in 0..lines.len() {
        put_line_at(pen, names, lines, i);
    }
}

/// Prints the transcript of a run: the bytes of its script, its lines and its final namespaces.
///
/// The names are those of the script; one that it doesn't have is printed as nothing. It prints every run; those that
/// the text tells apart are those of `IsPrintable`. All memory is taken before the first write: for a page of
/// 65,536 bytes, for the order of all names and for the names of one namespace.
pub fn print<K: Sink>(
    alloc: Global,
    script: &[u8],
    names: &Script,
    run: &Ran,
    out: &mut K,
) -> Result<(), PrintFault>
    // The transcript was written, or only a prefix of it.
    ensures text { OnOk result
        (K.written out.new ≡ append_known (K.written out.old) (text script.now names.now run.now.lines run.now.last)) }
    ensures prefix { result ≡ Err PrintFault.WriteFault →
        GrewByPrefix (K.written out.old) (K.written out.new) (text script.now names.now run.now.lines run.now.last) }

    // All that was written is flushed.
    ensures flushed { OnOk result (IsTrue (K.is_flushed out.new)) }

    // The count of faults rises exactly where it answers the write fault, and never falls.
    ensures no_fault { OnOk result (K.faults out.new ≡ K.faults out.old) }
    ensures cause { result ≡ Err PrintFault.WriteFault → Rose (K.faults out.old) (K.faults out.new) }
    ensures later { K.faults out.old ≤ K.faults out.new }

    // Out of memory, the sink is unchanged.
    ensures no_memory { result ≡ Err PrintFault.NoMemory → out.new ≡ out.old }
{
    let page = Page::new(alloc)?;
    let mut order = ByBytes::new(alloc, names)?;
    let mut pen = Pen::new(out, page);
    put_script(&mut pen, script);
    put_lines(&mut pen, names, &run.lines);
    put_final(&mut pen, names, &mut order, &run.last);
    let (out, page) = pen.into_page();
    page.finish(out)?;
    Ok(())
}
