//! Printing the lines of a run.
#![tactic(auto, using(crate::proofs::Printing::then_texts))]

ghost use Rattle.std.specs.Prelude.{◌++◌, codes, decimal};
ghost use Rattle.at_text.specs.Lines.{local_text, thread_text, what_text, line_text};
ghost use Rattle.at_text.specs.Prints.{Prints};
ghost use Rattle.at_text.specs.Tables.{local_word};
ghost use Rattle.at_text.specs.Values.{text_at};
ghost use Rattle.at_line.specs.declared.line.What.TheVariants as whats;

use crate::operation::put_line_op;
use crate::pen::Pen;
use crate::reply::put_line_reply;
use crate::value::put_var;
use crate::words::{EQUALS, LOCAL, LocalWord, path_text};
use at_line::{FINALLY_THREAD, Line, LineOp, LineReply, Local, MAIN_THREAD, What};
use at_script::Script;
use at_source::Sink;
use at_value::{Path, Place};

/// Prints a word and a number.
fn put_word_and_number<K: Sink>(pen: &mut Pen<'_, K>, word: LocalWord, number: u64)
    ensures { Prints pen.old pen.new (local_word word ++ decimal number) }
{
    pen.write(word.text());
    pen.number(number);
}

fn put_unbound<K: Sink>(pen: &mut Pen<'_, K>, names: &Script, var: u16)
    ensures { Prints pen.old pen.new (codes "unbound " ++ text_at names.now.vars var) }
{
    pen.write(LocalWord::Unbound.text());
    put_var(pen, names, var);
}

fn put_local<K: Sink>(pen: &mut Pen<'_, K>, names: &Script, local: &Local)
    ensures { Prints pen.old pen.new (local_text names.now local.now) }
{
    match local {
        Local::Depth => pen.write(LocalWord::Depth.text()),
        Local::Budget => pen.write(LocalWord::Budget.text()),
        Local::Kind => pen.write(LocalWord::Kind.text()),
        Local::Unbound(var) => put_unbound(pen, names, *var),
        Local::NotCallable => pen.write(LocalWord::NotCallable.text()),
        Local::Worn(sequence) => put_word_and_number(pen, LocalWord::Worn, *sequence),
        Local::Full(place) => put_word_and_number(pen, LocalWord::Full, *place),
    }
}

fn put_thread_number<K: Sink>(pen: &mut Pen<'_, K>, thread: u8)
    ensures { Prints pen.old pen.new (codes "t" ++ decimal thread ++ codes " ") }
{
    pen.write(b"t");
    pen.number(u64::from(thread));
    pen.write(b" ");
}

#[inline]
fn put_thread<K: Sink>(pen: &mut Pen<'_, K>, thread: u8)
    ensures { Prints pen.old pen.new (thread_text thread ++ codes " ") }
{
    if thread == MAIN_THREAD {
        pen.write(b"m ");
    } else if thread == FINALLY_THREAD {
        pen.write(b"f ");
    } else {
        put_thread_number(pen, thread);
    }
}

fn put_did<K: Sink>(
    pen: &mut Pen<'_, K>,
    names: &Script,
    place: Place,
    path: &Path,
    op: &LineOp,
    reply: &LineReply,
)
    ensures { Prints pen.old pen.new (what_text names.now (whats.Did place path.now op.now reply.now)) }
{
    pen.number(place.0);
    pen.write(path_text(path));
    put_line_op(pen, names, op);
    pen.write(EQUALS);
    put_line_reply(pen, names, reply);
}

fn put_what<K: Sink>(pen: &mut Pen<'_, K>, names: &Script, what: &What)
    ensures { Prints pen.old pen.new (what_text names.now what.now) }
{
    match what {
        What::Did(place, path, op, reply) => put_did(pen, names, *place, path, op, reply),
        What::Local(local) => {
            pen.write(LOCAL);
            put_local(pen, names, local);
        }
    }
}

/// Prints a line.
pub fn put_line<K: Sink>(pen: &mut Pen<'_, K>, names: &Script, line: &Line)
    ensures { Prints pen.old pen.new (line_text names.now line.now) }
{
    put_thread(pen, line.thread);
    pen.number(u64::from(line.number));
    pen.write(b" ");
    put_what(pen, names, &line.what);
    pen.write(b"\n");
}
