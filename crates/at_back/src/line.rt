//! Reading lines.
#![tactic(auto, unfolding(at_text::specs::Readers::both, at_text::specs::Readers::before, at_text::specs::Readers::after, at_text::specs::Readers::made, at_text::specs::Readers::passing, at_text::specs::Readers::nothing))]

ghost use Rattle.std.specs.Prelude.{◌≡◌, ◌^◌, map, IfOk, Err};
ghost use Rattle.at_text.specs.Readers.{nothing, choice, number_at};
ghost use Rattle.at_text.specs.ReadLines as read_lines;
ghost use Rattle.at_text.specs.Tables.{local_word, all_local_words};
ghost use Rattle.at_script.specs.Parts.{ScriptParts};
ghost use Rattle.at_back.specs.Left.{left, found, IfTold};
ghost use Rattle.at_back.specs.Told.{IsAtFront, HasNoneAtFront};

use crate::cursor::Cursor;
use crate::fault::{PieceFault, there};
use crate::index::Index;
use crate::number::number_of;
use crate::operation::line_op_at;
use crate::reply::line_reply_at;
use crate::value::var_at;
use at_line::{FINALLY_THREAD, Line, LineOp, Local, MAIN_THREAD, What};
use at_text::words::{EQUALS, LOCAL, LocalWord, path_text, paths};
use at_value::{Path, Place};
use std::alloc::Global;

/// How many 32-bit numbers there are.
const SHORT: u64 = 1 << 32;

/// A number of 64 bits.
#[tactic(auto, using(crate::proofs::Runs::run_again), unfolding(at_text::specs::Readers::number_at))]
fn long_at(text: &mut Cursor<'_>) -> Option<u64>
    ensures { left result text.new ≡ number_at (2 ^ 64) text.old }
{
    number_of(text.run())
}

/// The way that a call went, between blanks, with 0 for each number that a miss carries.
#[tactic(auto, unfolding(at_text::specs::Readers::both, at_text::specs::Readers::before, at_text::specs::Readers::after, at_text::specs::Readers::made, at_text::specs::Readers::passing, at_text::specs::Readers::nothing, at_text::specs::ReadLines::path_item_at))]
fn path_item_at(text: &mut Cursor<'_>) -> Option<Path>
    ensures { left result text.new ≡ read_lines.path_item_at text.old }
{
    for path in paths() {
        if text.past(path_text(&path)) {
            return Some(path);
        }
    }
    None
}

fn local_word_at(text: &mut Cursor<'_>) -> Option<LocalWord>
    ensures { left result text.new ≡ choice (map (λ w. (local_word w, nothing w)) all_local_words) text.old }
{
    for word in LocalWord::ALL {
        if text.past(word.text()) {
            return Some(word);
        }
    }
    None
}

fn unbound_at(text: &mut Cursor<'_>, names: &Index<'_>) -> Option<Local>
    ensures { left result text.new ≡ read_lines.local_rest names.now LocalWord.Unbound text.old }
{
    let var = var_at(text, names)?;
    Some(Local::Unbound(var))
}

fn worn_at(text: &mut Cursor<'_>) -> Option<Local>
    ensures { (s : ScriptParts) → left result text.new ≡ read_lines.local_rest s LocalWord.Worn text.old }
{
    let sequence = long_at(text)?;
    Some(Local::Worn(sequence))
}

fn full_at(text: &mut Cursor<'_>) -> Option<Local>
    ensures { (s : ScriptParts) → left result text.new ≡ read_lines.local_rest s LocalWord.Full text.old }
{
    let place = long_at(text)?;
    Some(Local::Full(place))
}

/// What a line that is no operation says, after its word.
fn local_rest(text: &mut Cursor<'_>, names: &Index<'_>, word: LocalWord) -> Option<Local>
    ensures { left result text.new ≡ read_lines.local_rest names.now word text.old }
{
    match word {
        LocalWord::Depth => Some(Local::Depth),
        LocalWord::Budget => Some(Local::Budget),
        LocalWord::Kind => Some(Local::Kind),
        LocalWord::Unbound => unbound_at(text, names),
        LocalWord::NotCallable => Some(Local::NotCallable),
        LocalWord::Worn => worn_at(text),
        LocalWord::Full => full_at(text),
    }
}

#[tactic(auto, unfolding(at_text::specs::Readers::both, at_text::specs::Readers::before, at_text::specs::Readers::after, at_text::specs::Readers::made, at_text::specs::Readers::passing, at_text::specs::Readers::nothing, at_text::specs::ReadLines::local_at))]
fn local_at(text: &mut Cursor<'_>, names: &Index<'_>) -> Option<Local>
    ensures { left result text.new ≡ read_lines.local_at names.now text.old }
{
    match local_word_at(text) {
        Some(word) => local_rest(text, names, word),
        None => None,
    }
}

/// A thread: `m`, `f`, or `t` and its number.
#[tactic(auto, unfolding(at_text::specs::Readers::both, at_text::specs::Readers::before, at_text::specs::Readers::after, at_text::specs::Readers::made, at_text::specs::Readers::passing, at_text::specs::Readers::nothing, at_text::specs::ReadLines::thread_at))]
fn thread_at(text: &mut Cursor<'_>) -> Option<u8>
    ensures { left result text.new ≡ read_lines.thread_at text.old }
{
    if text.past(b"m") {
        return Some(MAIN_THREAD);
    }
    if text.past(b"f") {
        return Some(FINALLY_THREAD);
    }
    text.expect(b"t")?;
    let thread = text.positive(u64::from(FINALLY_THREAD))?;
    Some(thread as u8)
}

/// Place, path and operation.
#[tactic(auto, unfolding(at_text::specs::Readers::both, at_text::specs::Readers::before, at_text::specs::Readers::after, at_text::specs::Readers::made, at_text::specs::Readers::passing, at_text::specs::Readers::nothing, at_text::specs::ReadLines::done_at))]
fn done_at(text: &mut Cursor<'_>, names: &Index<'_>) -> Option<((u64, Path), LineOp)>
    ensures { left result text.new ≡ read_lines.done_at names.now text.old }
{
    let place = long_at(text)?;
    let path = path_item_at(text)?;
    let op = line_op_at(text, names)?;
    text.expect(EQUALS)?;
    Some(((place, path), op))
}

/// Place, path, operation and reply.
#[tactic(auto, unfolding(at_text::specs::Readers::both, at_text::specs::Readers::before, at_text::specs::Readers::after, at_text::specs::Readers::made, at_text::specs::Readers::passing, at_text::specs::Readers::nothing, at_text::specs::ReadLines::did_at))]
fn did_at(alloc: Global, text: &mut Cursor<'_>, names: &Index<'_>) -> Result<What, PieceFault>
    ensures { IfTold result (left (found result) text.new ≡ read_lines.did_at names.now text.old) }
{
    let ((place, path), op) = there(done_at(text, names))?;
    let reply = line_reply_at(alloc, text, names)?;
    Ok(What::Did(Place(place), path, op, reply))
}

/// What a line that is no operation says.
#[tactic(auto, unfolding(at_text::specs::Readers::both, at_text::specs::Readers::before, at_text::specs::Readers::after, at_text::specs::Readers::made, at_text::specs::Readers::passing, at_text::specs::Readers::nothing, at_text::specs::ReadLines::local_what_at))]
fn local_what_at(text: &mut Cursor<'_>, names: &Index<'_>) -> Option<What>
    ensures { left result text.new ≡ read_lines.local_what_at names.now text.old }
{
    text.expect(LOCAL)?;
    let local = local_at(text, names)?;
    Some(What::Local(local))
}

/// What a line says after its thread and its number.
#[tactic(auto, unfolding(at_text::specs::ReadLines::what_at))]
fn what_at(alloc: Global, text: &mut Cursor<'_>, names: &Index<'_>) -> Result<What, PieceFault>
    ensures { IfTold result (left (found result) text.new ≡ read_lines.what_at names.now text.old) }
{
    if text.begins_run() {
        did_at(alloc, text, names)
    } else {
        there(local_what_at(text, names))
    }
}

/// The thread and the number of a line, each with a blank after it.
#[tactic(auto, unfolding(at_text::specs::Readers::both, at_text::specs::Readers::before, at_text::specs::Readers::after, at_text::specs::Readers::made, at_text::specs::Readers::passing, at_text::specs::Readers::nothing, at_text::specs::ReadLines::front_at))]
fn front_at(text: &mut Cursor<'_>) -> Option<(u8, u32)>
    ensures { left result text.new ≡ read_lines.front_at text.old }
{
    let thread = thread_at(text)?;
    text.expect(b" ")?;
    let number = text.number(SHORT)?;
    text.expect(b" ")?;
    Some((thread, number as u32))
}

#[tactic(auto, unfolding(at_text::specs::Readers::both, at_text::specs::Readers::before, at_text::specs::Readers::after, at_text::specs::Readers::made, at_text::specs::Readers::passing, at_text::specs::Readers::nothing, at_text::specs::ReadLines::line_at))]
fn line_found(alloc: Global, text: &mut Cursor<'_>, names: &Index<'_>) -> Result<Line, PieceFault>
    ensures { IfTold result (left (found result) text.new ≡ read_lines.line_at names.now text.old) }
{
    let (thread, number) = there(front_at(text))?;
    let what = what_at(alloc, text, names)?;
    there(text.expect(b"\n"))?;
    Ok(Line {
        what,
        number,
        thread,
    })
}

/// Reads a line, with the newline that ends it. What a miss carries isn't in the text, and each number of it is 0.
pub fn line_at(alloc: Global, text: &mut Cursor<'_>, names: &Index<'_>) -> Result<Line, PieceFault>
    // The text of the line stands at the front, and what follows it is left.
    ensures told { IfOk result (λ line. IsAtFront names.now text.old line text.new) }

    // No line stands there.
    ensures wrong { result ≡ Err PieceFault.Wrong → HasNoneAtFront names.now text.old }
{
    let _script = names.script();
    line_found(alloc, text, names)
}
