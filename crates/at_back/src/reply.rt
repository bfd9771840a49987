//! Reading replies.
#![tactic(auto, unfolding(at_text::specs::Readers::both, at_text::specs::Readers::before, at_text::specs::Readers::after, at_text::specs::Readers::made, at_text::specs::Readers::passing, at_text::specs::Readers::nothing))]

ghost use Rattle.std.specs.Prelude.{◌≡◌, ◌≢◌, ◌^◌, map};
ghost use Rattle.at_text.specs.Readers.{nothing, choice};
ghost use Rattle.at_text.specs.Lines.{hook_word};
ghost use Rattle.at_text.specs.ReadValues as read_values;
ghost use Rattle.at_text.specs.ReadLines as read_lines;
ghost use Rattle.at_text.specs.Tables.{reply_word, all_reply_words};
ghost use Rattle.at_script.specs.Parts.{ScriptParts};
ghost use Rattle.at_back.specs.Left.{left, found, IfTold};

use crate::cursor::Cursor;
use crate::fault::{PieceFault, there};
use crate::index::Index;
use crate::list::add;
use crate::value::{class_at, class_item_at, func_at, object_at, value_at, value_item_at};
use at_line::LineReply;
use at_text::words::{HOOKS, INIT, ReplyWord, hook_text};
use at_value::{ClassList, HookKind, Reply, Value};
use std::alloc::Global;

/// How many 32-bit numbers there are.
const SHORT: u64 = 1 << 32;

/// The word of a reply.
fn reply_word_at(text: &mut Cursor<'_>) -> Option<ReplyWord>
    ensures { left result text.new ≡ choice (map (λ w. (reply_word w, nothing w)) all_reply_words) text.old }
{
    for word in ReplyWord::ALL {
        if text.past(word.text()) {
            return Some(word);
        }
    }
    None
}

#[tactic(auto, unfolding(at_text::specs::Readers::both, at_text::specs::Readers::before, at_text::specs::Readers::after, at_text::specs::Readers::made, at_text::specs::Readers::passing, at_text::specs::Readers::nothing, at_text::specs::ReadLines::hook_at))]
fn hook_kind_at(text: &mut Cursor<'_>) -> Option<HookKind>
    ensures { left result text.new ≡ read_lines.hook_at text.old }
{
    for kind in HOOKS {
        if text.past(hook_text(kind)) {
            return Some(kind);
        }
    }
    None
}

fn value_reply_at(text: &mut Cursor<'_>, names: &Index<'_>) -> Option<LineReply>
    ensures { left result text.new ≡ read_lines.reply_rest names.now ReplyWord.Value text.old }
{
    let value = value_at(text, names)?;
    Some(LineReply::Of(Reply::Value(value)))
}

/// A hook: its kind, callee, receiver, other argument and value.
fn hook_reply_at(text: &mut Cursor<'_>, names: &Index<'_>) -> Option<LineReply>
    ensures { left result text.new ≡ read_lines.reply_rest names.now ReplyWord.Hook text.old }
{
    let kind = hook_kind_at(text)?;
    let callee = value_item_at(text, names)?;
    let receiver = value_item_at(text, names)?;
    let other = value_item_at(text, names)?;
    let value = value_item_at(text, names)?;
    Some(LineReply::Of(Reply::Hook(kind, callee, receiver, other, value)))
}

fn method_at(text: &mut Cursor<'_>, names: &Index<'_>) -> Option<LineReply>
    ensures { left result text.new ≡ read_lines.reply_rest names.now ReplyWord.Method text.old }
{
    let func = func_at(text, names)?;
    let first = value_item_at(text, names)?;
    Some(LineReply::Of(Reply::Method(func, first)))
}

/// What `__init__` is in the class of a new object, where it is there.
fn init_at(text: &mut Cursor<'_>, names: &Index<'_>) -> Option<Option<Value>>
    ensures { left result text.new ≡ read_lines.init_at names.now text.old }
{
    if text.begins_with(b' ') {
        text.expect(INIT)?;
        let init = value_at(text, names)?;
        Some(Some(init))
    } else {
        Some(None)
    }
}

fn made_at(text: &mut Cursor<'_>, names: &Index<'_>) -> Option<LineReply>
    ensures { left result text.new ≡ read_lines.reply_rest names.now ReplyWord.Made text.old }
{
    let object = object_at(text)?;
    let init = init_at(text, names)?;
    Some(LineReply::Of(Reply::Made(object, init)))
}

fn no_order_at(text: &mut Cursor<'_>, names: &Index<'_>) -> Option<LineReply>
    ensures { left result text.new ≡ read_lines.reply_rest names.now ReplyWord.NoOrder text.old }
{
    let class = class_at(text, names)?;
    Some(LineReply::Of(Reply::NoOrder(class)))
}

/// How many times a section was given back.
fn suspended_at(text: &mut Cursor<'_>) -> Option<LineReply>
    ensures { (s : ScriptParts) → left result text.new ≡ read_lines.reply_rest s ReplyWord.Suspended text.old }
{
    let times = text.number(SHORT)?;
    Some(LineReply::Suspended(times as u32))
}

/// Classes, each with a blank before it.
pub fn classes_at(
    alloc: Global,
    text: &mut Cursor<'_>,
    names: &Index<'_>,
) -> Result<ClassList, PieceFault>
    ensures { IfTold result (left (found result) text.new ≡ read_values.classes_at names.now text.old) }
{
    let mut classes = Vec::new(alloc);
    while text.begins_item() {
        let Some(class) = class_item_at(text, names) else {
            return Err(PieceFault::Wrong);
        };
        add(&mut classes, class)?;
    }
    Ok(ClassList::copy_of(alloc, &classes)?)
}

/// The order of a class.
fn order_at(
    alloc: Global,
    text: &mut Cursor<'_>,
    names: &Index<'_>,
) -> Result<LineReply, PieceFault>
    ensures { IfTold result (left (found result) text.new ≡
        read_lines.reply_rest names.now ReplyWord.Order text.old) }
{
    let order = classes_at(alloc, text, names)?;
    Ok(LineReply::Of(Reply::Order(order)))
}

/// A reply after its word, which isn't that of an order.
fn plain_rest(text: &mut Cursor<'_>, names: &Index<'_>, word: ReplyWord) -> Option<LineReply>
    requires { word ≢ ReplyWord.Order }
    ensures { left result text.new ≡ read_lines.reply_rest names.now word text.old }
{
    match word {
        ReplyWord::Value => value_reply_at(text, names),
        ReplyWord::Done => Some(LineReply::Of(Reply::Done)),
        ReplyWord::NoAttr => Some(LineReply::Of(Reply::NoAttr)),
        ReplyWord::Method => method_at(text, names),
        ReplyWord::Made => made_at(text, names),
        ReplyWord::Hook => hook_reply_at(text, names),
        ReplyWord::Kept => Some(LineReply::Kept),
        ReplyWord::Suspended => suspended_at(text),
        ReplyWord::NoGetter => Some(LineReply::Of(Reply::NoGetter)),
        ReplyWord::NoSetter => Some(LineReply::Of(Reply::NoSetter)),
        ReplyWord::NoDeleter => Some(LineReply::Of(Reply::NoDeleter)),
        ReplyWord::NoClass => Some(LineReply::Of(Reply::NoClass)),
        ReplyWord::NameTaken => Some(LineReply::Of(Reply::NameTaken)),
        ReplyWord::EmptyBases => Some(LineReply::Of(Reply::EmptyBases)),
        ReplyWord::Duplicate => Some(LineReply::Of(Reply::Duplicate)),
        ReplyWord::Cycle => Some(LineReply::Of(Reply::Cycle)),
        ReplyWord::NoOrder => no_order_at(text, names),
        ReplyWord::Immutable => Some(LineReply::Of(Reply::Immutable)),
        ReplyWord::NotSubclass => Some(LineReply::Of(Reply::NotSubclass)),
        ReplyWord::Full => Some(LineReply::Of(Reply::Full)),
        ReplyWord::Order => None,
    }
}

/// A reply after its word.
fn reply_rest(
    alloc: Global,
    text: &mut Cursor<'_>,
    names: &Index<'_>,
    word: ReplyWord,
) -> Result<LineReply, PieceFault>
    ensures { IfTold result (left (found result) text.new ≡ read_lines.reply_rest names.now word text.old) }
{
    match word {
        ReplyWord::Order => order_at(alloc, text, names),
        _ => there(plain_rest(text, names, word)),
    }
}

/// The reply of a line.
#[tactic(auto, unfolding(at_text::specs::Readers::both, at_text::specs::Readers::before, at_text::specs::Readers::after, at_text::specs::Readers::made, at_text::specs::Readers::passing, at_text::specs::Readers::nothing, at_text::specs::ReadLines::line_reply_at))]
pub fn line_reply_at(
    alloc: Global,
    text: &mut Cursor<'_>,
    names: &Index<'_>,
) -> Result<LineReply, PieceFault>
    ensures { IfTold result (left (found result) text.new ≡ read_lines.line_reply_at names.now text.old) }
{
    match reply_word_at(text) {
        Some(word) => reply_rest(alloc, text, names, word),
        None => Err(PieceFault::Wrong),
    }
}
