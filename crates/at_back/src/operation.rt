//! Reading operations.
#![tactic(auto, unfolding(at_text::specs::Readers::both, at_text::specs::Readers::before, at_text::specs::Readers::after, at_text::specs::Readers::made, at_text::specs::Readers::passing, at_text::specs::Readers::nothing))]

ghost use Rattle.std.specs.Prelude.{◌≡◌, map};
ghost use Rattle.at_text.specs.Readers.{nothing, choice};
ghost use Rattle.at_text.specs.Tables.{op_word, all_op_words};
ghost use Rattle.at_text.specs.ReadLines as read_lines;
ghost use Rattle.at_script.specs.Parts.{ScriptParts};
ghost use Rattle.at_back.specs.Left.{left};

use crate::cursor::Cursor;
use crate::index::Index;
use crate::value::{
    bases_at, class_at, class_attribute_at, class_item_at, object_at, object_attribute_at,
    value_item_at,
};
use at_line::LineOp;
use at_text::words::OpWord;
use at_value::{Obj, Op};

/// The word of an operation.
fn op_word_at(text: &mut Cursor<'_>) -> Option<OpWord>
    ensures { left result text.new ≡ choice (map (λ w. (op_word w, nothing w)) all_op_words) text.old }
{
    for word in OpWord::ALL {
        if text.past(word.text()) {
            return Some(word);
        }
    }
    None
}

/// The second object of a section, where there is one.
fn second_at(text: &mut Cursor<'_>) -> Option<Option<Obj>>
    ensures { left result text.new ≡ read_lines.second_at text.old }
{
    if text.begins_object() {
        text.expect(b" ")?;
        let object = object_at(text)?;
        Some(Some(object))
    } else {
        Some(None)
    }
}

/// `#N.x`, read.
fn get_at(text: &mut Cursor<'_>, names: &Index<'_>) -> Option<LineOp>
    ensures { left result text.new ≡ read_lines.op_rest names.now OpWord.Get text.old }
{
    let (object, name) = object_attribute_at(text, names)?;
    Some(LineOp::Of(Op::Get(object, name)))
}

/// `#N.x V`.
fn set_at(text: &mut Cursor<'_>, names: &Index<'_>) -> Option<LineOp>
    ensures { left result text.new ≡ read_lines.op_rest names.now OpWord.Set text.old }
{
    let (object, name) = object_attribute_at(text, names)?;
    let value = value_item_at(text, names)?;
    Some(LineOp::Of(Op::Set(object, name, value)))
}

/// `#N.x`, deleted.
fn del_at(text: &mut Cursor<'_>, names: &Index<'_>) -> Option<LineOp>
    ensures { left result text.new ≡ read_lines.op_rest names.now OpWord.Del text.old }
{
    let (object, name) = object_attribute_at(text, names)?;
    Some(LineOp::Of(Op::Del(object, name)))
}

/// `#N.x`, read by the class alone.
fn special_at(text: &mut Cursor<'_>, names: &Index<'_>) -> Option<LineOp>
    ensures { left result text.new ≡ read_lines.op_rest names.now OpWord.Special text.old }
{
    let (object, name) = object_attribute_at(text, names)?;
    Some(LineOp::Of(Op::Special(object, name)))
}

/// `C.x V`.
fn put_at(text: &mut Cursor<'_>, names: &Index<'_>) -> Option<LineOp>
    ensures { left result text.new ≡ read_lines.op_rest names.now OpWord.Put text.old }
{
    let (class, name) = class_attribute_at(text, names)?;
    let value = value_item_at(text, names)?;
    Some(LineOp::Of(Op::TypeSet(class, name, value)))
}

/// `C.x`, removed.
fn cut_at(text: &mut Cursor<'_>, names: &Index<'_>) -> Option<LineOp>
    ensures { left result text.new ≡ read_lines.op_rest names.now OpWord.Cut text.old }
{
    let (class, name) = class_attribute_at(text, names)?;
    Some(LineOp::Of(Op::TypeDel(class, name)))
}

/// `C.x`, read.
fn cget_at(text: &mut Cursor<'_>, names: &Index<'_>) -> Option<LineOp>
    ensures { left result text.new ≡ read_lines.op_rest names.now OpWord.Cget text.old }
{
    let (class, name) = class_attribute_at(text, names)?;
    Some(LineOp::Of(Op::TypeGet(class, name)))
}

/// `C`.
fn new_at(text: &mut Cursor<'_>, names: &Index<'_>) -> Option<LineOp>
    ensures { left result text.new ≡ read_lines.op_rest names.now OpWord.New text.old }
{
    let class = class_at(text, names)?;
    Some(LineOp::Of(Op::New(class)))
}

/// `C`, whose order is read.
fn mro_at(text: &mut Cursor<'_>, names: &Index<'_>) -> Option<LineOp>
    ensures { left result text.new ≡ read_lines.op_rest names.now OpWord.Mro text.old }
{
    let class = class_at(text, names)?;
    Some(LineOp::Of(Op::Mro(class)))
}

/// `C B..`.
fn new_class_at(text: &mut Cursor<'_>, names: &Index<'_>) -> Option<LineOp>
    ensures { left result text.new ≡ read_lines.op_rest names.now OpWord.Class text.old }
{
    let class = class_at(text, names)?;
    let bases = bases_at(text, names)?;
    Some(LineOp::Of(Op::NewClass(class, bases)))
}

/// `C B..`, of a class that is there.
fn set_bases_at(text: &mut Cursor<'_>, names: &Index<'_>) -> Option<LineOp>
    ensures { left result text.new ≡ read_lines.op_rest names.now OpWord.Bases text.old }
{
    let class = class_at(text, names)?;
    let bases = bases_at(text, names)?;
    Some(LineOp::Of(Op::SetBases(class, bases)))
}

/// `#N C`.
fn turn_at(text: &mut Cursor<'_>, names: &Index<'_>) -> Option<LineOp>
    ensures { left result text.new ≡ read_lines.op_rest names.now OpWord.Turn text.old }
{
    let object = object_at(text)?;
    let class = class_item_at(text, names)?;
    Some(LineOp::Of(Op::SetClass(object, class)))
}

/// `#N #M`.
fn share_at(text: &mut Cursor<'_>) -> Option<LineOp>
    ensures { (s : ScriptParts) → left result text.new ≡ read_lines.op_rest s OpWord.Share text.old }
{
    let object = object_at(text)?;
    text.expect(b" ")?;
    let other = object_at(text)?;
    Some(LineOp::Of(Op::Share(object, other)))
}

/// `C #N.x`.
fn super_at(text: &mut Cursor<'_>, names: &Index<'_>) -> Option<LineOp>
    ensures { left result text.new ≡ read_lines.op_rest names.now OpWord.Super text.old }
{
    let class = class_at(text, names)?;
    text.expect(b" ")?;
    let (object, name) = object_attribute_at(text, names)?;
    Some(LineOp::Of(Op::Super(class, object, name)))
}

/// `#N`.
fn classof_at(text: &mut Cursor<'_>) -> Option<LineOp>
    ensures { (s : ScriptParts) → left result text.new ≡ read_lines.op_rest s OpWord.ClassOf text.old }
{
    let object = object_at(text)?;
    Some(LineOp::Of(Op::ClassOf(object)))
}

/// `#N` or `#N #M`.
fn begin_at(text: &mut Cursor<'_>) -> Option<LineOp>
    ensures { (s : ScriptParts) → left result text.new ≡ read_lines.op_rest s OpWord.Begin text.old }
{
    let first = object_at(text)?;
    let second = second_at(text)?;
    Some(LineOp::Begin(first, second))
}

/// The operation of a line after its word.
fn op_rest(text: &mut Cursor<'_>, names: &Index<'_>, word: OpWord) -> Option<LineOp>
    ensures { left result text.new ≡ read_lines.op_rest names.now word text.old }
{
    match word {
        OpWord::Get => get_at(text, names),
        OpWord::Set => set_at(text, names),
        OpWord::New => new_at(text, names),
        OpWord::Put => put_at(text, names),
        OpWord::Class => new_class_at(text, names),
        OpWord::Cget => cget_at(text, names),
        OpWord::Del => del_at(text, names),
        OpWord::Special => special_at(text, names),
        OpWord::Super => super_at(text, names),
        OpWord::ClassOf => classof_at(text),
        OpWord::Mro => mro_at(text, names),
        OpWord::Cut => cut_at(text, names),
        OpWord::Bases => set_bases_at(text, names),
        OpWord::Turn => turn_at(text, names),
        OpWord::Share => share_at(text),
        OpWord::Begin => begin_at(text),
        OpWord::Finish => Some(LineOp::Finish),
    }
}

/// The operation of a line.
#[tactic(auto, unfolding(at_text::specs::Readers::both, at_text::specs::Readers::before, at_text::specs::Readers::after, at_text::specs::Readers::made, at_text::specs::Readers::passing, at_text::specs::Readers::nothing, at_text::specs::ReadLines::line_op_at))]
pub fn line_op_at(text: &mut Cursor<'_>, names: &Index<'_>) -> Option<LineOp>
    ensures { left result text.new ≡ read_lines.line_op_at names.now text.old }
{
    match op_word_at(text) {
        Some(word) => op_rest(text, names, word),
        None => None,
    }
}
