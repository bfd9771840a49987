//! Printing operations.
#![tactic(auto, using(crate::proofs::Printing::then_texts))]

ghost use Rattle.std.specs.Prelude.{◌++◌, codes};
ghost use Rattle.at_text.specs.Lines.{op_text, begin_text, line_op_text};
ghost use Rattle.at_text.specs.Prints.{Prints};
ghost use Rattle.at_text.specs.Tables.{op_word};
ghost use Rattle.at_text.specs.Values.{text_at, object_text, object_attribute, class_attribute, class_item};
ghost use Rattle.at_text.specs.Values.{classes_text, value_item};

use crate::pen::Pen;
use crate::value::{
    put_bases, put_class, put_class_attribute, put_class_item, put_object, put_object_attribute,
    put_value_item,
};
use crate::words::OpWord;
use at_line::LineOp;
use at_script::Script;
use at_source::Sink;
use at_value::{Bases, Class, Name, Obj, Op, Value};

/// Prints a word, a class and its bases.
fn put_with_bases<K: Sink>(
    pen: &mut Pen<'_, K>,
    names: &Script,
    word: OpWord,
    class: Class,
    bases: &Bases,
)
    ensures { Prints pen.old pen.new (op_word word ++ text_at names.now.classes class ++ classes_text names.now bases.now) }
{
    pen.write(word.text());
    put_class(pen, names, class);
    put_bases(pen, names, bases);
}

/// Prints a word and a class.
fn put_word_and_class<K: Sink>(pen: &mut Pen<'_, K>, names: &Script, word: OpWord, class: Class)
    ensures { Prints pen.old pen.new (op_word word ++ text_at names.now.classes class) }
{
    pen.write(word.text());
    put_class(pen, names, class);
}

/// Prints a word and an attribute of a class.
fn put_of_class<K: Sink>(
    pen: &mut Pen<'_, K>,
    names: &Script,
    word: OpWord,
    class: Class,
    name: Name,
)
    ensures { Prints pen.old pen.new (op_word word ++ class_attribute names.now class name) }
{
    pen.write(word.text());
    put_class_attribute(pen, names, class, name);
}

/// Prints a word and an attribute of an object.
fn put_of_object<K: Sink>(
    pen: &mut Pen<'_, K>,
    names: &Script,
    word: OpWord,
    object: Obj,
    name: Name,
)
    ensures { Prints pen.old pen.new (op_word word ++ object_attribute names.now object name) }
{
    pen.write(word.text());
    put_object_attribute(pen, names, object, name);
}

fn put_type_set<K: Sink>(
    pen: &mut Pen<'_, K>,
    names: &Script,
    class: Class,
    name: Name,
    value: &Value,
)
    ensures { Prints pen.old pen.new
        (codes "put " ++ class_attribute names.now class name ++ value_item names.now value.now) }
{
    put_of_class(pen, names, OpWord::Put, class, name);
    put_value_item(pen, names, value);
}

fn put_set<K: Sink>(pen: &mut Pen<'_, K>, names: &Script, object: Obj, name: Name, value: &Value)
    ensures { Prints pen.old pen.new
        (codes "set " ++ object_attribute names.now object name ++ value_item names.now value.now) }
{
    put_of_object(pen, names, OpWord::Set, object, name);
    put_value_item(pen, names, value);
}

fn put_set_class<K: Sink>(pen: &mut Pen<'_, K>, names: &Script, object: Obj, class: Class)
    ensures { Prints pen.old pen.new (codes "turn " ++ object_text object ++ class_item names.now class) }
{
    pen.write(OpWord::Turn.text());
    put_object(pen, object);
    put_class_item(pen, names, class);
}

/// Prints a word and two objects.
fn put_two_objects<K: Sink>(pen: &mut Pen<'_, K>, word: OpWord, first: Obj, second: Obj)
    ensures { Prints pen.old pen.new (op_word word ++ object_text first ++ codes " " ++ object_text second) }
{
    pen.write(word.text());
    put_object(pen, first);
    pen.write(b" ");
    put_object(pen, second);
}

/// Prints a word and an object.
fn put_word_and_object<K: Sink>(pen: &mut Pen<'_, K>, word: OpWord, object: Obj)
    ensures { Prints pen.old pen.new (op_word word ++ object_text object) }
{
    pen.write(word.text());
    put_object(pen, object);
}

fn put_super<K: Sink>(pen: &mut Pen<'_, K>, names: &Script, class: Class, object: Obj, name: Name)
    ensures { Prints pen.old pen.new
        (codes "super " ++ text_at names.now.classes class ++ codes " " ++ object_attribute names.now object name) }
{
    put_word_and_class(pen, names, OpWord::Super, class);
    pen.write(b" ");
    put_object_attribute(pen, names, object, name);
}

/// Prints an operation of the data model.
pub fn put_op<K: Sink>(pen: &mut Pen<'_, K>, names: &Script, op: &Op)
    ensures { Prints pen.old pen.new (op_text names.now op.now) }
{
    match op {
        Op::Get(object, name) => put_of_object(pen, names, OpWord::Get, *object, *name),
        Op::Set(object, name, value) => put_set(pen, names, *object, *name, value),
        Op::TypeSet(class, name, value) => put_type_set(pen, names, *class, *name, value),
        Op::TypeGet(class, name) => put_of_class(pen, names, OpWord::Cget, *class, *name),
        Op::Del(object, name) => put_of_object(pen, names, OpWord::Del, *object, *name),
        Op::New(class) => put_word_and_class(pen, names, OpWord::New, *class),
        Op::NewClass(class, bases) => put_with_bases(pen, names, OpWord::Class, *class, bases),
        Op::SetBases(class, bases) => put_with_bases(pen, names, OpWord::Bases, *class, bases),
        Op::TypeDel(class, name) => put_of_class(pen, names, OpWord::Cut, *class, *name),
        Op::SetClass(object, class) => put_set_class(pen, names, *object, *class),
        Op::Share(object, other) => put_two_objects(pen, OpWord::Share, *object, *other),
        Op::Super(class, object, name) => put_super(pen, names, *class, *object, *name),
        Op::Special(object, name) => put_of_object(pen, names, OpWord::Special, *object, *name),
        Op::ClassOf(object) => put_word_and_object(pen, OpWord::ClassOf, *object),
        Op::Mro(class) => put_word_and_class(pen, names, OpWord::Mro, *class),
    }
}

fn put_begin<K: Sink>(pen: &mut Pen<'_, K>, first: Obj, second: Option<Obj>)
    ensures { Prints pen.old pen.new (begin_text first second) }
{
    match second {
        Some(second) => put_two_objects(pen, OpWord::Begin, first, second),
        None => put_word_and_object(pen, OpWord::Begin, first),
    }
}

/// Prints the operation of a line.
pub fn put_line_op<K: Sink>(pen: &mut Pen<'_, K>, names: &Script, op: &LineOp)
    ensures { Prints pen.old pen.new (line_op_text names.now op.now) }
{
    match op {
        LineOp::Of(op) => put_op(pen, names, op),
        LineOp::Begin(first, second) => put_begin(pen, *first, *second),
        LineOp::Finish => pen.write(OpWord::Finish.text()),
    }
}
