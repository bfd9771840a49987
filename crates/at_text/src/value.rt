//! Printing names and values.
#![tactic(auto, using(crate::proofs::Printing::then_texts))]

ghost use Rattle.std.specs.Prelude.{◌++◌, codes, slice_get};
ghost use Rattle.at_text.specs.Prints.{Prints};
ghost use Rattle.at_text.specs.Values.{text_at, object_text, object_attribute, class_attribute, class_item};
ghost use Rattle.at_text.specs.Values.{class_item_at, classes_text, part_text, property_text, value_text, value_item};

use crate::pen::Pen;
use crate::words::{CLASSM, NONE, PROP, STATIC};
use at_script::Script;
use at_source::Sink;
use at_value::{Bases, Class, ClassList, Func, Name, Obj, Prop, Value};

/// Prints an attribute name or a text.
#[inline]
pub fn put_name<K: Sink>(pen: &mut Pen<'_, K>, names: &Script, name: Name)
    ensures { Prints pen.old pen.new (text_at names.now.names name) }
{
    if let Some(text) = names.name_text(name) {
        pen.write(text.as_bytes());
    }
}

/// Prints a class.
#[inline]
pub fn put_class<K: Sink>(pen: &mut Pen<'_, K>, names: &Script, class: Class)
    ensures { Prints pen.old pen.new (text_at names.now.classes class) }
{
    if let Some(text) = names.class_text(class) {
        pen.write(text.as_bytes());
    }
}

/// Prints a function.
pub fn put_func<K: Sink>(pen: &mut Pen<'_, K>, names: &Script, func: Func)
    ensures { Prints pen.old pen.new (text_at names.now.funcs func) }
{
    if let Some(text) = names.func_text(func) {
        pen.write(text.as_bytes());
    }
}

/// Prints a variable.
pub fn put_var<K: Sink>(pen: &mut Pen<'_, K>, names: &Script, var: u16)
    ensures { Prints pen.old pen.new (text_at names.now.vars var) }
{
    if let Some(text) = names.var_text(var) {
        pen.write(text.as_bytes());
    }
}

/// Prints an object, as `#N`.
#[inline]
pub fn put_object<K: Sink>(pen: &mut Pen<'_, K>, object: Obj)
    ensures { Prints pen.old pen.new (object_text object) }
{
    pen.write(b"#");
    pen.number(u64::from(object.number()));
}

/// Prints an attribute of an object, as `#N.x`.
#[inline]
pub fn put_object_attribute<K: Sink>(pen: &mut Pen<'_, K>, names: &Script, object: Obj, name: Name)
    ensures { Prints pen.old pen.new (object_attribute names.now object name) }
{
    put_object(pen, object);
    pen.write(b".");
    put_name(pen, names, name);
}

/// Prints an attribute of a class, as `C.x`.
#[inline]
pub fn put_class_attribute<K: Sink>(pen: &mut Pen<'_, K>, names: &Script, class: Class, name: Name)
    ensures { Prints pen.old pen.new (class_attribute names.now class name) }
{
    put_class(pen, names, class);
    pen.write(b".");
    put_name(pen, names, name);
}

/// Prints a class, with a blank before it.
pub fn put_class_item<K: Sink>(pen: &mut Pen<'_, K>, names: &Script, class: Class)
    ensures { Prints pen.old pen.new (class_item names.now class) }
{
    pen.write(b" ");
    put_class(pen, names, class);
}

/// Prints classes, each with a blank before it.
pub fn put_bases<K: Sink>(pen: &mut Pen<'_, K>, names: &Script, bases: &Bases)
    ensures { Prints pen.old pen.new (classes_text names.now bases.now) }
{
    for base in bases.as_slice() {
        put_class_item(pen, names, *base);
    }
}

fn put_class_at<K: Sink>(pen: &mut Pen<'_, K>, names: &Script, classes: &ClassList, i: usize)
    ensures { Prints pen.old pen.new (class_item_at names.now (slice_get classes.now i)) }
{
    if let Some(class) = classes.at(i) {
        put_class_item(pen, names, class);
    }
}

/// Prints classes, each with a blank before it.
pub fn put_classes<K: Sink>(pen: &mut Pen<'_, K>, names: &Script, classes: &ClassList)
    ensures { Prints pen.old pen.new (classes_text names.now classes.now) }
{
    for i in 0..classes.len() {
        put_class_at(pen, names, classes, i);
    }
}

fn put_part<K: Sink>(pen: &mut Pen<'_, K>, names: &Script, part: Option<Func>)
    ensures { Prints pen.old pen.new (part_text names.now part) }
{
    match part {
        Some(func) => put_func(pen, names, func),
        None => pen.write(b"-"),
    }
}

fn put_property<K: Sink>(pen: &mut Pen<'_, K>, names: &Script, property: Prop)
    ensures { Prints pen.old pen.new (property_text names.now property) }
{
    pen.write(PROP);
    put_part(pen, names, property.get());
    pen.write(b",");
    put_part(pen, names, property.set());
    pen.write(b",");
    put_part(pen, names, property.del());
}

fn put_quoted<K: Sink>(pen: &mut Pen<'_, K>, names: &Script, text: Name)
    ensures { Prints pen.old pen.new (codes "\"" ++ text_at names.now.names text ++ codes "\"") }
{
    pen.write(b"\"");
    put_name(pen, names, text);
    pen.write(b"\"");
}

fn put_word_and_func<K: Sink>(pen: &mut Pen<'_, K>, names: &Script, word: &[u8], func: Func)
    ensures { Prints pen.old pen.new (word.now ++ text_at names.now.funcs func) }
{
    pen.write(word);
    put_func(pen, names, func);
}

/// Prints a value.
pub fn put_value<K: Sink>(pen: &mut Pen<'_, K>, names: &Script, value: &Value)
    ensures { Prints pen.old pen.new (value_text names.now value.now) }
{
    match value {
        Value::Int(number) => pen.signed(*number),
        Value::Nothing => pen.write(NONE),
        Value::Obj(object) => put_object(pen, *object),
        Value::Text(text) => put_quoted(pen, names, *text),
        Value::Func(func) => put_func(pen, names, *func),
        Value::Class(class) => put_class(pen, names, *class),
        Value::Prop(property) => put_property(pen, names, *property),
        Value::Static(func) => put_word_and_func(pen, names, STATIC, *func),
        Value::ClassM(func) => put_word_and_func(pen, names, CLASSM, *func),
    }
}

/// Prints a value, with a blank before it.
pub fn put_value_item<K: Sink>(pen: &mut Pen<'_, K>, names: &Script, value: &Value)
    ensures { Prints pen.old pen.new (value_item names.now value.now) }
{
    pen.write(b" ");
    put_value(pen, names, value);
}
