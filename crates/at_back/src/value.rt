//! Reading names and values.
#![tactic(auto, unfolding(at_text::specs::Readers::both, at_text::specs::Readers::before, at_text::specs::Readers::after, at_text::specs::Readers::made, at_text::specs::Readers::passing, at_text::specs::Readers::nothing))]

ghost use Rattle.std.specs.Prelude.{◌≡◌, ◌^◌};
ghost use Rattle.std.specs.List.{list_all};
ghost use Rattle.at_value.specs.Widths as widths;
ghost use Rattle.at_script.specs.Words.{is_digit};
ghost use Rattle.at_name.specs.Texts.{place_of};
ghost use Rattle.at_text.specs.Readers as readers;
ghost use Rattle.at_text.specs.ReadValues as read_values;
ghost use Rattle.at_back.specs.Left.{left};

use crate::cursor::Cursor;
use crate::index::Index;
use crate::number::number_of;
use at_text::words::{CLASSM, NONE, PROP, STATIC};
use at_value::{Bases, Class, Func, Name, Obj, Prop, Value};

/// How many integers there are from 0 on, and how many below.
const INTEGERS: u64 = 1 << 31;

/// An attribute name or a text.
#[tactic(auto, unfolding(at_text::specs::Readers::name_at))]
pub fn name_at(text: &mut Cursor<'_>, names: &Index<'_>) -> Option<Name>
    ensures { left result text.new ≡ readers.name_at names.now.names text.old }
{
    names.name(text.run())
}

/// A class.
#[tactic(auto, unfolding(at_text::specs::Readers::name_at))]
pub fn class_at(text: &mut Cursor<'_>, names: &Index<'_>) -> Option<Class>
    ensures { left result text.new ≡ readers.name_at names.now.classes text.old }
{
    names.class(text.run())
}

/// A function.
#[tactic(auto, unfolding(at_text::specs::Readers::name_at))]
pub fn func_at(text: &mut Cursor<'_>, names: &Index<'_>) -> Option<Func>
    ensures { left result text.new ≡ readers.name_at names.now.funcs text.old }
{
    names.func(text.run())
}

/// A variable.
#[tactic(auto, unfolding(at_text::specs::Readers::name_at))]
pub fn var_at(text: &mut Cursor<'_>, names: &Index<'_>) -> Option<u16>
    ensures { left result text.new ≡ readers.name_at names.now.vars text.old }
{
    names.var(text.run())
}

/// The number of an object.
fn object_number_at(text: &mut Cursor<'_>) -> Option<Obj>
    ensures { left result text.new ≡ readers.number_at widths.objects text.old }
{
    let number = text.number(u64::from(Obj::COUNT))?;
    Obj::new(number as u16)
}

/// An object: `#N`.
pub fn object_at(text: &mut Cursor<'_>) -> Option<Obj>
    ensures { left result text.new ≡ read_values.object_at text.old }
{
    text.expect(b"#")?;
    object_number_at(text)
}

/// An attribute of an object: `#N.x`.
pub fn object_attribute_at(text: &mut Cursor<'_>, names: &Index<'_>) -> Option<(Obj, Name)>
    ensures { left result text.new ≡ read_values.object_attribute_at names.now text.old }
{
    let object = object_at(text)?;
    text.expect(b".")?;
    let name = name_at(text, names)?;
    Some((object, name))
}

/// An attribute of a class: `C.x`.
pub fn class_attribute_at(text: &mut Cursor<'_>, names: &Index<'_>) -> Option<(Class, Name)>
    ensures { left result text.new ≡ read_values.class_attribute_at names.now text.old }
{
    let class = class_at(text, names)?;
    text.expect(b".")?;
    let name = name_at(text, names)?;
    Some((class, name))
}

/// A class, with a blank before it.
pub fn class_item_at(text: &mut Cursor<'_>, names: &Index<'_>) -> Option<Class>
    ensures { left result text.new ≡ read_values.class_item_at names.now text.old }
{
    text.expect(b" ")?;
    class_at(text, names)
}

/// The bases of a class, each with a blank before it: at most eight.
pub fn bases_at(text: &mut Cursor<'_>, names: &Index<'_>) -> Option<Bases>
    ensures { left result text.new ≡ read_values.bases_at names.now text.old }
{
    let mut bases = Bases::none();
    while text.begins_item() {
        let class = class_item_at(text, names)?;
        if bases.push(class).is_err() {
            return None;
        }
    }
    Some(bases)
}

/// A part of a property: its function, or `-`.
fn part_at(text: &mut Cursor<'_>, names: &Index<'_>) -> Option<Option<Func>>
    ensures { left result text.new ≡ read_values.part_at names.now text.old }
{
    if text.begins_run() {
        let func = func_at(text, names)?;
        Some(Some(func))
    } else {
        text.expect(b"-")?;
        Some(None)
    }
}

/// The functions of a property: `P,P,P`.
fn property_at(text: &mut Cursor<'_>, names: &Index<'_>) -> Option<Prop>
    ensures { left result text.new ≡ read_values.property_at names.now text.old }
{
    let get = part_at(text, names)?;
    text.expect(b",")?;
    let set = part_at(text, names)?;
    text.expect(b",")?;
    let del = part_at(text, names)?;
    Some(Prop::new(get, set, del))
}

/// The digits of a number below zero.
fn negative_at(text: &mut Cursor<'_>) -> Option<Value>
    ensures { left result text.new ≡ read_values.negative_at text.old }
{
    let number = text.positive(INTEGERS + 1)?;
    Some(Value::Int((-(number as i64)) as i32))
}

/// A text, after its first double quote.
fn quoted_at(text: &mut Cursor<'_>, names: &Index<'_>) -> Option<Value>
    ensures { left result text.new ≡ read_values.quoted_at names.now text.old }
{
    let name = name_at(text, names)?;
    text.expect(b"\"")?;
    Some(Value::Text(name))
}

/// An object, after its `#`.
fn marked_object_at(text: &mut Cursor<'_>) -> Option<Value>
    ensures { left result text.new ≡ read_values.numbered_object_at text.old }
{
    let object = object_number_at(text)?;
    Some(Value::Obj(object))
}

/// A value that begins with a byte that no name has.
fn marked_at(text: &mut Cursor<'_>, names: &Index<'_>) -> Option<Value>
    ensures { left result text.new ≡ readers.choice (read_values.marked_rows names.now) text.old }
{
    if text.past(b"\"") {
        return quoted_at(text, names);
    }
    if text.past(b"#") {
        return marked_object_at(text);
    }
    text.expect(b"-")?;
    negative_at(text)
}

/// The function of a staticmethod.
fn static_at(text: &mut Cursor<'_>, names: &Index<'_>) -> Option<Value>
    ensures { left result text.new ≡ read_values.static_at names.now text.old }
{
    let func = func_at(text, names)?;
    Some(Value::Static(func))
}

/// The function of a classmethod.
fn classm_at(text: &mut Cursor<'_>, names: &Index<'_>) -> Option<Value>
    ensures { left result text.new ≡ read_values.classm_at names.now text.old }
{
    let func = func_at(text, names)?;
    Some(Value::ClassM(func))
}

/// A function that is wrapped.
fn wrapped_at(text: &mut Cursor<'_>, names: &Index<'_>) -> Option<Value>
    ensures { left result text.new ≡ readers.choice (read_values.wrapped_rows names.now) text.old }
{
    if text.past(STATIC) {
        return static_at(text, names);
    }
    if text.past(CLASSM) {
        return classm_at(text, names);
    }
    text.expect(PROP)?;
    let property = property_at(text, names)?;
    Some(Value::Prop(property))
}

fn are_digits(word: &str) -> bool
    ensures { result ≡ list_all is_digit word.now }
{
    word.as_bytes().iter().all(|byte| is_digit(*byte))
}

fn is_digit(byte: u8) -> bool
    ensures { result ≡ is_digit byte }
{
    b'0' <= byte && byte <= b'9'
}

/// A number from 0 on.
fn integer_of(word: &str) -> Option<Value>
    requires { readers.run word.now ≡ word.now }
    ensures { result ≡ read_values.integer_of word.now }
{
    let number = number_of(word)?;
    if number < INTEGERS {
        Some(Value::Int(number as i32))
    } else {
        None
    }
}

/// A function or a class of this name.
fn named(word: &str, names: &Index<'_>) -> Option<Value>
    ensures { result ≡ read_values.named (place_of word.now names.now.funcs) (place_of word.now names.now.classes) }
{
    match names.func(word) {
        Some(func) => Some(Value::Func(func)),
        None => {
            let class = names.class(word)?;
            Some(Value::Class(class))
        }
    }
}

/// A value that is one word: `none`, a number from 0 on, a function or a class.
fn worded(word: &str, names: &Index<'_>) -> Option<Value>
    requires { readers.run word.now ≡ word.now }
    ensures { result ≡ read_values.worded names.now word.now }
{
    if word.as_bytes() == NONE {
        Some(Value::Nothing)
    } else if are_digits(word) {
        integer_of(word)
    } else {
        named(word, names)
    }
}

/// A value.
#[tactic(auto, using(crate::proofs::Runs::run_again), unfolding(at_text::specs::ReadValues::value_at))]
pub fn value_at(text: &mut Cursor<'_>, names: &Index<'_>) -> Option<Value>
    ensures { left result text.new ≡ read_values.value_at names.now text.old }
{
    if !text.begins_run() {
        return marked_at(text, names);
    }
    if text.wraps() {
        return wrapped_at(text, names);
    }
    worded(text.run(), names)
}

/// A value, with a blank before it.
pub fn value_item_at(text: &mut Cursor<'_>, names: &Index<'_>) -> Option<Value>
    ensures { left result text.new ≡ read_values.value_item_at names.now text.old }
{
    text.expect(b" ")?;
    value_at(text, names)
}
