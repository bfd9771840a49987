//! Values as words of 64 bits, for tables of words that several threads share.
ghost use Rattle.std.specs.Prelude.{◌≡◌, ◌<◌, ◌/◌, ◌%◌, ◌^◌, ◌≤◌, ◌≢◌, Some, IfSome, IfNone, ◌↔◌, option_map};
ghost use Rattle.at_value.specs.declared.value.Value as values;
ghost use Rattle.at_value.specs.declared.value.Value.TheVariants as value;
ghost use Rattle.std.specs.Int.{w32, cast_signed};
ghost use Rattle.at_value.specs.Widths.{names, objects, classes, functions, kind_bits, integer_bits};
ghost use Rattle.at_value.specs.Fields.{FitWord};
ghost use Rattle.at_value.specs.Words.{IsValue, fields_of, word_of, HasWord};
ghost use Rattle.at_value.specs.Reading.{integer_in, index_in, below, value_at_kind, value_in_word};

use crate::bits::{joined, split};
use crate::number::{Class, Func, Name, Obj};
use crate::value::{Prop, Value};

const KIND_BITS: u32 = 4;

// The kinds of values, as their words have them.
const NOTHING: u64 = 1;

const INT: u64 = 2;

const TEXT: u64 = 3;

const FUNC: u64 = 4;

const PROP: u64 = 5;

const STATIC: u64 = 6;

const CLASS_METHOD: u64 = 7;

const CLASS: u64 = 8;

const OBJ: u64 = 9;

fn kind_of(v: &Value) -> u64
    ensures same { result ≡ word_of v.now % 2 ^ kind_bits }
    ensures positive { 0 < result }
{
    match v {
        Value::Nothing => NOTHING,
        Value::Int(_) => INT,
        Value::Text(_) => TEXT,
        Value::Func(_) => FUNC,
        Value::Prop(_) => PROP,
        Value::Static(_) => STATIC,
        Value::ClassM(_) => CLASS_METHOD,
        Value::Class(_) => CLASS,
        Value::Obj(_) => OBJ,
    }
}

fn integer_of(v: Value) -> u32
    ensures { result ≡ integer_in v }
{
    match v {
        Value::Int(i) => i.cast_unsigned(),
        _ => 0,
    }
}

fn index_of(v: Value) -> u16
    ensures { result ≡ index_in v }
{
    match v {
        Value::Text(n) => n.number(),
        Value::Func(f) | Value::Static(f) | Value::ClassM(f) => f.number(),
        Value::Class(c) => c.number(),
        Value::Obj(o) => o.number(),
        Value::Nothing | Value::Int(_) | Value::Prop(_) => 0,
    }
}

/// Like numbers are taken together, so that the built code needs no table of the kinds.
fn rest_of(v: Value) -> u64
    ensures same { result ≡ word_of v / 2 ^ kind_bits }
    ensures range { IsValue v }
{
    match v {
        Value::Prop(p) => p.number(),
        Value::Nothing | Value::Int(_) => u64::from(integer_of(v)),
        Value::Text(_)
        | Value::Func(_)
        | Value::Static(_)
        | Value::ClassM(_)
        | Value::Class(_)
        | Value::Obj(_) => u64::from(index_of(v)),
    }
}

/// The word of a value, which is never 0. The lowest bits are its kind and those above them its numbers; the
/// bits that it doesn't use are 0. The layout is this project's own, and stands in `docs/DATA_MODEL.md`, "Words".
pub fn to_word(v: Value) -> u64
    ensures word { result ≡ word_of v }
    ensures positive { 0 < result }
    ensures range { IsValue v }
{
    let kind = kind_of(&v);
    joined(rest_of(v), KIND_BITS, kind)
}

pub(crate) fn name_at(n: u64) -> Option<Name>
    ensures { result ≡ below names n }
{
    Name::new(u16::try_from(n).ok()?)
}

fn func_at(n: u64) -> Option<Func>
    ensures { result ≡ below functions n }
{
    Func::new(u16::try_from(n).ok()?)
}

pub(crate) fn class_at(n: u64) -> Option<Class>
    ensures { result ≡ below classes n }
{
    Class::new(u16::try_from(n).ok()?)
}

pub(crate) fn object_at(n: u64) -> Option<Obj>
    ensures { result ≡ below objects n }
{
    Obj::new(u16::try_from(n).ok()?)
}

fn int_at(n: u64) -> Option<Value>
    ensures { result ≡ option_map (λ bits. value.Int (cast_signed w32 bits)) (below (2 ^ integer_bits) n) }
{
    let bits = u32::try_from(n).ok()?;
    Some(Value::Int(bits.cast_signed()))
}

/// The kind is that of nothing, integers or texts.
fn simple_value(kind: u64, rest: u64) -> Option<Value>
    requires first { 1 ≤ kind }
    requires last { kind ≤ 3 }
    ensures { result ≡ value_at_kind kind rest }
{
    match kind {
        NOTHING if rest == 0 => Some(Value::Nothing),
        INT => int_at(rest),
        TEXT => Some(Value::Text(name_at(rest)?)),
        _ => None,
    }
}

/// The kind is that of functions, staticmethods or classmethods.
fn function_value(kind: u64, f: Func) -> Value
    requires first { 4 ≤ kind }
    requires last { kind ≤ 7 }
    requires one { kind ≢ 5 }
    ensures { Some result ≡ value_at_kind kind f }
{
    match kind {
        FUNC => Value::Func(f),
        STATIC => Value::Static(f),
        _ => Value::ClassM(f),
    }
}

fn class_or_object(kind: u64, rest: u64) -> Option<Value>
    requires first { 8 ≤ kind }
    requires last { kind ≤ 9 }
    ensures { result ≡ value_at_kind kind rest }
{
    match kind {
        CLASS => Some(Value::Class(class_at(rest)?)),
        _ => Some(Value::Obj(object_at(rest)?)),
    }
}

/// The kinds are told apart a few at a time, so that the built code needs no table of them.
fn value_of_kind(kind: u64, rest: u64) -> Option<Value>
    ensures { result ≡ value_at_kind kind rest }
{
    match kind {
        NOTHING..=TEXT => simple_value(kind, rest),
        PROP => Some(Value::Prop(Prop::of_number(rest)?)),
        FUNC..=CLASS_METHOD => Some(function_value(kind, func_at(rest)?)),
        CLASS..=OBJ => class_or_object(kind, rest),
        _ => None,
    }
}

pub(crate) fn read_value(w: u64) -> Option<Value>
    ensures { result ≡ value_in_word w }
{
    let (kind, rest) = split(w, KIND_BITS);
    value_of_kind(kind, rest)
}

/// The value whose word this is, and none exactly where it is the word of no value: where the kind is none of the nine,
/// a number is out of its range, or a bit is set that the kind doesn't use. The layout is that of `to_word`.
pub fn from_word(w: u64) -> Option<Value>
    ensures same { (v : values.Value) → (result ≡ Some v) ↔ HasWord v w }
    ensures some { IfSome result (λ v. HasWord v w) }
    ensures none { IfNone result ((v : values.Value) → ¬ HasWord v w) }
{
    read_value(w)
}

/// What is true of all words: each number of a value in range fits into its field, and the fields into the word; no
/// value's word is 0, and no two values in range have one word. It does nothing.
pub fn word_laws()
    ensures fields { (v : values.Value) → IsValue v → FitWord (fields_of v) }
    ensures positive { (v : values.Value) → 0 < word_of v }
    ensures one_each { (u v : values.Value) → IsValue u → IsValue v → word_of u ≡ word_of v → u ≡ v }
{}
