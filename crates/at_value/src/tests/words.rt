//! Words of values and of operations, as numbers that were worked out by hand from the layouts.
ghost use Rattle.std.specs.Prelude.{◌<◌};
ghost use Rattle.at_value.specs.Widths as widths;

use crate::{
    Bases, Class, Func, Name, Obj, Op, Prop, Value, from_word, pack, packing_laws, to_word, unpack,
    word_laws,
};
use std::process::Abort;
use std::test::Fail;

fn name(n: u16) -> Name
    requires { n < widths.names }
{
    Name::new(n).unwrap()
}

fn class(n: u16) -> Class
    requires { n < widths.classes }
{
    Class::new(n).unwrap()
}

fn object(n: u16) -> Obj
    requires { n < widths.objects }
{
    Obj::new(n).unwrap()
}

fn function(n: u16) -> Func
    requires { n < widths.functions }
{
    Func::new(n).unwrap()
}

/// These bases, and none where one of them is no class or they are too many.
fn bases(numbers: &[u16]) -> Option<Bases> {
    let mut bases = Bases::none();
    for n in numbers {
        bases.push(Class::new(*n)?).ok()?;
    }
    Some(bases)
}

#[test]
fn each_value_has_its_word(rt: HostRuntime) -> Result<(), Fail> {
    let rows = [
        (Value::Nothing, 0x1),
        (Value::Int(0), 0x2),
        (Value::Int(-1), 0x0000_000f_ffff_fff2),
        (Value::Int(9), 0x92),
        (Value::Int(i32::MIN), 0x8_0000_0002),
        (Value::Int(i32::MAX), 0x7_ffff_fff2),
        (Value::Text(name(0)), 0x3),
        (Value::Text(name(4095)), 0xfff3),
        (Value::Func(function(0)), 0x4),
        (Value::Func(function(1023)), 0x3ff4),
        (Value::Prop(Prop::new(None, None, None)), 0x5),
        (Value::Prop(Prop::new(Func::new(0), None, None)), 0x15),
        (
            Value::Prop(Prop::new(Func::new(0), Func::new(1), Func::new(2))),
            0x30_0020_0015,
        ),
        (
            Value::Prop(Prop::new(Func::new(1023), Func::new(1023), Func::new(1023))),
            0x4000_4000_4005,
        ),
        (Value::Static(function(0)), 0x6),
        (Value::Static(function(1023)), 0x3ff6),
        (Value::ClassM(function(7)), 0x77),
        (Value::ClassM(function(1023)), 0x3ff7),
        (Value::Class(class(0)), 0x8),
        (Value::Class(class(254)), 0xfe8),
        (Value::Obj(object(0)), 0x9),
        (Value::Obj(object(4095)), 0xfff9),
    ];
    for (value, word) in &rows {
        assert_eq!(rt; to_word(*value), *word, "{value:?}");
        assert_eq!(rt; from_word(*word), Some(*value), "{word:#x}");
    }
    word_laws();
    Ok(())
}

#[test]
fn other_words_are_no_value(rt: HostRuntime) -> Result<(), Fail> {
    let words = [
        // no such kind
        0,
        10,
        0xf,
        0x10,
        u64::MAX,
        // a bit that the kind doesn't use
        0x11,
        0x1_0000_0001,
        0x10_0000_0002,
        0x8000_0000_0000_0002,
        0x8000_0000_0000_0004,
        0x10_0000_0000_0005,
        0x8000_0000_0000_0005,
        // a number out of its range
        0x1_0003,
        0x4004,
        0x4006,
        0x4007,
        0xff8,
        0x1_0009,
        0x4015,
        0x4010_0005,
        0x4010_0000_0005,
        // a number that would be in its range without its upper bits
        0x10_0003,
        0x10_0004,
        0x10_0006,
        0x10_0007,
        0x10_0008,
        0x10_0009,
    ];
    for word in words {
        assert_eq!(rt; from_word(word), None, "{word:#x}");
    }
    Ok(())
}

/// An operation with its words.
fn assert_words(rt: &impl Abort, op: &Op, words: [u64; 4]) -> Result<(), Fail> {
    assert_eq!(rt; pack(op), words, "{op:?}");
    assert_eq!(rt; unpack(words), Some(*op), "{words:?}");
    Ok(())
}

#[test]
fn each_operation_has_its_words(rt: HostRuntime) -> Result<(), Fail> {
    let rows = [
        (
            Op::TypeSet(class(254), name(4095), Value::Int(-1)),
            0x000f_ff00_0000_fe02,
            0xf_ffff_fff2,
        ),
        (Op::TypeDel(class(3), name(5)), 0x0500_0000_0303, 0),
        (Op::New(class(254)), 0xfe05, 0),
        (
            Op::Set(object(1), name(5), Value::Int(9)),
            0x0000_0500_0000_0106,
            0x92,
        ),
        (Op::Del(object(4095), name(4095)), 0x000f_ff00_000f_ff07, 0),
        (Op::SetClass(object(4095), class(254)), 0xfe0f_ff08, 0),
        (Op::Share(object(1), object(4095)), 0x000f_ff00_0109, 0),
        (Op::Get(object(7), name(6)), 0x0600_0000_070a, 0),
        (Op::TypeGet(class(2), name(6)), 0x0600_0000_020b, 0),
        (Op::Super(class(2), object(7), name(6)), 0x0600_0200_070c, 0),
        (Op::Special(object(7), name(6)), 0x0600_0000_070d, 0),
        (Op::ClassOf(object(4095)), 0x000f_ff0e, 0),
        (Op::Mro(class(254)), 0xfe0f, 0),
    ];
    for (op, first, second) in &rows {
        assert_words(&rt, op, [*first, *second, 0, 0])?;
    }
    packing_laws();
    Ok(())
}

#[test]
fn bases_have_their_words(rt: HostRuntime) -> Result<(), Fail> {
    // a class and its bases; words 0 of `NewClass` and `SetBases`; word 1 of both
    let rows: [(u16, &[u16], u64, u64, u64); 4] = [
        (3, &[], 0x0301, 0x0304, 0),
        (1, &[0], 0x0100_0101, 0x0100_0104, 0),
        (2, &[1, 0], 0x0200_0201, 0x0200_0204, 0x1),
        (
            254,
            &[254, 253, 252, 251, 250, 249, 248, 247],
            0x0800_fe01,
            0x0800_fe04,
            0xf7f8_f9fa_fbfc_fdfe,
        ),
    ];
    for (c, numbers, new_class, set_bases, word) in &rows {
        let class = Class::new(*c).ok_or("no class")?;
        let bases = bases(numbers).ok_or("no bases")?;
        assert_words(&rt, &Op::NewClass(class, bases), [*new_class, *word, 0, 0])?;
        assert_words(&rt, &Op::SetBases(class, bases), [*set_bases, *word, 0, 0])?;
    }
    Ok(())
}

#[test]
fn other_words_are_no_operation(rt: HostRuntime) -> Result<(), Fail> {
    let rows = [
        // no such kind
        [0, 0, 0, 0],
        [0x10, 0, 0, 0],
        [0xff, 0, 0, 0],
        // a bit that the operation doesn't use
        [0xfe05, 1, 0, 0],
        [0xfe05, 0, 1, 0],
        [0xfe05, 0, 0, 1],
        [0x0100_fe05, 0, 0, 0],
        [0x0100_0000_fe05, 0, 0, 0],
        [0x0100_0000_0000_fe05, 0, 0, 0],
        [0x0100_0101, 0x0100, 0, 0],
        [0x0100_0101, 0, 1, 0],
        [0x0500_0000_0106, 0x92, 1, 0],
        [0x0600_0000_070a, 1, 0, 0],
        // a number out of its range
        [0xff05, 0, 0, 0],
        [0x0010_000e, 0, 0, 0],
        [0x0010_0000_0000_070a, 0, 0, 0],
        [0xff00_0108, 0, 0, 0],
        [0x0600_ff00_070c, 0, 0, 0],
        [0x0010_0000_0109, 0, 0, 0],
        [0x0100_0101, 0xff, 0, 0],
        // no value
        [0x0500_0000_0106, 0, 0, 0],
        [0x0500_0000_0102, 0xff8, 0, 0],
        // nine bases
        [0x0900_0101, 0, 0, 0],
        [0x0900_0104, 0, 0, 0],
    ];
    for words in rows {
        assert_eq!(rt; unpack(words), None, "{words:?}");
    }
    Ok(())
}
