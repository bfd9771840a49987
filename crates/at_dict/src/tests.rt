//! A dictionary of many names, and that it may cross threads.
use crate::Body;
use at_value::{Name, Value, to_word};
use std::alloc::AllocError;

const NAMES: u16 = 200;

/// The i-th name in an order that a step makes; a step that shares no factor with the count of names reaches each once.
fn nth(i: u16, step: u16) -> Name {
    Name::new(i % NAMES * (step % NAMES) % NAMES).unwrap_or(Name::init())
}

fn value_of(name: Name) -> Value {
    Value::Int(i32::from(name.number()) - 100)
}

#[test]
fn two_hundred_names_in_three_orders(rt: HostRuntime) -> Result<(), AllocError> {
    let mut body = Body::new(rt.alloc());
    assert!(rt; body.is_empty());
    for i in 0..NAMES {
        let name = nth(i, 77);
        body.reserve(1)?;
        body.put(name, value_of(name));
    }
    assert_eq!(rt; body.len(), 200);
    for i in 0..NAMES {
        let name = nth(i, 31);
        assert_eq!(rt; body.get(name), Some(value_of(name)));
        let rising = nth(i, 1);
        assert_eq!(rt; body.at(usize::from(i)), Some((rising, value_of(rising))));
    }
    assert_eq!(rt; body.at(200), None);
    assert_eq!(rt; body.get(Name::new(200).unwrap_or(Name::init())), None);
    for i in 0..NAMES {
        let name = nth(i, 113);
        assert_eq!(rt; body.cut(name), Some(value_of(name)));
        assert_eq!(rt; body.cut(name), None);
    }
    assert!(rt; body.is_empty());
    Ok(())
}

#[test]
fn a_spare_place_for_each_new_name(rt: HostRuntime) -> Result<(), AllocError> {
    let mut body = Body::new(rt.alloc());
    body.reserve(2)?;
    body.put(Name::init(), Value::Int(4));
    body.put(Name::getattr(), Value::Int(3));
    body.put(Name::init(), Value::Nothing);
    assert_eq!(rt; body.get(Name::init()), Some(Value::Nothing));
    assert_eq!(rt; body.at(0), Some((Name::getattr(), Value::Int(3))));
    Ok(())
}

/// Two keys whose names don't rise, and their words; the other words are 0.
#[test]
fn inline_values_come_by_rising_name(rt: HostRuntime) -> Result<(), AllocError> {
    let mut body = Body::new(rt.alloc());
    body.reserve(8)?;
    let words = [
        to_word(Value::Int(7)),
        to_word(Value::Nothing),
        0,
        0,
        0,
        0,
        0,
        0,
    ];
    body.from_inline(&[201, 101, 0, 0, 0, 0, 0, 0], &words);
    assert_eq!(rt;
        body.at(0),
        Name::new(100).map(|name| (name, Value::Nothing))
    );
    assert_eq!(rt;
        body.at(1),
        Name::new(200).map(|name| (name, Value::Int(7)))
    );
    assert_eq!(rt; body.at(2), None);
    Ok(())
}

/// A thread may be handed a value of this type, and share it.
fn may_cross_threads<T: Send + Sync>(_value: &T) {}

#[test]
fn a_dictionary_may_cross_threads(rt: HostRuntime) {
    may_cross_threads(&Body::new(rt.alloc()));
}
