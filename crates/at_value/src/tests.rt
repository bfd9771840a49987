//! Sizes in memory, which no contract says, and each public call once.
mod words;

use crate::{
    Bases, BasesFull, Class, ClassList, Func, Limits, Name, Obj, Op, Pairs, Prop, Sequence, Value,
    sorted,
};
use std::alloc::AllocError;
use std::mem::size_of;

#[test]
fn values_and_operations_are_small(rt: HostRuntime) {
    assert_eq!(rt; size_of::<Value>(), 8);
    assert!(rt; size_of::<Op>() <= 24);
}

#[test]
fn numbers_end_at_their_borders(rt: HostRuntime) {
    assert_eq!(rt; Name::new(4095).map(|name| name.number()), Some(4095));
    assert_eq!(rt; Name::new(4096), None);
    assert_eq!(rt; Class::new(254).map(|class| class.number()), Some(254));
    assert_eq!(rt; Class::new(255), None);
    assert_eq!(rt; Obj::new(4095).map(|object| object.number()), Some(4095));
    assert_eq!(rt; Obj::new(4096), None);
    assert_eq!(rt;
        Func::new(1023).map(|function| function.number()),
        Some(1023)
    );
    assert_eq!(rt; Func::new(1024), None);
}

#[test]
fn the_special_names_come_first(rt: HostRuntime) {
    assert_eq!(rt; Name::descriptor_get().number(), 0);
    assert_eq!(rt; Name::descriptor_set().number(), 1);
    assert_eq!(rt; Name::descriptor_delete().number(), 2);
    assert_eq!(rt; Name::getattr().number(), 3);
    assert_eq!(rt; Name::init().number(), 4);
}

#[test]
fn a_property_gives_its_parts(rt: HostRuntime) {
    let last = Func::new(1023);
    let property = Prop::new(Func::new(0), None, last);
    assert_eq!(rt; property.get(), Func::new(0));
    assert_eq!(rt; property.set(), None);
    assert_eq!(rt; property.del(), last);
}

#[test]
fn a_class_has_eight_bases_at_most(rt: HostRuntime) {
    assert!(rt; Bases::none().is_empty());
    let mut bases = Bases::only(Class::object());
    for n in 1..8u16 {
        let class = Class::new(n).unwrap_or(Class::object());
        assert_eq!(rt; bases.push(class), Ok(()));
    }
    assert_eq!(rt; bases.push(Class::object()), Err(BasesFull));
    assert_eq!(rt; bases.len(), 8);
    assert_eq!(rt; bases.at(7), Class::new(7));
    assert_eq!(rt; bases.at(8), None);
    assert_eq!(rt; bases.as_slice().first().copied(), Some(Class::object()));
}

#[test]
fn a_list_of_classes_gives_them_back(rt: HostRuntime) -> Result<(), AllocError> {
    let last = Class::new(254).unwrap_or(Class::object());
    let list = ClassList::copy_of(rt.alloc(), &[last, Class::object()])?;
    assert_eq!(rt; list.len(), 2);
    assert!(rt; !list.is_empty());
    assert_eq!(rt; list.at(0), Some(last));
    assert_eq!(rt; list.at(1), Some(Class::object()));
    assert_eq!(rt; list.at(2), None);
    let list = ClassList::of_numbers(rt.alloc(), &[0, 254])?.copy(rt.alloc())?;
    assert_eq!(rt; list.at(1), Some(last));
    Ok(())
}

#[test]
fn a_sequence_gives_its_items_back(rt: HostRuntime) -> Result<(), AllocError> {
    let items = Sequence::of(vec![in rt.alloc(); 3u16, 1, 2]?);
    assert_eq!(rt; items.len(), 3);
    assert!(rt; !items.is_empty());
    assert_eq!(rt; items.at(2).copied(), Some(2));
    assert_eq!(rt; items.at(3).copied(), None);
    assert_eq!(rt; items.items().first().copied(), Some(3));
    Ok(())
}

#[test]
fn a_map_keeps_its_names_rising(rt: HostRuntime) -> Result<(), AllocError> {
    let mut map = Pairs::new(rt.alloc());
    assert!(rt; map.is_empty());
    map.put(Name::getattr(), Value::Int(3))?;
    map.put(Name::descriptor_get(), Value::Int(0))?;
    map.put(Name::init(), Value::Int(4))?;
    map.put(Name::getattr(), Value::Nothing)?;
    assert_eq!(rt; map.len(), 3);
    assert_eq!(rt; map.at(0), Some((Name::descriptor_get(), Value::Int(0))));
    assert_eq!(rt; map.at(1), Some((Name::getattr(), Value::Nothing)));
    assert_eq!(rt; map.at(3), None);
    assert_eq!(rt; map.get(Name::init()), Some(Value::Int(4)));
    assert_eq!(rt; map.get(Name::descriptor_set()), None);
    assert_eq!(rt; map.cut(Name::getattr()), Some(Value::Nothing));
    assert_eq!(rt; map.cut(Name::getattr()), None);
    assert_eq!(rt; map.get(Name::getattr()), None);
    let copy = map.copy(rt.alloc())?;
    map.cut(Name::init());
    assert_eq!(rt; map.len(), 1);
    assert_eq!(rt; copy.len(), 2);
    Pairs::map_laws();
    Ok(())
}

#[test]
fn a_vector_of_pairs_is_a_map_too(rt: HostRuntime) -> Result<(), AllocError> {
    let mut pairs = vec![in rt.alloc(); (Name::descriptor_set(), Value::Int(1))]?;
    assert_eq!(rt; sorted::place_of(Name::descriptor_delete(), &pairs), 1);
    sorted::put(Name::init(), Value::Int(4), &mut pairs)?;
    assert_eq!(rt; sorted::get(Name::init(), &pairs), Some(Value::Int(4)));
    assert_eq!(rt;
        sorted::cut(Name::descriptor_set(), &mut pairs),
        Some(Value::Int(1))
    );
    assert_eq!(rt; Pairs::of(pairs).len(), 1);
    Ok(())
}

#[test]
fn the_limits_of_the_program_are_the_widest(rt: HostRuntime) {
    let limits = Limits::program();
    assert_eq!(rt; limits.place_max, 4_294_967_295);
    assert_eq!(rt; limits.head_max, 1_099_511_627_774);
    assert_eq!(rt; limits.tags, 1_023);
}
