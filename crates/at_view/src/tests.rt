//! The words by number, as they are laid out.
use crate::{laws, words};
use at_value::{Class, Obj};

#[test]
fn laws_hold() {
    laws::words_are_apart();
}

#[test]
fn words_of_passes(rt: HostRuntime) {
    assert_eq!(rt; words::PLACE, 0);
    assert_eq!(rt; words::TYPE_LOCK, 1);
    assert_eq!(rt; words::GLOBAL_SEQUENCE, 2);
    assert_eq!(rt; words::own_sequence(0), 3);
    assert_eq!(rt; words::own_sequence(63), 66);
    assert_eq!(rt; words::intent(0, 0), 67);
    assert_eq!(rt; words::intent(63, 3), 322);
}

#[test]
fn words_of_classes_and_entries(rt: HostRuntime) {
    let last = Class::new(254).unwrap();
    assert_eq!(rt; words::tag(Class::object()), 323);
    assert_eq!(rt; words::tag(last), 577);
    assert_eq!(rt; words::key(Class::object(), 0), 578);
    assert_eq!(rt; words::key(last, 7), 2_617);
    assert_eq!(rt; words::entry_sequence(0), 2_618);
    assert_eq!(rt; words::entry_field(0, 0), 2_619);
    assert_eq!(rt; words::entry_field(1_023, 2), 6_713);
}

#[test]
fn words_of_objects(rt: HostRuntime) {
    let first = Obj::new(0).unwrap();
    let last = Obj::new(4_095).unwrap();
    assert_eq!(rt; words::row_lock(first), 6_714);
    assert_eq!(rt; words::head(first), 6_715);
    assert_eq!(rt; words::inline_value(first, 0), 6_716);
    assert_eq!(rt; words::row_lock(last), 47_664);
    assert_eq!(rt; words::inline_value(last, 7), 47_673);
    assert_eq!(rt; words::TABLE_WORDS, 47_674);
}
