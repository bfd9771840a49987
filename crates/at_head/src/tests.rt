//! Heads and their words.
use crate::{Head, Layout, load_head, load_inline};
use at_core::{OpenFault, World};
use at_value::{Class, Limits, Obj};

#[test]
fn a_head_has_its_word(rt: HostRuntime) {
    let row = Obj::new(3).unwrap();
    let class = Class::new(5).unwrap();
    let head = Head {
        sequence: 2,
        class,
        layout: Layout::Inline,
        row,
    };
    assert_eq!(rt; head.word(), 0x000d_0500_0000_0002);
    assert_eq!(rt; Head::of_word(0x000d_0500_0000_0002), head);
    assert!(rt; head.is_whole());
    let last = Head {
        sequence: 1_099_511_627_775,
        class: Class::new(254).unwrap(),
        layout: Layout::Dictionary,
        row: Obj::new(4_095).unwrap(),
    };
    assert_eq!(rt; Head::of_word(last.word()), last);
    assert!(rt; !last.is_whole());
}

#[test]
fn an_object_that_is_not_made(rt: HostRuntime) -> Result<(), OpenFault> {
    let (world, mut pass) = World::open(rt.alloc(), Limits::program())?;
    let o = Obj::new(4_095).unwrap();
    let head = load_head(&world, &mut pass, o);
    assert_eq!(rt; head.layout, Layout::Unmade);
    assert_eq!(rt; head.sequence, 0);
    assert_eq!(rt; load_inline(&world, &mut pass, o, 7), 0);
    Ok(())
}
