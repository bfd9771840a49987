//! Scans on a world of its own.
use crate::{KeyAt, key_at, scan};
use at_core::{OpenFault, World};
use at_value::{Class, Limits, Name};

#[test]
fn a_class_has_no_keys_at_first(rt: HostRuntime) -> Result<(), OpenFault> {
    let (world, mut pass) = World::open(rt.alloc(), Limits::program())?;
    let c = Class::new(254).unwrap();
    assert_eq!(rt; scan(&world, &mut pass, c, Name::init()), KeyAt::NotThere);
    assert_eq!(rt; key_at(&world, &mut pass, c, 7), None);
    Ok(())
}
