//! The count of writes on a world of its own.
use crate::{intend, now};
use at_core::{OpenFault, World};
use at_value::{Class, Limits, Op, Place};

#[test]
fn no_write_was_made_at_first(rt: HostRuntime) -> Result<(), OpenFault> {
    let (world, mut pass) = World::open(rt.alloc(), Limits::program())?;
    intend(&world, &mut pass, &Op::New(Class::new(0).unwrap()));
    assert_eq!(rt; now(&world, &mut pass), Place(0));
    Ok(())
}
