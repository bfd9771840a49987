//! Locks, splits and joins on a world of its own.
ghost use Rattle.std.specs.Prelude.{◌≡◌, ◌<◌, false, length};
ghost use Rattle.at_core.specs.Locks.{holds};
ghost use Rattle.at_core.specs.Passes.{view, hand, IsOf, IsSame};
ghost use Rattle.at_core.specs.Locks.{HoldsNone};

use crate::{
    NoPass, Taken, body_in, body_out, give, join, split, take, try_take, types_in, types_out,
};
use at_core::{Lock, OpenFault, Pass, World};
use at_value::{Limits, Name, Obj};
use std::sync::Wait;

/// Takes the lock of the types, and gives how many objects there are.
fn objects<R: Wait>(world: &World, rt: &R, pass: &mut Pass) -> u16
    requires of { IsOf pass.old world.now }
    requires out { HoldsNone (view pass.old) }
    ensures { IsSame pass.old pass.new × IsOf pass.new world.now }
{
    take(world, rt, pass, Lock::Types);
    let types = types_out(world, pass);
    let objects = types.objects();
    types_in(world, pass, types);
    give(world, pass, Lock::Types);
    objects
}

/// Takes the lock of a row, and gives whether its dictionary is empty.
fn is_empty<R: Wait>(world: &World, rt: &R, pass: &mut Pass, o: Obj) -> bool
    requires of { IsOf pass.old world.now }
    requires out { HoldsNone (view pass.old) }
    ensures { IsSame pass.old pass.new × IsOf pass.new world.now }
{
    take(world, rt, pass, Lock::Row(o));
    let body = body_out(world, pass, o);
    let empty = body.at(0).is_none();
    body_in(world, pass, o, body);
    give(world, pass, Lock::Row(o));
    empty
}

#[test]
fn values_come_with_locks(rt: HostRuntime) -> Result<(), OpenFault> {
    let (world, mut pass) = World::open(rt.alloc(), Limits::program())?;
    assert_eq!(rt; objects(&world, &rt, &mut pass), 0);
    let (world, mut pass) = World::open(rt.alloc(), Limits::program())?;
    let last = Obj::new(4_095).unwrap();
    assert!(rt; is_empty(&world, &rt, &mut pass, last));
    Ok(())
}

/// What a second pass finds while the first has the lock of the types.
fn found_by_a_second<R: Wait>(
    world: &World,
    rt: &R,
    pass: &mut Pass,
) -> Result<Option<Taken>, NoPass>
    requires of { IsOf pass.old world.now }
    requires out { HoldsNone (view pass.old) }
{
    let mut second = split(world, rt, pass)?;
    match try_take(world, pass, Lock::Types) {
        Taken::Got => {
            let found = try_take(world, &mut second, Lock::Types);
            give(world, pass, Lock::Types);
            Ok(Some(found))
        }
        Taken::Held(_) => Ok(None),
    }
}

#[test]
fn a_held_lock_tells_its_holder(rt: HostRuntime) -> Result<(), OpenFault> {
    let (world, mut pass) = World::open(rt.alloc(), Limits::program())?;
    let found = found_by_a_second(&world, &rt, &mut pass);
    assert_eq!(rt; found, Ok(Some(Taken::Held(0))));
    Ok(())
}

/// Splits passes off until sixty-four are live, tries once more, takes the last one in, and splits off once more. Gives
/// whether each came out as it should.
fn passes_run_out<R: Wait>(world: &World, rt: &R, pass: &mut Pass) -> Result<(u8, bool, u8), NoPass>
    requires of { IsOf pass.old world.now }
    requires out { HoldsNone (view pass.old) }
{
    for _ in 0..62 {
        split(world, rt, pass)?;
    }
    let last = split(world, rt, pass)?;
    let number = last.number();
    let full = split(world, rt, pass).is_err();
    join(world, rt, pass, last);
    let again = split(world, rt, pass)?;
    Ok((number, full, again.number()))
}

#[test]
fn there_are_at_most_sixty_four_passes(rt: HostRuntime) -> Result<(), OpenFault> {
    let (world, mut pass) = World::open(rt.alloc(), Limits::program())?;
    assert!(rt; pass.online());
    assert_eq!(rt; passes_run_out(&world, &rt, &mut pass), Ok((63, true, 63)));
    Ok(())
}
