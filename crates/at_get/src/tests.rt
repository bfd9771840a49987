//! Reads on a world of its own.
ghost use Rattle.std.specs.Prelude.{◌≡◌, ◌<◌, [], true, IfSome};
ghost use Rattle.at_view.specs.Views.{first_view};
ghost use Rattle.at_core.specs.Passes.{view, hand, IsOf, IsSame, HasSameHand};
ghost use Rattle.at_core.specs.Trials.{HasClass, HasLocks, HasObject};

use crate::{InlineValue, inline_value};
use at_core::locking::try_lock;
use at_core::{Lock, OpenFault, Pass, World};
use at_head::{Layout, close_write, open_write};
use at_place::{commit, intend, now};
use at_value::{Bases, Class, Limits, Miss, Name, Obj, Op, Place};

/// The first pass takes the lock of the types and the row of object 0.
fn take_both(world: &World, pass: &mut Pass, o: Obj) -> bool
    requires of { IsOf pass.old world.now }
    requires number { o ≡ 0 }
    requires first { view pass.old ≡ first_view world.now.limits }
    requires empty { hand pass.old ≡ [] }
    ensures same { IsSame pass.old pass.new × IsOf pass.new world.now }
    ensures taken { result ≡ true → HasLocks (view pass.new) }
{
    if try_lock(world, pass, Lock::Types) != 0 {
        return false;
    }
    try_lock(world, pass, Lock::Row(o)) == 0
}

/// The pass makes class 1.
fn make_class(world: &World, pass: &mut Pass, c: Class) -> Place
    requires of { IsOf pass.old world.now }
    requires number { c ≡ 1 }
    requires taken { HasLocks (view pass.old) }
    requires room { 0 < world.now.limits.place_max }
    ensures same { IsSame pass.old pass.new × IsOf pass.new world.now × HasSameHand pass.old pass.new }
    ensures class { HasClass (view pass.new) }
{
    now(world, pass);
    intend(world, pass, &Op::NewClass(c, Bases::only(Class::object())));
    commit(world, pass)
}

/// The pass makes object 0 of class 1, with inline values: none where its head can't be opened.
fn make_object(world: &World, pass: &mut Pass, o: Obj, c: Class) -> Option<Place>
    requires of { IsOf pass.old world.now }
    requires numbers { (o ≡ 0) × (c ≡ 1) }
    requires class { HasClass (view pass.old) }
    requires room { 1 < world.now.limits.place_max }
    ensures same { IsSame pass.old pass.new × IsOf pass.new world.now × HasSameHand pass.old pass.new }
    ensures object { IfSome result (λ _. HasObject (view pass.new)) }
{
    match open_write(world, pass, o) {
        Ok(_) => {}
        Err(_) => return None,
    }
    now(world, pass);
    intend(world, pass, &Op::New(c));
    let place = commit(world, pass);
    close_write(world, pass, o, c, Layout::Inline, o);
    Some(place)
}

/// All of these in turn; then the object is read.
fn make_and_read(
    world: &World,
    pass: &mut Pass,
    o: Obj,
    c: Class,
    n: Name,
) -> Option<Result<InlineValue, Miss>>
    requires of { IsOf pass.old world.now }
    requires numbers { (o ≡ 0) × (c ≡ 1) }
    requires first { view pass.old ≡ first_view world.now.limits }
    requires empty { hand pass.old ≡ [] }
    requires room { 1 < world.now.limits.place_max }
{
    if !take_both(world, pass, o) {
        return None;
    }
    make_class(world, pass, c);
    match make_object(world, pass, o, c) {
        Some(_) => Some(inline_value(world, pass, o, n)),
        None => None,
    }
}

#[test]
fn an_object_without_values_is_read(rt: HostRuntime) -> Result<(), OpenFault> {
    let (world, mut pass) = World::open(rt.alloc(), Limits::program())?;
    let o = Obj::new(0).unwrap();
    let c = Class::new(1).unwrap();
    let n = Name::new(20).unwrap();
    let read = InlineValue {
        place: Place(2),
        class: c,
        value: None,
    };
    assert_eq!(rt; make_and_read(&world, &mut pass, o, c, n), Some(Ok(read)));
    Ok(())
}
