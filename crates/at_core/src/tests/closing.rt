//! Worlds are closed: a fresh one, and one with a class of its own. Where memory runs out, what is handed back is closed
//! again.
ghost use Rattle.std.specs.Prelude.{◌≡◌, ◌<◌, [], ◌∷◌, IfOk};
ghost use Rattle.at_model.specs.Final.{final_of};
ghost use Rattle.at_view.specs.Views.{first_view};
ghost use Rattle.at_core.specs.Closing.{now_of};
ghost use Rattle.at_core.specs.Locks.{HoldsNone};
ghost use Rattle.at_core.specs.Passes.{view, IsOf};
ghost use Rattle.at_core.specs.Plays.{IsAlone};
ghost use Rattle.at_core.specs.SomeRun.{new_class};

use super::CLASS_ONE;
use crate::close_world::{give_types, take_types};
use crate::places::{commit, load_place, store_intent};
use crate::{OpenFault, Pass, Unclosed, World};
use at_model::{ClassEnd, Final};
use at_value::{Bases, Class, ClassList, Limits};
use std::alloc::AllocError;

/// Closes a world, and once more where memory ran out.
fn close_again(world: World, pass: Pass) -> Result<Final, OpenFault>
    requires of { IsOf pass world }
    requires alone { IsAlone (view pass) }
    requires out { HoldsNone (view pass) }
    ensures { IfOk result (λ last. last ≡ final_of (now_of world.limits (view pass))) }
{
    match world.close(pass) {
        Ok(last) => Ok(last),
        Err(back) => {
            let Unclosed { world, pass } = back;
            match world.close(pass) {
                Ok(last) => Ok(last),
                Err(_) => Err(OpenFault::NoMemory),
            }
        }
    }
}

/// The first pass makes class 1 with the one base `object`, in the table and in the types.
fn make_class(world: &World, pass: &mut Pass) -> Result<(), AllocError>
    requires of { IsOf pass.old world.now }
    requires first { view pass.old ≡ first_view world.now.limits }
    requires room { 0 < world.now.limits.place_max }
    ensures of { IsOf pass.new world.now }
    ensures alone { IsAlone (view pass.new) }
    ensures out { IfOk result (λ _. HoldsNone (view pass.new)) }
    ensures made { IfOk result (λ _. (view pass.new).history.seen ≡ new_class ∷ []) }
{
    let mut types = take_types(world, pass);
    types.define(Class::new(1).unwrap(), &Bases::only(Class::object()))?;
    load_place(world, pass);
    store_intent(world, pass, 0, CLASS_ONE);
    commit(world, pass);
    give_types(world, pass, types);
    Ok(())
}

/// Whether the end of a class has this number, this order and no names.
fn is_end(end: &ClassEnd, number: u16, order: &[u16]) -> bool {
    end.class.number() == number && end.own.is_empty() && has_classes(&end.order, order)
}

/// Whether a list has the classes of these numbers.
fn has_classes(list: &ClassList, numbers: &[u16]) -> bool {
    if list.len() != numbers.len() {
        return false;
    }
    for i in 0..numbers.len() {
        if list.at(i) != Class::new(numbers[i]) {
            return false;
        }
    }
    true
}

#[test]
fn a_fresh_world_has_one_class(rt: HostRuntime) -> Result<(), OpenFault> {
    let (world, pass) = World::open(rt.alloc(), Limits::program())?;
    let last = close_again(world, pass)?;
    assert_eq!(rt; last.objects.len(), 0);
    assert_eq!(rt; last.classes.len(), 1);
    assert!(rt; last.classes.at(0).is_some_and(|end| is_end(end, 0, &[0])));
    Ok(())
}

#[test]
fn a_class_is_there_at_the_end(rt: HostRuntime) -> Result<(), OpenFault> {
    let (world, mut pass) = World::open(rt.alloc(), Limits::program())?;
    make_class(&world, &mut pass)?;
    let last = close_again(world, pass)?;
    assert_eq!(rt; last.objects.len(), 0);
    assert_eq!(rt; last.classes.len(), 2);
    assert!(rt; last.classes.at(0).is_some_and(|end| is_end(end, 0, &[0])));
    assert!(rt;
        last.classes
            .at(1)
            .is_some_and(|end| is_end(end, 1, &[1, 0]))
    );
    Ok(())
}
