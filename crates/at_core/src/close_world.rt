//! A world is closed by its only pass, which then knows all that was written.
ghost use Rattle.std.specs.Prelude.{◌≡◌, IfOk, IfErr, length, map};
ghost use Rattle.at_types.specs.Types.{StandsFor};
ghost use Rattle.at_model.specs.Final.{final_of, class_ends, object_end};
ghost use Rattle.at_model.specs.World as world;
ghost use Rattle.at_core.specs.Closing.{now_of, HasRead, HasTypes, IsBack, IsStill};
ghost use Rattle.at_core.specs.Locks.{HoldsNone};
ghost use Rattle.at_core.specs.Passes.{view, IsOf, IsSame};
ghost use Rattle.at_core.specs.Plays.{IsAlone};
ghost use Rattle.at_core.specs.Steps.{HoldsTypesAlone};

use crate::lock::Lock;
use crate::locking::{slot_in, slot_out, unlock};
use crate::object_end::{object_end, take_alone};
use crate::stored::Stored;
use crate::world::{Pass, World};
use at_model::{ClassEnd, Final, ObjEnd};
use at_types::Types;
use at_value::{Class, Obj, Pairs, Sequence};
use std::alloc::{AllocError, Global};

/// A world that wasn't closed, since memory ran out, and its pass.
#[derive(Drop)]
pub struct Unclosed {
    pub world: World,
    pub pass: Pass,
}

/// A class's own names with their values.
fn own_of(alloc: Global, types: &Types, c: Class) -> Result<Pairs, AllocError>
    requires { (w : world.World) × StandsFor types.now w × world.IsWellFormed w }
    ensures { IfOk result (λ own. own ≡ world.own_of (world.row_of types.now.classes c)) }
{
    let mut items = Vec::new(alloc);
    while let Some(pair) = types.own_at(c, items.len()) {
        items.push(pair)?;
    }
    Ok(Pairs::of(items))
}

/// What each class that is made has at the end, by rising number.
fn ends_of_classes(alloc: Global, types: &Types) -> Result<Vec<ClassEnd>, AllocError>
    requires { (w : world.World) × StandsFor types.now w × world.IsWellFormed w }
    ensures { IfOk result (λ ends. (w : world.World) → StandsFor types.now w
        → ends.items ≡ class_ends w 0 w.classes) }
{
    types.invariant();
    let mut ends = Vec::new(alloc);
    for i in 0..Class::COUNT {
        let Some(class) = Class::new(i) else {
            return Ok(ends);
        };
        if let Some(order) = types.order_of(class) {
            ends.push(ClassEnd {
                class,
                order: order.copy(alloc)?,
                own: own_of(alloc, types, class)?,
            })?;
        }
    }
    Ok(ends)
}

/// What each of so many objects has at the end.
fn ends_of_objects(
    world: &World,
    pass: &mut Pass,
    alloc: Global,
    count: u16,
) -> Result<Vec<ObjEnd>, AllocError>
    requires of { IsOf pass.old world.now }
    requires alone { IsAlone (view pass.old) }
    requires only { HoldsTypesAlone (view pass.old) }
    requires all { count ≡ length (now_of world.now.limits (view pass.old)).objects }
    ensures of { IsOf pass.new world.now }
    ensures read { HasRead pass.old pass.new }
    ensures ends { IfOk result (λ ends. ends.items ≡ map (object_end (now_of world.now.limits (view pass.old)))
        (now_of world.now.limits (view pass.old)).objects) }
{
    let mut ends = Vec::new(alloc);
    for i in 0..count {
        let Some(o) = Obj::new(i) else {
            return Ok(ends);
        };
        ends.push(object_end(world, pass, alloc, o)?)?;
    }
    Ok(ends)
}

/// The final namespaces, by the types and by the rows of all objects.
fn ends_of_all(
    world: &World,
    pass: &mut Pass,
    alloc: Global,
    types: &Types,
) -> Result<Final, AllocError>
    requires of { IsOf pass.old world.now }
    requires alone { IsAlone (view pass.old) }
    requires only { HoldsTypesAlone (view pass.old) }
    requires stands { StandsFor types.now (now_of world.now.limits (view pass.old)) }
    ensures of { IsOf pass.new world.now }
    ensures read { HasRead pass.old pass.new }
    ensures last { IfOk result (λ last. last ≡ final_of (now_of world.now.limits (view pass.old))) }
{
    let classes = Sequence::of(ends_of_classes(alloc, types)?);
    let objects = Sequence::of(ends_of_objects(world, pass, alloc, types.objects())?);
    Ok(Final { classes, objects })
}

/// Takes the types out of their slot, under their lock.
pub(crate) fn take_types(world: &World, pass: &mut Pass) -> Box<Types>
    requires of { IsOf pass.old world.now }
    requires alone { IsAlone (view pass.old) }
    requires out { HoldsNone (view pass.old) }
    ensures of { IsOf pass.new world.now }
    ensures same { IsSame pass.old pass.new × IsStill (view pass.old) (view pass.new) }
    ensures types { HasTypes (now_of world.now.limits (view pass.new)) pass.new result.value }
{
    take_alone(world, pass, Lock::Types);
    match slot_out(world, pass, Lock::Types) {
        Stored::Types(types) => types,
        Stored::Body(_) => unreachable!(),
    }
}

/// Puts the types back and gives back their lock.
pub(crate) fn give_types(world: &World, pass: &mut Pass, types: Box<Types>)
    requires of { IsOf pass.old world.now }
    requires types { HasTypes (now_of world.now.limits (view pass.old)) pass.old types.value }
    ensures of { IsOf pass.new world.now }
    ensures back { IsBack pass.old pass.new }
{
    slot_in(world, pass, Lock::Types, Stored::Types(types));
    unlock(world, pass, Lock::Types);
}

/// The final namespaces, which the pass reads under the lock of the types. Each lock that it takes it gives back.
fn last_of(world: &World, pass: &mut Pass, alloc: Global) -> Result<Final, AllocError>
    requires of { IsOf pass.old world.now }
    requires alone { IsAlone (view pass.old) }
    requires out { HoldsNone (view pass.old) }
    ensures of { IsOf pass.new world.now }
    ensures back { IsBack pass.old pass.new }
    ensures last { IfOk result (λ last. last ≡ final_of (now_of world.now.limits (view pass.old))) }
{
    let types = take_types(world, pass);
    let last = ends_of_all(world, pass, alloc, &types);
    give_types(world, pass, types);
    last
}

impl World {
    /// Closes the world and gives the final namespaces: those after all writes. It asks that the pass is the first one,
    /// has no child and holds no lock; so each other pass was taken in, and what this one has seen is all that was
    /// written. Where memory runs out, the world and the pass are handed back; the pass has no lock and nothing in hand,
    /// and has seen and written nothing more.
    pub fn close(self, pass: Pass) -> Result<Final, Unclosed>
        requires of { IsOf pass self }
        requires alone { IsAlone (view pass) }
        requires out { HoldsNone (view pass) }
        ensures ok { IfOk result (λ last. last ≡ final_of (now_of self.limits (view pass))) }
        ensures err { IfErr result (λ back. (back.world ≡ self) × IsOf back.pass back.world × IsBack pass back.pass) }
    {
        let mut pass = pass;
        let alloc = *self.sleepers.allocator();
        match last_of(&self, &mut pass, alloc) {
            Ok(last) => Ok(last),
            Err(AllocError) => Err(Unclosed { world: self, pass }),
        }
    }
}
