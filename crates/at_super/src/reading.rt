//! Operations that look names up in classes: each in a section of its own with the lock of the types, which it waits for where
//! another pass holds it. They ask that the pass is in fewer than 20 sections, and in none of the types.
ghost use Rattle.std.specs.Prelude.{◌≡◌, ◌<◌, length, IfOk, OnErr};
ghost use Rattle.at_value.specs.declared.operation.Op.TheVariants as ops;
ghost use Rattle.at_core.specs.Passes.{notes, IsOf};
ghost use Rattle.at_section.specs.Surfaces.{Surface};
ghost use Rattle.at_call.specs.Done.{IsDone, LeavesUnwritten};

use crate::replies::{class_get_reply, class_of_reply, mro_reply, special_reply, super_get_reply};
use at_call::{answer, begin_call, end_call};
use at_core::note::MOST_NOTES;
use at_core::{Pass, World};
use at_value::{Answer, Class, Name, Obj};
use std::alloc::{AllocError, Global};
use std::sync::Wait;

/// The special method n of an object, which is looked up along the order of its class and never in its own dictionary; nor is
/// `__getattr__` tried. `NoAttr` where there is no such object, or no class of the order has the name, and `NoGetter` for a
/// property without a getter.
///
/// After the Python language reference, "Special method lookup".
pub fn special<R: Wait>(world: &World, rt: &R, pass: &mut Pass, o: Obj, n: Name) -> Answer
    requires of { IsOf pass.old world.now }
    requires surface { Surface pass.old }
    requires few { length (notes pass.old) < MOST_NOTES }
    ensures of { IsOf pass.new world.now }
    ensures surface { Surface pass.new }
    ensures done { IsDone (ops.Special o n) pass.old pass.new result }
{
    let types = begin_call(world, rt, pass, None, None);
    let reply = special_reply(world, pass, &types, o, n);
    answer(world, rt, pass, types, reply)
}

/// `c.n` of a class. `NoClass` where it isn't made, and `NoAttr` where no class of its order has the name.
///
/// After the Python language reference, "Invoking Descriptors".
pub fn class_get<R: Wait>(world: &World, rt: &R, pass: &mut Pass, c: Class, n: Name) -> Answer
    requires of { IsOf pass.old world.now }
    requires surface { Surface pass.old }
    requires few { length (notes pass.old) < MOST_NOTES }
    ensures of { IsOf pass.new world.now }
    ensures surface { Surface pass.new }
    ensures done { IsDone (ops.TypeGet c n) pass.old pass.new result }
{
    let types = begin_call(world, rt, pass, None, None);
    let reply = class_get_reply(world, pass, &types, c, n);
    answer(world, rt, pass, types, reply)
}

/// `o.__class__`. `NoAttr` where there is no such object.
pub fn class_of<R: Wait>(world: &World, rt: &R, pass: &mut Pass, o: Obj) -> Answer
    requires of { IsOf pass.old world.now }
    requires surface { Surface pass.old }
    requires few { length (notes pass.old) < MOST_NOTES }
    ensures of { IsOf pass.new world.now }
    ensures surface { Surface pass.new }
    ensures done { IsDone (ops.ClassOf o) pass.old pass.new result }
{
    let types = begin_call(world, rt, pass, None, None);
    let reply = class_of_reply(world, pass, &types, o);
    answer(world, rt, pass, types, reply)
}

/// `super(k, o).n`: the name in the classes after k in the order of the object's class. `NoAttr` where there is no such object,
/// then `NoClass` where k isn't made, then `NotSubclass` where k isn't in that order, then as a special method replies.
///
/// After the Python documentation, "Built-in Functions", `super`.
pub fn super_get<R: Wait>(
    world: &World,
    rt: &R,
    pass: &mut Pass,
    k: Class,
    o: Obj,
    n: Name,
) -> Answer
    requires of { IsOf pass.old world.now }
    requires surface { Surface pass.old }
    requires few { length (notes pass.old) < MOST_NOTES }
    ensures of { IsOf pass.new world.now }
    ensures surface { Surface pass.new }
    ensures done { IsDone (ops.Super k o n) pass.old pass.new result }
{
    let types = begin_call(world, rt, pass, None, None);
    let reply = super_get_reply(world, pass, &types, k, o, n);
    answer(world, rt, pass, types, reply)
}

/// `c.__mro__`: the order of a class. `NoClass` where it isn't made. The one error is out of memory for the list, and then nothing
/// was done.
pub fn mro<R: Wait>(
    alloc: Global,
    world: &World,
    rt: &R,
    pass: &mut Pass,
    c: Class,
) -> Result<Answer, AllocError>
    requires of { IsOf pass.old world.now }
    requires surface { Surface pass.old }
    requires few { length (notes pass.old) < MOST_NOTES }
    ensures of { IsOf pass.new world.now }
    ensures surface { Surface pass.new }
    ensures done { IfOk result (λ answer. IsDone (ops.Mro c) pass.old pass.new answer) }
    ensures out { OnErr result (LeavesUnwritten pass.old pass.new) }
{
    let types = begin_call(world, rt, pass, None, None);
    match mro_reply(alloc, &types, c) {
        Ok(reply) => Ok(answer(world, rt, pass, types, reply)),
        Err(error) => {
            end_call(world, rt, pass, types);
            Err(error)
        }
    }
}
