//! The common part of all writes of classes.
ghost use Rattle.std.specs.Prelude.{◌≡◌, ◌<◌, true, false, IsTrue, List, length, IfOk, IfErr, OnErr};
ghost use Rattle.at_model.specs.Step.{is_done as is_write_reply};
ghost use Rattle.at_types.specs.Types.{is_class_write, IsReplyTo, IsStepped, TypesState};
ghost use Rattle.at_core.specs.declared.lock.Lock as locks;
ghost use Rattle.at_core.specs.declared.world.Pass as passes;
ghost use Rattle.at_core.specs.Passes.{notes, view, IsOf};
ghost use Rattle.at_section.specs.Surfaces.{Surface, TypesSurface};
ghost use Rattle.at_call.specs.Done.{IsDone};
ghost use Rattle.at_call.specs.UnderWay.{HasInHand, IsFrom, IsUnderWay, IsUnwritten};
ghost use Rattle.at_class.specs.Changes.{IsChange, IsFault};

use crate::fault::ClassFault;
use at_call::{answer, begin_call, end_call};
use at_core::note::MOST_NOTES;
use at_core::{Pass, World};
use at_place::{commit, intend, now};
use at_types::Types;
use at_value::{Answer, Op, Path, Reply};
use std::alloc::AllocError;
use std::sync::Wait;

/// Does a write of classes to the types in hand.
fn apply(types: &mut Types, op: &Op) -> Result<Reply, AllocError>
    requires { IsTrue (is_class_write op.now) }
    ensures ok { IfOk result (IsStepped op.now types.old types.new) }
    ensures err { OnErr result (types.new ≡ types.old) }
{
    match op {
        Op::NewClass(c, bases) => types.define(*c, bases),
        Op::TypeSet(c, n, v) => types.put(*c, *n, *v),
        Op::TypeDel(c, n) => Ok(types.cut(*c, *n)),
        Op::SetBases(c, bases) => types.rebase(*c, bases),
        Op::New(_)
        | Op::Set(_, _, _)
        | Op::Del(_, _)
        | Op::SetClass(_, _)
        | Op::Share(_, _)
        | Op::Get(_, _)
        | Op::TypeGet(_, _)
        | Op::Super(_, _, _)
        | Op::Special(_, _)
        | Op::ClassOf(_)
        | Op::Mro(_) => unreachable!(),
    }
}

/// What the write replies. It is done to the types in hand, unless there is no place for it.
fn attempt(types: &mut Types, op: &Op, full: bool) -> Result<Reply, AllocError>
    requires { IsTrue (is_class_write op.now) }
    ensures reply { IfOk result (IsReplyTo op.now types.old) }
    ensures stepped { full ≡ false → IfOk result (IsStepped op.now types.old types.new) }
    ensures left { full ≡ true → types.new ≡ types.old }
    ensures err { OnErr result (types.new ≡ types.old) }
{
    if full {
        types.would(op)
    } else {
        apply(types, op)
    }
}

/// Whether the reply is that of a write.
fn is_done(reply: &Reply) -> bool
    ensures { result ≡ is_write_reply reply.now }
{
    match reply {
        Reply::Done | Reply::Made(_, _) => true,
        _ => false,
    }
}

/// Writes an operation that was done to the types in hand.
fn write<R: Wait>(
    world: &World,
    rt: &R,
    pass: &mut Pass,
    types: Box<Types>,
    op: &Op,
    reply: Reply,
) -> Answer
    requires of { IsOf pass.old world.now }
    requires surface { TypesSurface pass.old }
    requires fresh { (view pass.old).intent.fresh ≡ true }
    requires class { IsTrue (is_class_write op.now) }
    requires done { is_write_reply reply ≡ true }
    requires stepped { (before : TypesState) × HasInHand pass.old before × IsStepped op.now before types.value reply }
    ensures of { IsOf pass.new world.now }
    ensures surface { Surface pass.new }
    ensures from { IsFrom pass.old pass.new }
    ensures done { (ls : List locks.Lock) (p : passes.Pass) → IsUnderWay ls p pass.old → IsUnwritten p pass.old
        → IsDone op.now p pass.new result }
{
    intend(world, pass, op);
    let place = commit(world, pass);
    end_call(world, rt, pass, types);
    Answer {
        place,
        reply,
        path: Path::Locked,
    }
}

/// A write of classes, in a section of its own with the lock of the types. The types are changed in the hand before the write takes
/// its place, so that nothing can fail after that. Where the place that is loaded isn't below the limit, the data model's refusals
/// come first.
pub(crate) fn change<R: Wait>(
    world: &World,
    rt: &R,
    pass: &mut Pass,
    op: &Op,
) -> Result<Answer, ClassFault>
    requires of { IsOf pass.old world.now }
    requires surface { Surface pass.old }
    requires few { length (notes pass.old) < MOST_NOTES }
    requires class { IsTrue (is_class_write op.now) }
    ensures of { IsOf pass.new world.now }
    ensures surface { Surface pass.new }
    ensures change { IfOk result (IsChange op.now pass.old pass.new) }
    ensures fault { IfErr result (IsFault op.now pass.old pass.new) }
{
    let mut types = begin_call(world, rt, pass, None, None);
    let place = now(world, pass);
    let full = place.0 >= world.limits().place_max;
    let Ok(reply) = attempt(&mut types, op, full) else {
        end_call(world, rt, pass, types);
        return Err(ClassFault::NoMemory);
    };
    if !is_done(&reply) {
        return Ok(answer(world, rt, pass, types, reply));
    }
    if full {
        end_call(world, rt, pass, types);
        return Err(ClassFault::PlaceFull(place));
    }
    Ok(write(world, rt, pass, types, op, reply))
}
