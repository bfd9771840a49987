//! Ending a call.
ghost use Rattle.std.specs.Prelude.{◌≡◌, List};
ghost use Rattle.at_value.specs.declared.operation.Op as ops;
ghost use Rattle.at_value.specs.declared.reply.Answer as answers;
ghost use Rattle.at_core.specs.declared.lock.Lock as locks;
ghost use Rattle.at_core.specs.declared.world.Pass as passes;
ghost use Rattle.at_core.specs.Passes.{view, IsOf};
ghost use Rattle.at_section.specs.Surfaces.{Surface, TypesSurface};
ghost use Rattle.at_call.specs.Done.{IsAnswered, IsDone, IsReadNow, Leaves};
ghost use Rattle.at_call.specs.UnderWay.{HasInHand, IsFrom, IsUnderWay, IsUnwritten, MayGoBack};

use at_core::{Pass, World};
use at_place::now;
use at_section::end_types;
use at_types::Types;
use at_value::{Answer, Path, Reply};
use std::sync::Wait;

/// Ends a call: the types go back, which have to be those of what their lock kept, and the locks of its section are given. A call that has been answered is done then; one that
/// hasn't written leaves the pass in the sections in which it was.
pub fn end_call<R: Wait>(world: &World, rt: &R, pass: &mut Pass, types: Box<Types>)
    requires of { IsOf pass.old world.now }
    requires surface { TypesSurface pass.old }
    requires back { MayGoBack pass.old types.value }
    ensures of { IsOf pass.new world.now }
    ensures surface { Surface pass.new }
    ensures from { IsFrom pass.old pass.new }
    ensures own { IsUnwritten pass.old pass.new }
    ensures leaves { (ls : List locks.Lock) (p : passes.Pass) → IsUnderWay ls p pass.old → Leaves p pass.new }
    ensures done { (ls : List locks.Lock) (p : passes.Pass) (operation : ops.Op) (answer : answers.Answer)
        → IsUnderWay ls p pass.old → IsAnswered operation p pass.old answer → IsDone operation p pass.new answer }
{
    end_types(world, rt, pass, types);
}

/// Ends a call with the reply of an operation that is no write, at a place that is loaded before the locks are given. Of the rows
/// whose dictionaries the reply tells, the pass has to hold the locks.
pub fn answer<R: Wait>(
    world: &World,
    rt: &R,
    pass: &mut Pass,
    types: Box<Types>,
    reply: Reply,
) -> Answer
    requires of { IsOf pass.old world.now }
    requires surface { TypesSurface pass.old }
    requires hand { HasInHand pass.old types.value }
    ensures of { IsOf pass.new world.now }
    ensures surface { Surface pass.new }
    ensures reply { result.reply ≡ reply }
    ensures own { IsUnwritten pass.old pass.new }
    ensures done { (ls : List locks.Lock) (p : passes.Pass) (operation : ops.Op)
        → IsUnderWay ls p pass.old → IsUnwritten p pass.old → IsReadNow operation reply (view pass.old)
        → IsDone operation p pass.new result }
{
    let place = now(world, pass);
    end_call(world, rt, pass, types);
    Answer {
        place,
        reply,
        path: Path::Locked,
    }
}
