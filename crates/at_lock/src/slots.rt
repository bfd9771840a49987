//! The values that come with locks: the types, and the dictionaries of rows.
ghost use Rattle.std.specs.Prelude.{◌≡◌, Some};
ghost use Rattle.at_core.specs.declared.lock.Lock.TheVariants as locks;
ghost use Rattle.at_core.specs.declared.stored.Stored.TheVariants as stored;
ghost use Rattle.at_core.specs.Locks.{AreKept};
ghost use Rattle.at_core.specs.Opened.{opening_of};
ghost use Rattle.at_core.specs.Passes.{view, slot_at, IsOf, IsSame, IsElsewhereSame};
ghost use Rattle.at_lock.specs.Holding.{HasValue, HasOut, IsRight, IsRightNow};

use at_core::locking::{slot_in, slot_out};
use at_core::{Lock, Pass, Stored, World};
use at_dict::Body;
use at_types::Types;
use at_value::Obj;

/// Takes the types out of their slot, under their lock. They come behind the one pointer by which the slot has them. They
/// are those of what the lock kept, and where each lock has kept what it protects, of all that the pass has seen.
pub fn types_out(world: &World, pass: &mut Pass) -> Box<Types>
    requires of { IsOf pass.old world.now }
    requires has { HasValue pass.old locks.Types }
    ensures same { IsSame pass.old pass.new × IsOf pass.new world.now × (view pass.new ≡ view pass.old) }
    ensures out { HasOut pass.new locks.Types }
    ensures right { IsRight (view pass.new) locks.Types (stored.Types result) }
    ensures now { AreKept (opening_of world.now.limits) (view pass.old)
        → IsRightNow (view pass.new) locks.Types (stored.Types result) }
    ensures elsewhere { IsElsewhereSame pass.old pass.new locks.Types }
{
    match slot_out(world, pass, Lock::Types) {
        Stored::Types(types) => types,
        Stored::Body(_) => unreachable!(),
    }
}

/// Puts types into their slot. The lock can be given back where they are those of what it kept, with the lists that the pass
/// has.
pub fn types_in(world: &World, pass: &mut Pass, types: Box<Types>)
    requires of { IsOf pass.old world.now }
    requires out { HasOut pass.old locks.Types }
    ensures same { IsSame pass.old pass.new × IsOf pass.new world.now × (view pass.new ≡ view pass.old) }
    ensures within { slot_at pass.new locks.Types ≡ Some (Some (stored.Types types)) }
    ensures has { IsRight (view pass.old) locks.Types (stored.Types types) → HasValue pass.new locks.Types }
    ensures elsewhere { IsElsewhereSame pass.old pass.new locks.Types }
{
    slot_in(world, pass, Lock::Types, Stored::Types(types));
}

/// Takes the dictionary of a row out of its slot, under the row's lock. It is that of what the lock kept, and where each
/// lock has kept what it protects, of all that the pass has seen; it is empty where the head of the row's object doesn't
/// have the layout of a dictionary.
pub fn body_out(world: &World, pass: &mut Pass, o: Obj) -> Body
    requires of { IsOf pass.old world.now }
    requires has { HasValue pass.old (locks.Row o) }
    ensures same { IsSame pass.old pass.new × IsOf pass.new world.now × (view pass.new ≡ view pass.old) }
    ensures out { HasOut pass.new (locks.Row o) }
    ensures right { IsRight (view pass.new) (locks.Row o) (stored.Body result) }
    ensures now { AreKept (opening_of world.now.limits) (view pass.old)
        → IsRightNow (view pass.new) (locks.Row o) (stored.Body result) }
    ensures elsewhere { IsElsewhereSame pass.old pass.new (locks.Row o) }
{
    match slot_out(world, pass, Lock::Row(o)) {
        Stored::Body(body) => body,
        Stored::Types(_) => unreachable!(),
    }
}

/// Puts a dictionary into the slot of a row. The row's lock can be given back where it is that of what the lock kept.
pub fn body_in(world: &World, pass: &mut Pass, o: Obj, body: Body)
    requires of { IsOf pass.old world.now }
    requires out { HasOut pass.old (locks.Row o) }
    ensures same { IsSame pass.old pass.new × IsOf pass.new world.now × (view pass.new ≡ view pass.old) }
    ensures within { slot_at pass.new (locks.Row o) ≡ Some (Some (stored.Body body)) }
    ensures has { IsRight (view pass.old) (locks.Row o) (stored.Body body) → HasValue pass.new (locks.Row o) }
    ensures elsewhere { IsElsewhereSame pass.old pass.new (locks.Row o) }
{
    slot_in(world, pass, Lock::Row(o), Stored::Body(body));
}
