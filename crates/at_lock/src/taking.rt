//! Taking locks and giving them back.
ghost use Rattle.std.specs.Prelude.{ℕ, ◌≡◌, ◌<◌, ◌↔◌, ◌∷◌, [], ◌++◌, false, suc, length, None, Some};
ghost use Rattle.at_view.specs.declared.mark.StepKind.TheVariants as kinds;
ghost use Rattle.at_core.specs.Locks.{holds, lock_word};
ghost use Rattle.at_core.specs.Passes.{view, hand, slot_at, IsOf, IsSame, IsElsewhereSame};
ghost use Rattle.at_core.specs.Plays.{Brought, Found, IsAlone};
ghost use Rattle.at_core.specs.Steps.{given, mark, missed, IsShut};
ghost use Rattle.at_lock.specs.declared.taking.Taken.TheVariants as taken;
ghost use Rattle.at_core.specs.Locks.{HoldsNone};
ghost use Rattle.at_lock.specs.Holding.{HasValue};
ghost use Rattle.at_lock.specs.Waits.{IsTaken, IsTakenAtOnce};

use at_core::locking::{try_lock, unlock};
use at_core::world::MOST_HELD;
use at_core::{Lock, Pass, World};
use std::sync::Wait;

/// What a try to take a lock answers.
#[derive(Clone, Copy, Debug, PartialEq, Eq)]
pub enum Taken {
    /// The pass has the lock.
    Got,
    /// The pass of this number, below 64, holds it.
    Held(u8),
}

/// Tries once to take a lock that the pass doesn't hold, and waits for nobody. A pass holds at most 64 locks. `Held` comes
/// exactly where the exchange found the number of that pass, and never to a first pass without children. With the lock comes
/// the value of its slot, and the pass has seen the history up to this moment.
pub fn try_take(world: &World, pass: &mut Pass, lock: Lock) -> Taken
    requires of { IsOf pass.old world.now }
    requires out { holds lock (view pass.old) ≡ false }
    requires room { length (hand pass.old) < MOST_HELD }
    ensures same { IsSame pass.old pass.new × IsOf pass.new world.now }
    ensures got { result ≡ taken.Got → IsTakenAtOnce lock (view pass.old) (view pass.new) × HasValue pass.new lock }
    ensures held { (q : ℕ) → result ≡ taken.Held q
        → (view pass.new ≡ missed lock (view pass.old) (suc q)) × Found (view pass.old) (suc q) }
    ensures found { (q : ℕ) → (result ≡ taken.Held q) ↔ ((view pass.new).trace ≡ (view pass.old).trace
        ++ mark kinds.LockTake (lock_word lock) (Some (suc q)) (Some (suc q)) ∷ []) }
    ensures alone { IsAlone (view pass.old) → result ≡ taken.Got }
    ensures elsewhere { IsElsewhereSame pass.old pass.new lock }
    ensures longer { result ≡ taken.Got → length (hand pass.new) ≡ suc (length (hand pass.old)) }
    ensures as_long { (q : ℕ) → result ≡ taken.Held q → length (hand pass.new) ≡ length (hand pass.old) }
{
    let found = try_lock(world, pass, lock);
    if found == 0 {
        return Taken::Got;
    }
    Taken::Held((found - 1) as u8)
}

/// Takes a lock, and waits for it as long as another pass holds it. The pass holds no lock meanwhile. Between two tries it
/// looks at the lock's word some 400 times and then sleeps; each try that finds the lock held leaves its mark.
pub fn take<R: Wait>(world: &World, rt: &R, pass: &mut Pass, lock: Lock)
    requires of { IsOf pass.old world.now }
    requires out { HoldsNone (view pass.old) }
    ensures same { IsSame pass.old pass.new × IsOf pass.new world.now }
    ensures taken { IsTaken lock (view pass.old) (view pass.new) }
    ensures has { HasValue pass.new lock }
    ensures shut { IsShut lock (view pass.new) }
    ensures elsewhere { IsElsewhereSame pass.old pass.new lock }
{
    let lock = &lock;
    for _ in rt.forever() {
        match try_take(world, pass, *lock) {
            Taken::Got => return,
            Taken::Held(holder) => world.wait_for(rt, pass, lock, holder),
        }
    }
    unreachable!()
}

/// Gives back a lock that the pass holds, with the value in its slot, which has to be right, and with nothing open: of a row the
/// head of its object, and with the types no head at all. It wakes a pass that sleeps for the lock.
pub fn give(world: &World, pass: &mut Pass, lock: Lock)
    requires of { IsOf pass.old world.now }
    requires has { HasValue pass.old lock }
    requires shut { IsShut lock (view pass.old) }
    ensures same { IsSame pass.old pass.new × IsOf pass.new world.now }
    ensures given { view pass.new ≡ given lock (view pass.old) }
    ensures gone { slot_at pass.new lock ≡ None }
    ensures elsewhere { IsElsewhereSame pass.old pass.new lock }
    ensures brought { Brought (view pass.old) }
{
    unlock(world, pass, lock);
}
