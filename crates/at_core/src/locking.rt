//! The steps on locks, and on the slots that leave the table with them.
ghost use Rattle.std.specs.Prelude.{◌≡◌, ◌≢◌, ◌<◌, true, false, suc, length, is_some, Some, None};
ghost use Rattle.at_view.specs.declared.view.TypeLists.{TypeLists};
ghost use Rattle.at_core.specs.declared.stored.Stored as stored;
ghost use Rattle.at_view.specs.Words.{number_of};
ghost use Rattle.at_core.specs.Locks.{holds, lock_word, slot_of};
ghost use Rattle.at_core.specs.Opened.{opening_of};
ghost use Rattle.at_core.specs.Passes.{view, hand, slot_at, IsOf, IsSame, IsElsewhereSame};
ghost use Rattle.at_core.specs.Plays.{Brought, Found, Took};
ghost use Rattle.at_core.specs.Rule.{IsLock};
ghost use Rattle.at_core.specs.Steps.{Moment, given, missed, taken, MayGive};

use crate::lock::Lock;
use crate::stored::Stored;
use crate::world::{MOST_HELD, Pass, World};
use at_view::{View, words};
use atomic_table::Play;

/// What a try to take a lock tells.
pub(crate) struct TakePlay;

impl Play<Option<Stored>, View> for TakePlay {
    ghost use Rattle.at_core.specs.Opened.{opening_of};
    ghost use Rattle.at_core.specs.Plays.{Takes};

    ghost then = { λ st m. Takes (opening_of m.0.who.limits) st m };
}

/// What giving a lock back tells.
pub(crate) struct GivePlay;

impl Play<Option<Stored>, View> for GivePlay {
    ghost use Rattle.at_core.specs.Plays.{Gives};

    ghost then = { Gives };
}

impl Lock {
    /// The number of the lock's word.
    pub(crate) fn word(&self) -> usize
        ensures { result ≡ number_of (lock_word self.now) }
    {
        match self {
            Lock::Types => words::TYPE_LOCK,
            Lock::Row(o) => words::row_lock(*o),
        }
    }

    /// The number of the slot that leaves the table with the lock.
    pub(crate) fn slot(&self) -> u16
        ensures slot { result ≡ slot_of self.now }
        ensures lock { IsLock self.now }
    {
        match self {
            Lock::Types => 0,
            Lock::Row(o) => o.number() + 1,
        }
    }
}

/// Tries to take a lock that the pass doesn't hold, and gives what its word was: 0 where the pass has the lock now, and
/// else the number of the pass that holds it and 1. With the lock its slot comes to hand, with a value that agrees with
/// the history up to now, which the pass has then seen.
pub fn try_lock(world: &World, pass: &mut Pass, lock: Lock) -> u64
    requires of { IsOf pass.old world.now }
    requires out { holds lock (view pass.old) ≡ false }
    requires room { length (hand pass.old) < MOST_HELD }
    ensures same { IsSame pass.old pass.new × IsOf pass.new world.now }
    ensures got { result ≡ 0 → (at : Moment) × (x : stored.Stored) × (view pass.new ≡ taken lock (view pass.old) at)
        × (slot_at pass.new lock ≡ Some (Some x)) × Took (opening_of world.now.limits) lock (view pass.old) at x }
    ensures held { result ≢ 0 → (view pass.new ≡ missed lock (view pass.old) result) × Found (view pass.old) result }
    ensures elsewhere { IsElsewhereSame pass.old pass.new lock }
    ensures longer { result ≡ 0 → length (hand pass.new) ≡ suc (length (hand pass.old)) }
    ensures as_long { result ≢ 0 → length (hand pass.new) ≡ length (hand pass.old) }
{
    let slot = lock.slot();
    let mine = u64::from(pass.number) + 1;
    let found = world
        .table
        .shared
        .compare_exchange::<TakePlay>(&mut pass.seat, lock.word(), 0, mine);
    if found == 0 {
        pass.hand.insert(0, slot);
    }
    found
}

/// Gives back a lock that the pass holds, with the value in its slot. It asks that the value agrees with what the lock
/// kept, and for the lock of the types that their lists go back as they stand in the view. A pass that sleeps for the lock is
/// woken.
pub fn unlock(world: &World, pass: &mut Pass, lock: Lock)
    requires of { IsOf pass.old world.now }
    requires has { (back : TypeLists) × (x : stored.Stored) × (slot_at pass.old lock ≡ Some (Some x))
        × MayGive (opening_of world.now.limits) lock (view pass.old) back x }
    ensures same { IsSame pass.old pass.new × IsOf pass.new world.now }
    ensures given { view pass.new ≡ given lock (view pass.old) }
    ensures gone { slot_at pass.new lock ≡ None }
    ensures elsewhere { IsElsewhereSame pass.old pass.new lock }
    ensures shorter { suc (length (hand pass.new)) ≡ length (hand pass.old) }
    ensures brought { Brought (view pass.old) }
{
    pass.bring(lock.slot());
    world
        .table
        .shared
        .store::<GivePlay>(&mut pass.seat, lock.word(), 0);
    pass.hand.remove(0);
    world.wake(&lock);
}

/// Puts a value into a slot that is in hand, or nothing, and gives what was there.
fn replace(world: &World, pass: &mut Pass, lock: Lock, value: Option<Stored>) -> Option<Stored>
    requires of { IsOf pass.old world.now }
    requires has { is_some (slot_at pass.old lock) ≡ true }
    ensures same { IsSame pass.old pass.new × IsOf pass.new world.now × (view pass.new ≡ view pass.old) }
    ensures before { slot_at pass.old lock ≡ Some result }
    ensures after { slot_at pass.new lock ≡ Some value }
    ensures elsewhere { IsElsewhereSame pass.old pass.new lock }
    ensures as_long { length (hand pass.new) ≡ length (hand pass.old) }
{
    let slot = lock.slot();
    pass.bring(slot);
    world
        .table
        .shared
        .exchange(&mut pass.seat, usize::from(slot), value)
}

/// Takes the value out of the slot of a lock that the pass holds, to work on it. The lock can't be given back before a
/// value is in again.
pub fn slot_out(world: &World, pass: &mut Pass, lock: Lock) -> Stored
    requires of { IsOf pass.old world.now }
    requires has { (x : stored.Stored) × (slot_at pass.old lock ≡ Some (Some x)) }
    ensures same { IsSame pass.old pass.new × IsOf pass.new world.now × (view pass.new ≡ view pass.old) }
    ensures value { slot_at pass.old lock ≡ Some (Some result) }
    ensures out { slot_at pass.new lock ≡ Some None }
    ensures elsewhere { IsElsewhereSame pass.old pass.new lock }
    ensures as_long { length (hand pass.new) ≡ length (hand pass.old) }
{
    replace(world, pass, lock, None).unwrap()
}

/// Puts a value into the slot of a lock that the pass holds, from which it was taken.
pub fn slot_in(world: &World, pass: &mut Pass, lock: Lock, value: Stored)
    requires of { IsOf pass.old world.now }
    requires out { slot_at pass.old lock ≡ Some None }
    ensures same { IsSame pass.old pass.new × IsOf pass.new world.now × (view pass.new ≡ view pass.old) }
    ensures within { slot_at pass.new lock ≡ Some (Some value) }
    ensures elsewhere { IsElsewhereSame pass.old pass.new lock }
    ensures as_long { length (hand pass.new) ≡ length (hand pass.old) }
{
    replace(world, pass, lock, Some(value));
}
