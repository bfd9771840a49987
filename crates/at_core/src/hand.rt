//! The order of the slots that a pass has in hand. Only the front one can be read or given back.
ghost use Rattle.std.specs.Prelude.{◌≡◌, ℕ, List, [], ◌∷◌, ◌++◌, ◌≤◌, ◌==◌, true, take, drop, length, is_some, position, IfSome, IfNone};
ghost use Rattle.std.specs.List.{list_any};
ghost use Rattle.at_value.specs.Widths.{objects};
ghost use Rattle.at_core.specs.Locks.{holds, slot_of};
ghost use Rattle.at_core.specs.Passes.{view, hand, IsSame};
ghost use Rattle.at_core.specs.Reads.{in_hand};
ghost use Rattle.at_core.specs.Rule.{Slot, IsLock};

use crate::lock::Lock;
use crate::stored::Stored;
use crate::world::Pass;
use at_value::Obj;
use at_view::View;
use atomic_table::Seat;

/// Where a slot stands.
fn place_of(slots: &[u16], slot: u16) -> Option<usize>
    ensures { result ≡ position (λ n. n == slot) slots.now }
{
    slots.iter().position(|number| *number == slot)
}

/// Whether a slot is among these.
fn has_slot(slots: &[u16], slot: u16) -> bool
    ensures { result ≡ list_any (λ n. n == slot) slots.now }
{
    slots.iter().any(|number| *number == slot)
}

/// So many slots, from the front on, go behind the others.
fn turn_by(seat: &mut Seat<Option<Stored>, View>, count: usize)
    requires { count ≤ length seat.old.me.1 }
    ensures same { (seat.new.table_id ≡ seat.old.table_id) × (seat.new.id ≡ seat.old.id) }
    ensures turned { seat.new.me ≡ (seat.old.me.0, drop count seat.old.me.1 ++ take count seat.old.me.1) }
{
    for _ in 0..count {
        seat.turn();
    }
}

/// The lock with which a slot leaves the table.
fn lock_of(slot: u16) -> Lock
    requires { slot ≤ objects }
    ensures slot { slot_of result ≡ slot }
    ensures lock { IsLock result }
{
    match slot {
        0 => Lock::Types,
        row => Lock::Row(Obj::new(row - 1).unwrap()),
    }
}

impl Pass {
    /// Whether the pass holds the lock.
    pub fn has_lock(&self, lock: &Lock) -> bool
        ensures { result ≡ holds lock.now (view self.now) }
    {
        has_slot(&self.hand, lock.slot())
    }

    /// A lock that the pass holds: that of the slot which it had at hand last. `None` exactly where it has nothing in hand.
    pub fn front_lock(&self) -> Option<Lock>
        ensures some { IfSome result (λ l. holds l (view self.now) ≡ true) }
        ensures none { IfNone result (hand self.now ≡ []) }
    {
        let slot = self.hand.as_slice().first()?;
        Some(lock_of(*slot))
    }

    /// Brings a slot that is in hand to the front.
    pub(crate) fn bring(&mut self, slot: u16)
        requires { is_some (in_hand slot (hand self.old)) ≡ true }
        ensures same { IsSame self.old self.new × (view self.new ≡ view self.old) }
        ensures front { (x : Slot) × (others : List (ℕ × Slot)) × (hand self.new ≡ (slot, x) ∷ others) }
        ensures slots { (k : ℕ) → in_hand k (hand self.new) ≡ in_hand k (hand self.old) }
        ensures as_long { length (hand self.new) ≡ length (hand self.old) }
    {
        if let Some(place) = place_of(&self.hand, slot) {
            turn_by(&mut self.seat, place);
            self.hand.rotate_left(place);
        }
    }
}
