//! The shared table, and the passes that step on it.
ghost use Rattle.std.specs.Prelude.{ℕ, ◌≡◌, ◌<◌, ◌≤◌, true, suc, map, is_some, length};
ghost use Rattle.at_value.specs.Widths.{objects};
ghost use Rattle.at_view.specs.Counts.{passes};
ghost use Rattle.at_view.specs.Words.{table_words};
ghost use Rattle.at_core.specs.declared.lock.Lock as lock;
ghost use Rattle.at_core.specs.Locks.{holds, slot_of};
ghost use Rattle.at_core.specs.Opened.{AreGood};
ghost use Rattle.at_core.specs.Reads.{in_hand, slot_number};
ghost use Rattle.at_core.specs.Rule.{IsLock};
ghost use Rattle.at_types.specs.Tags.{times};

use crate::note::{MOST_NOTES, Note};
use crate::stored::Stored;
use arrayvec::ArrayVec;
use at_value::Limits;
use at_view::View;
use atomic_table::{Seat, Table, TableRule};
use std::alloc::Global;
use std::sync::atomic::AtomicU64;

/// How many locks a pass may hold at once. Twenty sections of two rows each and the lock of the types are forty-one.
pub const MOST_HELD: usize = 64;

/// The rule of the table.
pub(crate) struct Law;

impl TableRule<Option<Stored>, View, Limits> for Law {
    ghost use Rattle.at_view.specs.Views.{first_view};
    ghost use Rattle.at_core.specs.Opened.{opening_of};
    ghost use Rattle.at_core.specs.Rule.{Base};

    ghost holds = { λ limits s. Base (opening_of limits) limits s };

    ghost first = { first_view };
}

/// The shared table with its rule.
pub(crate) type Board = Table<Option<Stored>, View, Limits, Law, Global>;

/// A world that passes share.
#[derive(Drop)]
pub struct World {
    pub(crate) table: Board,
    pub(crate) limits: Limits,
    /// For each lock, in the order of their slots, how many passes sleep until it is given back, or are about to.
    pub(crate) sleepers: Vec<AtomicU64>,
    ghost sized: { (table.shared.table_id.words ≡ table_words) × (table.shared.table_id.slots ≡ suc objects) },
    ghost limited: { table.shared.key ≡ limits },
    ghost good: { AreGood limits },
    ghost counted: { length sleepers.items ≡ suc objects },
}

/// A pass: what one thread steps with. Contracts see what it knows, its view.
#[derive(Drop)]
pub struct Pass {
    pub(crate) seat: Seat<Option<Stored>, View>,
    pub(crate) number: u8,
    pub(crate) online: bool,
    /// The numbers of the slots in hand, the front first.
    pub(crate) hand: ArrayVec<u16, MOST_HELD>,
    /// Its critical sections, the innermost last.
    pub(crate) notes: ArrayVec<Note, MOST_NOTES>,
    ghost live: { seat.me.0.who.live ≡ true },
    ghost numbered: { (seat.me.0.who.number ≡ number) × (number < passes) },
    ghost turned: { seat.me.0.tags.online ≡ online },
    ghost listed: { hand.items ≡ map slot_number seat.me.1 },
    ghost once: { (k : ℕ) → times k (map slot_number seat.me.1) ≤ 1 },
    ghost within: { (k : ℕ) → 0 < times k (map slot_number seat.me.1) → k < suc objects },
    ghost right: { (l : lock.Lock) → IsLock l → is_some (in_hand (slot_of l) seat.me.1) ≡ holds l seat.me.0 },
}
