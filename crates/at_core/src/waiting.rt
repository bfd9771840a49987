//! Waiting for a lock. A pass that finds a lock held looks at its word for a while, and then sleeps. Beside the table each
//! lock has a count of those that sleep or are about to, so that a lock is given back without a wake where there are none.
//! No step reads a count, and no clause speaks of one: a pass that waits learns nothing but by its next try.
//!
//! A pass counts itself before it sleeps, and no longer once it is awake. So who gives the lock back and finds nobody
//! counted did so before the count: then the sleep sees that the word has changed, or that another pass has the lock, which
//! finds the count when it gives the lock back in turn.
ghost use Rattle.std.specs.Prelude.{◌≡◌, ◌<◌, IfOk, length, suc};
ghost use Rattle.at_value.specs.Widths.{objects};
ghost use Rattle.at_view.specs.Counts.{passes};
ghost use Rattle.at_core.specs.Locks.{HoldsNone};
ghost use Rattle.at_core.specs.Passes.{view};

use crate::lock::Lock;
use crate::world::{Pass, World};
use at_value::Obj;
use std::alloc::{AllocError, Global};
use std::hint;
use std::sync::Wait;
use std::sync::atomic::{AtomicU64, Ordering};

/// How often a pass looks at the word of a lock before it sleeps.
const LOOKS: u32 = 400;

/// A count for each lock, in the order of their slots. Nobody sleeps at first.
pub(crate) fn no_sleepers(alloc: Global) -> Result<Vec<AtomicU64>, AllocError>
    ensures { IfOk result (λ counts. length counts.items ≡ suc objects) }
{
    let mut counts = Vec::with_capacity(alloc, Obj::COUNT as usize + 1)?;
    for _ in 0..Obj::COUNT as usize + 1 {
        counts.push(AtomicU64::new(0))?;
    }
    Ok(counts)
}

impl World {
    /// Whether the word of a lock changes from this number while it is looked at so many times.
    fn changes(&self, word: usize, held: u64) -> bool
        requires { word < self.now.table.shared.table_id.words }
    {
        for _ in 0..LOOKS {
            if self.table.shared.peek(word) != held {
                return true;
            }
            hint::spin_loop();
        }
        false
    }

    /// Waits while the pass of the number `holder`, below 64, has the lock, or for some of that time: it may return for no
    /// reason. The pass that waits holds no lock. Who comes back goes on trying this lock until it has it, since the wake
    /// was for it alone.
    pub fn wait_for<R: Wait>(&self, rt: &R, pass: &Pass, lock: &Lock, holder: u8)
        requires free { HoldsNone (view pass.now) }
        requires number { holder < passes }
    {
        let sleepers = &self.sleepers[usize::from(lock.slot())];
        let word = lock.word();
        let held = u32::from(holder) + 1;
        if self.changes(word, u64::from(held)) {
            return;
        }
        sleepers.fetch_add(1, Ordering::SeqCst);
        self.table.shared.park(rt, word, held);
        sleepers.fetch_sub(1, Ordering::SeqCst);
    }

    /// Wakes a pass that sleeps until this lock is given back, if there is one: after each give.
    pub(crate) fn wake(&self, lock: &Lock) {
        if self.sleepers[usize::from(lock.slot())].load(Ordering::SeqCst) > 0 {
            self.table.shared.wake_one(lock.word());
        }
    }
}
