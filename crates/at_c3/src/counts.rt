//! How often numbers were counted.
ghost use Rattle.std.specs.Prelude.{◌≡◌, ◌==◌, ◌<◌, ◌≤◌, ◌+◌, ◌++◌, ◌∷◌, [], ℕ, List, not, length, slice_index, All};
ghost use Rattle.std.specs.Prelude.{IsOk, OnOk};
ghost use Rattle.smallvec.specs.SmallVec.{small_vec_len};
ghost use Rattle.at_c3.specs.Counts.{AreCountsOf};
ghost use Rattle.at_c3.specs.Room.{count_room};

use smallvec::SmallVec;
use std::alloc::{AllocError, Global};

/// Numbers below this one are counted without memory.
const ROOM: usize = 32;

/// How often each number was counted, by number; one past the end was never counted.
#[derive(Drop)]
pub(crate) struct Counts {
    counts: SmallVec<u32, ROOM, Global>,
    ghost room: { count_room ≤ counts.capacity },
}

impl Counts {
    pub(crate) fn new(alloc: Global) -> Self
        ensures { AreCountsOf result.counts.items [] }
    {
        Counts {
            counts: SmallVec::new(alloc),
        }
    }

    pub(crate) fn has(&self, number: u16) -> bool
        ensures { result ≡ not (slice_index self.now.counts.items number == 0) }
    {
        self.counts
            .get(number as usize)
            .is_some_and(|count| *count != 0)
    }

    fn reach(&mut self, number: u16) -> Result<(), AllocError>
        ensures reaches { OnOk result (number < small_vec_len self.new.counts) }
        ensures room { number < count_room → IsOk result }
        ensures same { (n : ℕ) → slice_index self.new.counts.items n ≡ slice_index self.old.counts.items n }
    {
        while self.counts.len() <= number as usize {
            self.counts.push(0)?;
        }
        Ok(())
    }

    /// A count that would pass 32 bits is answered as out of memory.
    pub(crate) fn add(&mut self, number: u16) -> Result<(), AllocError>
        ensures counted { OnOk result ((before : List ℕ) → AreCountsOf self.old.counts.items before
            → AreCountsOf self.new.counts.items (before ++ number ∷ [])) }
        ensures room { (before : List ℕ) → AreCountsOf self.old.counts.items before
            → number < count_room → length before < u32.MAX → IsOk result }
    {
        self.reach(number)?;
        let index = number as usize;
        let Some(more) = self.counts[index].checked_add(1) else {
            return Err(AllocError);
        };
        self.counts[index] = more;
        Ok(())
    }

    pub(crate) fn add_all(&mut self, numbers: &[u16]) -> Result<(), AllocError>
        ensures counted { OnOk result ((before : List ℕ) → AreCountsOf self.old.counts.items before
            → AreCountsOf self.new.counts.items (before ++ numbers.now)) }
        ensures room { (before : List ℕ) → AreCountsOf self.old.counts.items before
            → All (λ n. n < count_room) numbers.now → length before + length numbers.now ≤ u32.MAX → IsOk result }
    {
        for number in numbers {
            self.add(*number)?;
        }
        Ok(())
    }

    pub(crate) fn remove(&mut self, number: u16)
        requires { 0 < slice_index self.old.counts.items number }
        ensures { (others : List ℕ) → AreCountsOf self.old.counts.items (number ∷ others)
            → AreCountsOf self.new.counts.items others }
    {
        self.counts[number as usize] -= 1;
    }
}
