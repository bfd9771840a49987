//! A world is opened.
ghost use Rattle.std.specs.Prelude.{◌≡◌, ◌≤◌, ◌<◌, ◌+◌, ◌%◌, ◌^◌, ◌↔◌, ℕ, IsTrue, IfOk, IfErr, [], ◌∷◌, Some, length};
ghost use Rattle.at_types.specs.declared.types.Types as types;
ghost use Rattle.at_view.specs.Views.{first_view};
ghost use Rattle.at_core.specs.Opened.{opening_of, AreGood};
ghost use Rattle.at_core.specs.Passes.{notes, view, hand, IsOf};
ghost use Rattle.at_core.specs.Rule.{TypesAgree};
ghost use Rattle.at_core.specs.Runs.{opening_words, opening_lists, AreOpeningSlots};
ghost use Rattle.at_core.specs.declared.open_world.OpenFault.TheVariants as faults;

use crate::stored::Stored;
use crate::waiting::no_sleepers;
use crate::world::{Board, Pass, World};
use arrayvec::ArrayVec;
use at_dict::Body;
use at_types::Types;
use at_value::{Limits, Obj};
use at_view::words::{GLOBAL_SEQUENCE, TABLE_WORDS};
use std::alloc::{AllocError, Global};
use thiserror::Error;

/// Why no world was opened.
#[derive(Clone, Copy, Debug, PartialEq, Eq, Error)]
pub enum OpenFault {
    /// There was no memory for the table.
    #[error("out of memory")]
    NoMemory,
    /// A limit is out of its range.
    #[error("a limit is out of its range")]
    BadLimits,
}

impl From<AllocError> for OpenFault {
    ghost from_gives = { λ _ fault. fault ≡ faults.NoMemory };

    fn from(_: AllocError) -> OpenFault {
        OpenFault::NoMemory
    }
}

/// Whether the limits are in their ranges.
fn are_good(limits: &Limits) -> bool
    ensures { IsTrue result ↔ AreGood limits.now }
{
    let widest = Limits::program();
    limits.place_max <= widest.place_max
        && limits.head_max % 2 == 0
        && 0 < limits.head_max
        && limits.head_max <= widest.head_max
        && 0 < limits.tags
        && limits.tags <= widest.tags
}

/// The words at first: 0 but for the global sequence, and for that of the first pass, which is online.
fn first_words(alloc: Global) -> Result<Vec<u64>, AllocError>
    ensures { IfOk result (λ words. words.items ≡ opening_words) }
{
    let mut words = vec![in alloc; 0; TABLE_WORDS]?;
    words[GLOBAL_SEQUENCE] = 1;
    words[GLOBAL_SEQUENCE + 1] = 1;
    Ok(words)
}

/// The types at first: number 0 is that of the first pass.
fn first_types(alloc: Global, limits: &Limits) -> Result<Types, AllocError>
    ensures { IfOk result (TypesAgree limits.now.tags (opening_of limits.now) (opening_lists limits.now)) }
{
    let mut types = Types::new(alloc, limits.tags)?;
    types.take_number();
    Ok(types)
}

/// The slots at first: the types, and an empty dictionary for each row.
fn first_slots(alloc: Global, limits: &Limits) -> Result<Vec<Option<Stored>>, AllocError>
    ensures { IfOk result (λ slots. AreOpeningSlots (opening_of limits.now) limits.now slots.items) }
{
    let mut slots = Vec::with_capacity(alloc, Obj::COUNT as usize + 1)?;
    slots.push(Some(Stored::Types(Box::new(alloc, first_types(alloc, limits)?)?)))?;
    for _ in 0..Obj::COUNT {
        slots.push(Some(Stored::Body(Body::new(alloc))))?;
    }
    Ok(slots)
}

impl World {
    /// A world with the class `object` alone, and its first pass, which has number 0, is online, holds no lock and has no notes. Refused
    /// with `BadLimits` exactly where a limit is out of its range: `place_max` above 4,294,967,295, `head_max` odd, 0 or
    /// above 1,099,511,627,774, `tags` 0 or above 1,023. The table, the pool of tags, limbo and the lists are taken here.
    pub fn open(alloc: Global, limits: Limits) -> Result<(World, Pass), OpenFault>
        ensures ok { IfOk result (λ r. IsOf r.1 r.0 × (r.0.limits ≡ limits) × (view r.1 ≡ first_view limits) × (hand r.1 ≡ [])) }
        ensures noted { IfOk result (λ r. notes r.1 ≡ []) }
        ensures good { IfOk result (λ r. AreGood limits) }
        ensures bad { IfErr result (λ fault. (fault ≡ faults.BadLimits) ↔ (AreGood limits → ⊥)) }
    {
        if !are_good(&limits) {
            return Err(OpenFault::BadLimits);
        }
        let words = first_words(alloc)?;
        let slots = first_slots(alloc, &limits)?;
        let sleepers = no_sleepers(alloc)?;
        let Ok((table, seat)) = Board::new(alloc, &words, slots, &limits) else {
            return Err(OpenFault::NoMemory);
        };
        let pass = Pass {
            seat,
            number: 0,
            online: true,
            hand: ArrayVec::new(),
            notes: ArrayVec::new(),
        };
        let world = World {
            table,
            limits,
            sleepers,
        };
        Ok((world, pass))
    }

    /// The limits that `open` was given.
    pub fn limits(&self) -> Limits
        ensures { result ≡ self.now.limits }
    {
        self.limits
    }
}
