//! The count of writes, and the write that a pass intends.
ghost use Rattle.std.specs.Prelude.{◌≡◌, ◌<◌, ◌+◌, ◌++◌, ◌∷◌, [], suc, List, length, IfOk, IfErr, IsOk};
ghost use Rattle.at_value.specs.declared.operation.Op as ops;
ghost use Rattle.at_value.specs.Packing.{words_of};
ghost use Rattle.at_model.specs.History.{IsProper};
ghost use Rattle.at_view.specs.declared.mark.StepKind.TheVariants as kinds;
ghost use Rattle.at_view.specs.Counts.{passes};
ghost use Rattle.at_core.specs.Opened.{opening_of};
ghost use Rattle.at_core.specs.Passes.{view, IsOf, IsSame, HasSameHand};
ghost use Rattle.at_core.specs.PlacePlays.{Saw, AreEarlier};
ghost use Rattle.at_core.specs.Plays.{IsAlone};
ghost use Rattle.at_core.specs.PlaceSteps.{place_loaded, written, unwritten, Intends, MayCommit, MayCommitIf};
ghost use Rattle.at_place.specs.Intending.{intending, DoesTheSame};

use at_core::places::{self, load_place, store_intent};
use at_core::{Pass, World};
use at_value::{Op, Place, pack};
use thiserror::Error;

/// Other passes wrote meanwhile: how many writes there are.
#[derive(Clone, Copy, Debug, PartialEq, Eq, Error)]
#[error("there are {seen} writes by now")]
pub struct Moved {
    pub seen: u64,
}

/// Loads the place: how many writes there are. The pass has then seen the history up to this moment, in which each lock that it
/// holds has kept what it protects, and each head that it loaded is no later.
pub fn now(world: &World, pass: &mut Pass) -> Place
    requires of { IsOf pass.old world.now }
    ensures same { IsSame pass.old pass.new × IsOf pass.new world.now × HasSameHand pass.old pass.new }
    ensures loaded { (at : List ops.Op) × (length at ≡ result.0) × (view pass.new ≡ place_loaded (view pass.old) at)
        × Saw (opening_of world.now.limits) (view pass.old) at × AreEarlier (view pass.old).looks at }
{
    Place(load_place(world, pass))
}

/// Stores the four words of an operation, which is then the one that the pass intends.
pub fn intend(world: &World, pass: &mut Pass, op: &Op)
    requires of { IsOf pass.old world.now }
    ensures same { IsSame pass.old pass.new × IsOf pass.new world.now × HasSameHand pass.old pass.new }
    ensures stored { view pass.new ≡ intending (view pass.old) (words_of op.now) }
    ensures intends { Intends (view pass.new) op.now }
{
    let words = pack(op);
    store_intent(world, pass, 0, words[0]);
    store_intent(world, pass, 1, words[1]);
    store_intent(world, pass, 2, words[2]);
    store_intent(world, pass, 3, words[3]);
}

/// The intended operation takes the next place, which is the answer. It asks that the operation is a write at what the pass has
/// seen, for the lock of the types and the rows of the operation with their heads as the write needs them, and that a place below
/// the limit was loaded since the last write. Whatever other passes wrote meanwhile, the operation does what it would have done
/// at what the pass had seen.
pub fn commit(world: &World, pass: &mut Pass) -> Place
    requires of { IsOf pass.old world.now }
    requires may { (operation : ops.Op) × MayCommit (opening_of world.now.limits) (view pass.old) operation }
    ensures same { IsSame pass.old pass.new × IsOf pass.new world.now × HasSameHand pass.old pass.new }
    ensures written { (operation : ops.Op) → Intends (view pass.old) operation → (at : List ops.Op) × (length at + 1 ≡ result.0)
        × (view pass.new ≡ written kinds.Commit (view pass.old) at operation)
        × DoesTheSame (opening_of world.now.limits) (view pass.old) at operation }
    ensures below { result.0 < (view pass.old).who.limits.place_max + passes + 1 }
{
    Place(places::commit(world, pass) + 1)
}

/// The intended operation takes the place after this one, which is that of all writes that the pass has seen, if no other pass has
/// written since. It asks what a commit asks but for the lock of the types, that the operation is one which needs no lock of the
/// types, and that the place is below the limit. `Moved` comes exactly where the exchange found another number, and nothing is
/// written then; it never comes to a first pass without children.
pub fn commit_if(world: &World, pass: &mut Pass, seen: Place) -> Result<Place, Moved>
    requires of { IsOf pass.old world.now }
    requires may { (operation : ops.Op) × MayCommitIf (opening_of world.now.limits) (view pass.old) operation }
    requires told { seen.0 ≡ length (view pass.old).history.seen }
    ensures same { IsSame pass.old pass.new × IsOf pass.new world.now × HasSameHand pass.old pass.new }
    ensures place { IfOk result (λ place. place.0 ≡ suc seen.0) }
    ensures written { IfOk result (λ place. (operation : ops.Op) → Intends (view pass.old) operation
        → (view pass.new ≡ written kinds.CommitIf (view pass.old) (view pass.old).history.seen operation)
        × Saw (opening_of world.now.limits) (view pass.old) (view pass.old).history.seen
        × IsProper (opening_of world.now.limits) ((view pass.old).history.seen ++ operation ∷ [])) }
    ensures moved { IfErr result (λ moved. (view pass.new ≡ unwritten (view pass.old) moved.seen) × (seen.0 < moved.seen)) }
    ensures alone { IsAlone (view pass.old) → IsOk result }
{
    let found = places::commit_if(world, pass, seen.0);
    if found == seen.0 {
        Ok(Place(found + 1))
    } else {
        Err(Moved { seen: found })
    }
}
