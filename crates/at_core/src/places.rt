//! The steps on the count of writes: the place is loaded, an operation is intended, and a write takes whatever place
//! comes next, or one place and no other.
ghost use Rattle.std.specs.Prelude.{◌≡◌, ◌≢◌, ◌<◌, ◌+◌, ◌++◌, ◌∷◌, [], List, length};
ghost use Rattle.at_value.specs.declared.operation.Op as ops;
ghost use Rattle.at_model.specs.History.{replay, IsProper};
ghost use Rattle.at_view.specs.declared.mark.StepKind.TheVariants as kinds;
ghost use Rattle.at_view.specs.Counts.{intent_words, passes};
ghost use Rattle.at_core.specs.Opened.{opening_of};
ghost use Rattle.at_core.specs.Passes.{view, IsOf, IsSame, HasSameHand};
ghost use Rattle.at_core.specs.PlacePlays.{Saw, AreEarlier};
ghost use Rattle.at_core.specs.Plays.{IsAlone};
ghost use Rattle.at_core.specs.PlaceSteps.{place_loaded, intent_stored, written, unwritten, Intends, MayCommit, MayCommitIf};
ghost use Rattle.at_core.specs.Writes.{IsSameAt};

use crate::stored::Stored;
use crate::world::{Pass, World};
use at_view::{View, words};
use atomic_table::Play;

/// What a load of the place tells.
pub(crate) struct PlacePlay;

impl Play<Option<Stored>, View> for PlacePlay {
    ghost use Rattle.at_core.specs.Opened.{opening_of};
    ghost use Rattle.at_core.specs.PlacePlays.{LoadsPlace};

    ghost then = { λ st m. LoadsPlace (opening_of m.0.who.limits) st m };
}

/// What a store of an intended word tells.
pub(crate) struct IntentPlay;

impl Play<Option<Stored>, View> for IntentPlay {
    ghost use Rattle.at_core.specs.PlacePlays.{StoresIntent};

    ghost then = { StoresIntent };
}

/// What a commit tells.
pub(crate) struct CommitPlay;

impl Play<Option<Stored>, View> for CommitPlay {
    ghost use Rattle.at_core.specs.Opened.{opening_of};
    ghost use Rattle.at_core.specs.PlacePlays.{Commits};

    ghost then = { λ st m. Commits (opening_of m.0.who.limits) st m };
}

/// What a commit at one place and no other tells.
pub(crate) struct CommitIfPlay;

impl Play<Option<Stored>, View> for CommitIfPlay {
    ghost use Rattle.at_core.specs.Opened.{opening_of};
    ghost use Rattle.at_core.specs.PlacePlays.{CommitsIf};

    ghost then = { λ st m. CommitsIf (opening_of m.0.who.limits) st m };
}

/// Loads the place: how many writes there are. The pass has then seen the history up to this moment, in which each lock that it
/// holds has kept what it protects, and each head that it loaded is no later.
pub fn load_place(world: &World, pass: &mut Pass) -> u64
    requires of { IsOf pass.old world.now }
    ensures same { IsSame pass.old pass.new × IsOf pass.new world.now × HasSameHand pass.old pass.new }
    ensures loaded { (at : List ops.Op) × (length at ≡ result) × (view pass.new ≡ place_loaded (view pass.old) at)
        × Saw (opening_of world.now.limits) (view pass.old) at × AreEarlier (view pass.old).looks at }
{
    world
        .table
        .shared
        .load::<PlacePlay>(&mut pass.seat, words::PLACE)
}

/// Stores word j, below 4, of the operation that the pass intends.
pub fn store_intent(world: &World, pass: &mut Pass, j: u8, word: u64)
    requires of { IsOf pass.old world.now }
    requires index { j < intent_words }
    ensures same { IsSame pass.old pass.new × IsOf pass.new world.now × HasSameHand pass.old pass.new }
    ensures stored { view pass.new ≡ intent_stored (view pass.old) j word }
{
    world
        .table
        .shared
        .store::<IntentPlay>(&mut pass.seat, words::intent(pass.number, j), word);
}

/// The intended operation takes the next place: the answer is how many writes there were before. It asks that the operation is a
/// write at what the pass has seen, for the lock of the types and the rows of the operation with their heads as the write
/// needs them, and that a place below the limit was loaded since the last write. Whatever other passes wrote meanwhile, the
/// operation does what it would have done at what the pass had seen.
pub fn commit(world: &World, pass: &mut Pass) -> u64
    requires of { IsOf pass.old world.now }
    requires may { (operation : ops.Op) × MayCommit (opening_of world.now.limits) (view pass.old) operation }
    ensures same { IsSame pass.old pass.new × IsOf pass.new world.now × HasSameHand pass.old pass.new }
    ensures written { (operation : ops.Op) → Intends (view pass.old) operation → (at : List ops.Op) × (length at ≡ result)
        × (view pass.new ≡ written kinds.Commit (view pass.old) at operation) × Saw (opening_of world.now.limits) (view pass.old) at
        × (result < (view pass.old).who.limits.place_max + passes)
        × IsProper (opening_of world.now.limits) (at ++ operation ∷ [])
        × IsSameAt (replay (opening_of world.now.limits) (view pass.old).history.seen) (replay (opening_of world.now.limits) at) operation }
{
    world
        .table
        .shared
        .fetch_add::<CommitPlay>(&mut pass.seat, words::PLACE, 1)
}

/// The intended operation takes the place after all writes that the pass has seen, whose number the caller tells, if
/// that is the next one. The answer is how many writes there were before: where it is another number, others wrote
/// meanwhile, and nothing is written. It asks what a commit does but for the lock of the types, that the operation is
/// one which needs no lock of the types, and that the pass has seen fewer writes than the limit.
pub fn commit_if(world: &World, pass: &mut Pass, seen: u64) -> u64
    requires of { IsOf pass.old world.now }
    requires may { (operation : ops.Op) × MayCommitIf (opening_of world.now.limits) (view pass.old) operation }
    requires told { seen ≡ length (view pass.old).history.seen }
    ensures same { IsSame pass.old pass.new × IsOf pass.new world.now × HasSameHand pass.old pass.new }
    ensures written { result ≡ seen → (operation : ops.Op) → Intends (view pass.old) operation
        → (view pass.new ≡ written kinds.CommitIf (view pass.old) (view pass.old).history.seen operation)
        × Saw (opening_of world.now.limits) (view pass.old) (view pass.old).history.seen
        × IsProper (opening_of world.now.limits) ((view pass.old).history.seen ++ operation ∷ []) }
    ensures below { result ≡ seen → result < world.now.limits.place_max }
    ensures unwritten { result ≢ seen → (view pass.new ≡ unwritten (view pass.old) result) × (seen < result) }
    ensures alone { IsAlone (view pass.old) → result ≡ seen }
{
    world
        .table
        .shared
        .compare_exchange::<CommitIfPlay>(&mut pass.seat, words::PLACE, seen, seen + 1)
}
