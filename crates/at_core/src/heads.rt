//! The steps on the heads of objects and on their inline values.
ghost use Rattle.std.specs.Prelude.{ℕ, ◌≡◌, ◌<◌, List};
ghost use Rattle.at_value.specs.declared.operation.Op as ops;
ghost use Rattle.at_view.specs.Counts.{inline_values};
ghost use Rattle.at_core.specs.HeadPlays.{SawCell, SawHead};
ghost use Rattle.at_core.specs.HeadSteps.{head_loaded, inline_loaded, MayOpen, head_opened, MayClose, head_closed};
ghost use Rattle.at_core.specs.HeadSteps.{MayStore, inline_stored};
ghost use Rattle.at_core.specs.Opened.{opening_of};
ghost use Rattle.at_core.specs.Passes.{view, IsOf, IsSame, HasSameHand};
ghost use Rattle.at_core.specs.Steps.{copied_heads};

use crate::stored::Stored;
use crate::world::{Pass, World};
use at_value::Obj;
use at_view::{View, words};
use atomic_table::Play;

/// What a load of a head tells.
pub(crate) struct HeadPlay;

impl Play<Option<Stored>, View> for HeadPlay {
    ghost use Rattle.at_core.specs.HeadPlays.{LoadsHead};
    ghost use Rattle.at_core.specs.Opened.{opening_of};

    ghost then = { λ st m. LoadsHead (opening_of m.0.who.limits) st m };
}

/// What a load of an inline value tells.
pub(crate) struct InlinePlay;

impl Play<Option<Stored>, View> for InlinePlay {
    ghost use Rattle.at_core.specs.HeadPlays.{LoadsInline};

    ghost then = { LoadsInline };
}

/// What opening a head tells.
pub(crate) struct OpenPlay;

impl Play<Option<Stored>, View> for OpenPlay {
    ghost use Rattle.at_core.specs.HeadPlays.{OpensHead};

    ghost then = { OpensHead };
}

/// What closing a head tells.
pub(crate) struct ClosePlay;

impl Play<Option<Stored>, View> for ClosePlay {
    ghost use Rattle.at_core.specs.HeadPlays.{ClosesHead};

    ghost then = { ClosesHead };
}

/// What a store of an inline value tells.
pub(crate) struct InlineStorePlay;

impl Play<Option<Stored>, View> for InlineStorePlay {
    ghost use Rattle.at_core.specs.HeadPlays.{StoresInline};

    ghost then = { StoresInline };
}

/// Loads the head of an object, made or not. The pass keeps it as a look, with the history of this moment. A head that is whole says
/// what its object is then; and each earlier look at the same object that found the same word says what it says of all that the pass
/// has seen since.
pub fn load_head(world: &World, pass: &mut Pass, o: Obj) -> u64
    requires of { IsOf pass.old world.now }
    ensures same { IsSame pass.old pass.new × IsOf pass.new world.now × HasSameHand pass.old pass.new }
    ensures loaded { (at : List ops.Op) × (keys_are : ℕ → ℕ → ℕ) × (view pass.new ≡ head_loaded (view pass.old) o at result)
        × SawHead (opening_of world.now.limits) (view pass.old) o result at keys_are }
{
    world
        .table
        .shared
        .load::<HeadPlay>(&mut pass.seat, words::head(o))
}

/// Loads inline value i, below 8, of an object: 0 or the word of a value. It joins each look that the pass has, with the key that its
/// index has then in the class of the look's head.
pub fn load_inline(world: &World, pass: &mut Pass, o: Obj, i: u8) -> u64
    requires of { IsOf pass.old world.now }
    requires index { i < inline_values }
    ensures same { IsSame pass.old pass.new × IsOf pass.new world.now × HasSameHand pass.old pass.new }
    ensures loaded { (keys_are : ℕ → ℕ → ℕ) × (view pass.new ≡ inline_loaded (view pass.old) o i keys_are result)
        × SawCell (view pass.old) o i result keys_are }
{
    world
        .table
        .shared
        .load::<InlinePlay>(&mut pass.seat, words::inline_value(o, i))
}

/// Opens the head of an object, made or not, which the caller tells: its sequence is one more from then on, and odd. It
/// asks for the row of the object, and that the head is whole and its sequence below the limit.
pub fn open_head(world: &World, pass: &mut Pass, o: Obj, head: u64)
    requires of { IsOf pass.old world.now }
    requires may { MayOpen (view pass.old) o × (head ≡ copied_heads (view pass.old) o) }
    ensures same { IsSame pass.old pass.new × IsOf pass.new world.now × HasSameHand pass.old pass.new }
    ensures opened { view pass.new ≡ head_opened (view pass.old) o }
{
    world
        .table
        .shared
        .store::<OpenPlay>(&mut pass.seat, words::head(o), head + 1);
}

/// Closes the head of an object with a word whose sequence is one above that of the open head, and even. It asks for the
/// row of the object, and that the word, with the keys that the pass knows and the inline values, says what the object is
/// after what the lock of the row has kept. An object whose values stand in a dictionary keeps that layout; the row of a
/// dictionary is the object's own, or one that another object has whose row the pass holds.
pub fn close_head(world: &World, pass: &mut Pass, o: Obj, word: u64)
    requires of { IsOf pass.old world.now }
    requires may { MayClose (opening_of world.now.limits) (view pass.old) o word }
    ensures same { IsSame pass.old pass.new × IsOf pass.new world.now × HasSameHand pass.old pass.new }
    ensures closed { view pass.new ≡ head_closed (view pass.old) o word }
{
    world
        .table
        .shared
        .store::<ClosePlay>(&mut pass.seat, words::head(o), word);
}

/// Stores inline value i, below 8, of an object: 0 or the word of a value. It asks for the row of the object with its
/// head open.
pub fn store_inline(world: &World, pass: &mut Pass, o: Obj, i: u8, word: u64)
    requires of { IsOf pass.old world.now }
    requires may { MayStore (view pass.old) o i word }
    ensures same { IsSame pass.old pass.new × IsOf pass.new world.now × HasSameHand pass.old pass.new }
    ensures stored { view pass.new ≡ inline_stored (view pass.old) o i word }
{
    world
        .table
        .shared
        .store::<InlineStorePlay>(&mut pass.seat, words::inline_value(o, i), word);
}
