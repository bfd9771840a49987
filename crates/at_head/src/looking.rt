//! Heads are loaded.
ghost use Rattle.std.specs.Prelude.{ℕ, ◌≡◌, List};
ghost use Rattle.at_value.specs.declared.operation.Op as ops;
ghost use Rattle.at_core.specs.HeadPlays.{SawHead};
ghost use Rattle.at_core.specs.HeadSteps.{head_loaded};
ghost use Rattle.at_core.specs.Opened.{opening_of};
ghost use Rattle.at_core.specs.Passes.{view, IsOf, IsSame, HasSameHand};
ghost use Rattle.at_head.specs.HeadWords.{HasWord};

use crate::head::Head;
use at_core::{Pass, World, heads};
use at_value::Obj;

/// Loads the head of an object, made or not. The pass keeps it as a look, with the history of this moment. A head that is whole says
/// what its object is then; and each earlier look at the same object that found the same word says what it says of all that the pass
/// has seen since.
pub fn load_head(world: &World, pass: &mut Pass, o: Obj) -> Head
    requires of { IsOf pass.old world.now }
    ensures same { IsSame pass.old pass.new × IsOf pass.new world.now × HasSameHand pass.old pass.new }
    ensures loaded { (word : ℕ) × HasWord result word × (at : List ops.Op) × (keys_are : ℕ → ℕ → ℕ)
        × (view pass.new ≡ head_loaded (view pass.old) o at word)
        × SawHead (opening_of world.now.limits) (view pass.old) o word at keys_are }
{
    Head::of_word(heads::load_head(world, pass, o))
}
