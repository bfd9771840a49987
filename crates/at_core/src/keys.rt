//! The steps on the keys of classes.
ghost use Rattle.std.specs.Prelude.{ℕ, ◌≡◌, ◌<◌, List};
ghost use Rattle.at_view.specs.Counts.{keys};
ghost use Rattle.at_core.specs.HeadPlays.{SawKey};
ghost use Rattle.at_core.specs.HeadSteps.{key_loaded, key_appended, MayAppend};
ghost use Rattle.at_core.specs.Passes.{view, IsOf, IsSame, HasSameHand};

use crate::stored::Stored;
use crate::world::{Pass, World};
use at_value::{Class, Name};
use at_view::{View, words};
use atomic_table::Play;

/// What a load of a key tells.
pub(crate) struct KeyPlay;

impl Play<Option<Stored>, View> for KeyPlay {
    ghost use Rattle.at_core.specs.HeadPlays.{LoadsKey};

    ghost then = { LoadsKey };
}

/// What an append of a key tells.
pub(crate) struct AppendPlay;

impl Play<Option<Stored>, View> for AppendPlay {
    ghost use Rattle.at_core.specs.HeadPlays.{AppendsKey};

    ghost then = { AppendsKey };
}

/// Loads key i, below 8, of a class: 0, or the number of a name and 1. The pass knows all keys of the class from then on, as they are at
/// this moment, and the key joins each look that it has.
pub fn load_key(world: &World, pass: &mut Pass, c: Class, i: u8) -> u64
    requires of { IsOf pass.old world.now }
    requires index { i < keys }
    ensures same { IsSame pass.old pass.new × IsOf pass.new world.now × HasSameHand pass.old pass.new }
    ensures loaded { (known : List ℕ) × (view pass.new ≡ key_loaded (view pass.old) c i known result)
        × SawKey (view pass.old) c i result known }
{
    world
        .table
        .shared
        .load::<KeyPlay>(&mut pass.seat, words::key(c, i))
}

/// Appends a key for a name to a class, at index i, below 8: the number of the name and 1 is stored there. It asks for
/// the lock of the types, that the keys before i are used and those from i on are not, and that no key of the class is
/// that of the name. The pass knows the keys of the class from then on.
pub fn append_key(world: &World, pass: &mut Pass, c: Class, i: u8, n: Name)
    requires of { IsOf pass.old world.now }
    requires may { MayAppend (view pass.old) c i n }
    ensures same { IsSame pass.old pass.new × IsOf pass.new world.now × HasSameHand pass.old pass.new }
    ensures appended { view pass.new ≡ key_appended (view pass.old) c i n }
{
    let word = u64::from(n.number()) + 1;
    world
        .table
        .shared
        .store::<AppendPlay>(&mut pass.seat, words::key(c, i), word);
}
