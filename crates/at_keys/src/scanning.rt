//! Keys are looked at.
ghost use Rattle.std.specs.Prelude.{ℕ, ◌≡◌, ◌<◌, suc, List, IfSome, IfNone};
ghost use Rattle.at_view.specs.Counts.{keys};
ghost use Rattle.at_core.specs.HeadPlays.{SawKey};
ghost use Rattle.at_core.specs.HeadSteps.{key_loaded, known_keys};
ghost use Rattle.at_core.specs.Inline.{NoneIs};
ghost use Rattle.at_core.specs.Passes.{view, IsOf, IsSame, HasSameHand};
ghost use Rattle.at_keys.specs.Scans.{Scans};
ghost use Rattle.at_keys.specs.declared.scanning.KeyAt.TheVariants as found;

use at_core::keys::load_key;
use at_core::{Pass, World};
use at_value::{Class, Name};
use at_view::words::KEYS;

/// Where the key of a name stands among the keys of a class.
#[derive(Clone, Copy, Debug, PartialEq, Eq)]
pub enum KeyAt {
    /// At this index, below 8.
    At(u8),
    /// Nowhere.
    NotThere,
}

/// Loads key i, below 8, of a class: the name, and none exactly where the key isn't used.
pub fn key_at(world: &World, pass: &mut Pass, c: Class, i: u8) -> Option<Name>
    requires of { IsOf pass.old world.now }
    requires index { i < keys }
    ensures same { IsSame pass.old pass.new × IsOf pass.new world.now × HasSameHand pass.old pass.new }
    ensures some { IfSome result (λ name. (known : List ℕ) × (view pass.new ≡ key_loaded (view pass.old) c i known (suc name))
        × SawKey (view pass.old) c i (suc name) known) }
    ensures none { IfNone result ((known : List ℕ) × (view pass.new ≡ key_loaded (view pass.old) c i known 0)
        × SawKey (view pass.old) c i 0 known) }
{
    match load_key(world, pass, c, i) {
        0 => None,
        word => Some(Name::new((word - 1) as u16).unwrap()),
    }
}

/// Looks for a name among the keys of a class: it loads them in turn, as far as the name's or the first that isn't used. What is
/// not there at that moment may be there later, since keys are appended; what is there stays.
pub fn scan(world: &World, pass: &mut Pass, c: Class, n: Name) -> KeyAt
    requires of { IsOf pass.old world.now }
    ensures same { IsSame pass.old pass.new × IsOf pass.new world.now × HasSameHand pass.old pass.new }
    ensures scanned { Scans c n (view pass.old) (view pass.new) result }
    ensures at { (i : ℕ) → result ≡ found.At i → (i < keys) × (known_keys (view pass.new) c i ≡ suc n) }
    ensures none { result ≡ found.NotThere → NoneIs n (known_keys (view pass.new) c) }
{
    for i in 0..KEYS as u8 {
        match key_at(world, pass, c, i) {
            Some(name) if name == n => return KeyAt::At(i),
            Some(_) => {}
            None => return KeyAt::NotThere,
        }
    }
    KeyAt::NotThere
}
