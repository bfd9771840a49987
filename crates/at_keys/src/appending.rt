//! Keys are appended.
ghost use Rattle.std.specs.Prelude.{ℕ, ◌≡◌, ◌≢◌, ◌<◌, suc, true, List, length, slice_index, IfOk, IfErr};
ghost use Rattle.at_view.specs.Counts.{keys};
ghost use Rattle.at_core.specs.declared.lock.Lock.TheVariants as locks;
ghost use Rattle.at_core.specs.HeadSteps.{copied_keys_of, key_appended};
ghost use Rattle.at_core.specs.Inline.{NoneIs};
ghost use Rattle.at_core.specs.Locks.{holds};
ghost use Rattle.at_core.specs.Passes.{view, IsOf, IsSame, HasSameHand};
ghost use Rattle.at_keys.specs.Scans.{AreSeen, keys_loaded};

use crate::scanning::key_at;
use at_core::keys::append_key;
use at_core::{Pass, World};
use at_value::{Class, Name};
use at_view::words::KEYS;
use thiserror::Error;

/// All 8 keys of the class are used.
#[derive(Clone, Copy, Debug, PartialEq, Eq, Error)]
#[error("the class has 8 keys")]
pub struct KeysFull;

/// Appends a key for a name to a class, and gives its index: the first that isn't used. It asks for the lock of the types, and that no
/// key of the class is that of the name. `KeysFull` comes exactly where all keys are used, and nothing is stored then.
pub fn append(world: &World, pass: &mut Pass, c: Class, n: Name) -> Result<u8, KeysFull>
    requires of { IsOf pass.old world.now }
    requires held { holds locks.Types (view pass.old) ≡ true }
    requires absent { NoneIs n (slice_index (copied_keys_of (view pass.old) c)) }
    ensures same { IsSame pass.old pass.new × IsOf pass.new world.now × HasSameHand pass.old pass.new }
    ensures first { IfOk result (λ i. (i < keys) × (slice_index (copied_keys_of (view pass.old) c) i ≡ 0)
        × ((j : ℕ) → j < i → slice_index (copied_keys_of (view pass.old) c) j ≢ 0)) }
    ensures appended { IfOk result (λ i. (loads : List (List ℕ)) × (length loads ≡ suc i) × AreSeen c (view pass.old) 0 loads
        × (view pass.new ≡ key_appended (keys_loaded c (view pass.old) 0 loads) c i n)) }
    ensures full { IfErr result (λ _. ((i : ℕ) → i < keys → slice_index (copied_keys_of (view pass.old) c) i ≢ 0)
        × (loads : List (List ℕ)) × (view pass.new ≡ keys_loaded c (view pass.old) 0 loads)) }
{
    for i in 0..KEYS as u8 {
        match key_at(world, pass, c, i) {
            Some(_) => {}
            None => {
                append_key(world, pass, c, i, n);
                return Ok(i);
            }
        }
    }
    Err(KeysFull)
}
