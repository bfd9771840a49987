//! The steps by which a pass loads the global sequence, goes online and goes offline.
ghost use Rattle.std.specs.Prelude.{◌≡◌, ◌<◌, true};
ghost use Rattle.at_core.specs.declared.lock.Lock.TheVariants as locks;
ghost use Rattle.at_core.specs.Locks.{holds};
ghost use Rattle.at_core.specs.Passes.{view, IsOf, IsSame, HasSameHand};
ghost use Rattle.at_core.specs.Steps.{global_loaded, gone_online, gone_offline, MayGoOnline, MayGoOffline};

use crate::stored::Stored;
use crate::world::{Pass, World};
use at_view::{View, words};
use atomic_table::Play;

/// What a load of the global sequence tells.
pub(crate) struct GlobalPlay;

impl Play<Option<Stored>, View> for GlobalPlay {
    ghost use Rattle.at_core.specs.Plays.{LoadsGlobal};

    ghost then = { LoadsGlobal };
}

/// What going online tells.
pub(crate) struct OnlinePlay;

impl Play<Option<Stored>, View> for OnlinePlay {
    ghost use Rattle.at_core.specs.Plays.{GoesOnline};

    ghost then = { GoesOnline };
}

/// What going offline tells.
pub(crate) struct OfflinePlay;

impl Play<Option<Stored>, View> for OfflinePlay {
    ghost use Rattle.at_core.specs.Plays.{GoesOffline};

    ghost then = { GoesOffline };
}

/// Loads the global sequence, which is never 0. Who has the lock of the types finds what it knows it to be.
pub fn load_global(world: &World, pass: &mut Pass) -> u64
    requires of { IsOf pass.old world.now }
    ensures same { IsSame pass.old pass.new × IsOf pass.new world.now × HasSameHand pass.old pass.new }
    ensures loaded { view pass.new ≡ global_loaded (view pass.old) result }
    ensures begun { 0 < result }
    ensures copy { holds locks.Types (view pass.old) ≡ true → result ≡ (view pass.old).types.words.global }
{
    world
        .table
        .shared
        .load::<GlobalPlay>(&mut pass.seat, words::GLOBAL_SEQUENCE)
}

/// Goes online with what the pass last loaded of the global sequence, which the caller tells. It asks that the pass is
/// offline, has loaded the sequence, and has no cache entry open. The pass holds no tag and nothing of a read.
pub fn go_online(world: &World, pass: &mut Pass, global: u64)
    requires of { IsOf pass.old world.now }
    requires may { MayGoOnline (view pass.old) × (global ≡ (view pass.old).tags.global) }
    ensures same { IsSame pass.old pass.new × IsOf pass.new world.now × HasSameHand pass.old pass.new }
    ensures online { view pass.new ≡ gone_online (view pass.old) }
{
    world
        .table
        .shared
        .store::<OnlinePlay>(&mut pass.seat, words::own_sequence(pass.number), global);
    pass.online = true;
}

/// Goes offline. It asks that the pass has no cache entry open. The pass holds no tag and nothing of a read.
pub fn go_offline(world: &World, pass: &mut Pass)
    requires of { IsOf pass.old world.now }
    requires may { MayGoOffline (view pass.old) }
    ensures same { IsSame pass.old pass.new × IsOf pass.new world.now × HasSameHand pass.old pass.new }
    ensures offline { view pass.new ≡ gone_offline (view pass.old) }
{
    world
        .table
        .shared
        .store::<OfflinePlay>(&mut pass.seat, words::own_sequence(pass.number), 0);
    pass.online = false;
}
