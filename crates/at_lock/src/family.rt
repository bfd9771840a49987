//! Passes that split off, and passes that are taken in.
ghost use Rattle.std.specs.Prelude.{ℕ, ◌≡◌, ◌≤◌, ◌<◌, ◌++◌, [], false, IfOk, IfErr};
ghost use mathlib.Core.List.{IsPrefix};
ghost use Rattle.at_types.specs.Tags.{times};
ghost use Rattle.at_core.specs.declared.lock.Lock.TheVariants as locks;
ghost use Rattle.at_core.specs.declared.stored.Stored.TheVariants as stored;
ghost use Rattle.at_core.specs.Passes.{notes, view, hand, IsOf, IsSame, HasSameHand};
ghost use Rattle.at_core.specs.Plays.{Brought};
ghost use Rattle.at_core.specs.Steps.{given, IsShut, MayGoOffline};
ghost use Rattle.at_core.specs.Locks.{HoldsNone};
ghost use Rattle.at_lock.specs.Families.{HasComeOnline, IsSplit, HasNoNumber, IsJoined, HasSeenMore, MayEnd, ended};
ghost use Rattle.at_lock.specs.Holding.{HasOut, IsRight};

use crate::slots::{types_in, types_out};
use crate::taking::{give, take};
use at_core::family::{split_off, take_in};
use at_core::sequences::{go_offline, go_online, load_global};
use at_core::{Lock, Pass, World};
use at_types::Types;
use std::sync::Wait;
use thiserror::Error;

/// No number of a pass is free: there are 64 passes.
#[derive(Clone, Copy, Debug, PartialEq, Eq, Error)]
#[error("there are 64 passes")]
pub struct NoPass;

/// Puts the types back, and gives back their lock.
fn put_back(world: &World, pass: &mut Pass, types: Box<Types>)
    requires of { IsOf pass.old world.now }
    requires out { HasOut pass.old locks.Types }
    requires right { IsRight (view pass.old) locks.Types (stored.Types types) }
    requires shut { IsShut locks.Types (view pass.old) }
    ensures same { IsSame pass.old pass.new × IsOf pass.new world.now }
    ensures given { view pass.new ≡ given locks.Types (view pass.old) }
    ensures brought { Brought (view pass.old) }
{
    types_in(world, pass, types);
    give(world, pass, Lock::Types);
}

/// A pass that is offline and has no cache entry open comes online with what the global sequence is.
fn come_online(world: &World, pass: &mut Pass)
    requires of { IsOf pass.old world.now }
    requires may { ((view pass.old).tags.online ≡ false) × MayGoOffline (view pass.old) }
    ensures same { IsSame pass.old pass.new × IsOf pass.new world.now × HasSameHand pass.old pass.new }
    ensures online { HasComeOnline (view pass.old) (view pass.new) }
{
    let global = load_global(world, pass);
    go_online(world, pass, global);
}

/// A new pass splits off, with the least number that is free. It has seen what the pass has seen, has no own writes, and is
/// online. `NoPass` comes exactly where no number was free while the pass held the lock of the types, which is so where 64
/// passes are live. The pass holds no lock before and after, and waits for that of the types.
pub fn split<R: Wait>(world: &World, rt: &R, pass: &mut Pass) -> Result<Pass, NoPass>
    requires of { IsOf pass.old world.now }
    requires out { HoldsNone (view pass.old) }
    ensures same { IsSame pass.old pass.new × IsOf pass.new world.now }
    ensures out { HoldsNone (view pass.new) }
    ensures ok { IfOk result (λ new. IsSplit (view pass.old) (view pass.new) (view new)) }
    ensures new { IfOk result (λ new. IsOf new world.now × (hand new ≡ []) × (notes new ≡ []) × HoldsNone (view new)) }
    ensures child { IfOk result (λ new. 0 < times (view new).history.birth (view pass.new).who.children) }
    ensures children { (b : ℕ) → times b (view pass.old).who.children ≤ times b (view pass.new).who.children }
    ensures full { IfErr result (λ _. HasNoNumber (view pass.old) (view pass.new)) }
    ensures seen { HasSeenMore (view pass.old) (view pass.new) × ((view pass.new).history.own ≡ (view pass.old).history.own) }
{
    take(world, rt, pass, Lock::Types);
    let mut types = types_out(world, pass);
    let Some(number) = types.take_number() else {
        put_back(world, pass, types);
        return Err(NoPass);
    };
    let mut new = split_off(world, pass, number);
    put_back(world, pass, types);
    come_online(world, &mut new);
    Ok(new)
}

/// A pass that has no cache entry open goes offline, if it isn't yet.
fn end(world: &World, pass: &mut Pass)
    requires of { IsOf pass.old world.now }
    requires closed { (view pass.old).write.writing ≡ false }
    ensures same { IsSame pass.old pass.new × IsOf pass.new world.now × HasSameHand pass.old pass.new }
    ensures ended { view pass.new ≡ ended (view pass.old) }
{
    if pass.online() {
        go_offline(world, pass);
    }
}

/// A pass takes in another that was split off it, or off a pass that it took in. It has then seen what both saw, its own
/// writes are those of both, of which no place was own to both, its children are those of both, and the other's number is free.
/// Neither holds a lock; the other has no cache entry open, and goes offline first. It waits for the lock of the types.
pub fn join<R: Wait>(world: &World, rt: &R, pass: &mut Pass, mut other: Pass)
    requires of { IsOf pass.old world.now × IsOf other world.now }
    requires out { HoldsNone (view pass.old) × HoldsNone (view other) }
    requires may { MayEnd (view pass.old) (view other) }
    ensures same { IsSame pass.old pass.new × IsOf pass.new world.now }
    ensures out { HoldsNone (view pass.new) }
    ensures joined { IsJoined (view pass.old) (view other) (view pass.new) }
    ensures seen { HasSeenMore (view pass.old) (view pass.new) }
    ensures others { IsPrefix (view other).history.seen (view pass.new).history.seen }
    ensures own { (view pass.new).history.own ≡ (view pass.old).history.own ++ (view other).history.own }
    ensures once { (p : ℕ) → times p (view pass.new).history.own ≤ 1 }
{
    end(world, &mut other);
    take(world, rt, pass, Lock::Types);
    let mut types = types_out(world, pass);
    let number = other.number();
    take_in(world, pass, other);
    types.free_number(number);
    put_back(world, pass, types);
}
