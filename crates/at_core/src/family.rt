//! The steps by which a pass splits off, and by which one takes in another.
ghost use Rattle.std.specs.Prelude.{◌≡◌, ◌<◌, [], Some, None};
ghost use Rattle.at_view.specs.Counts.{passes};
ghost use Rattle.at_core.specs.declared.lock.Lock.TheVariants as locks;
ghost use Rattle.at_core.specs.Passes.{notes, view, slot_at, IsOf, IsSame, HasSameHand};
ghost use Rattle.at_core.specs.Steps.{child, merged, parted, MayJoin, MaySplit};

use crate::world::{Pass, World};
use arrayvec::ArrayVec;
use at_view::View;
use atomic_table::{Join, Split};

/// How a pass's view is cut in two, and how two are made one.
pub(crate) struct Branches;

impl Split<View> for Branches {
    ghost use Rattle.at_core.specs.Steps.{parted, child};

    ghost left = { parted };

    ghost right = { child };
}

impl Join<View> for Branches {
    ghost use Rattle.at_view.specs.Views.{blank};
    ghost use Rattle.at_core.specs.Steps.{merged};

    ghost both = { merged };

    ghost spent = { blank };
}

/// A new pass of this number splits off, with the next birth and what the pass has seen. It asks for the lock of the types,
/// with the types out, and for no other lock, and that the number is the least that is free in the lists that the pass has.
/// The new pass holds nothing, is offline and has no notes.
pub fn split_off(world: &World, pass: &mut Pass, number: u8) -> Pass
    requires of { IsOf pass.old world.now }
    requires out { slot_at pass.old locks.Types ≡ Some None }
    requires may { MaySplit (view pass.old) number × (number < passes) }
    ensures same { IsSame pass.old pass.new × IsOf pass.new world.now × HasSameHand pass.old pass.new }
    ensures parted { view pass.new ≡ parted (view pass.old) }
    ensures new { IsOf result world.now × (view result ≡ child (view pass.old)) × (notes result ≡ []) }
{
    let seat = world.table.shared.split_seat::<Branches>(&mut pass.seat);
    Pass {
        seat,
        number,
        online: false,
        hand: ArrayVec::new(),
        notes: ArrayVec::new(),
    }
}

/// A pass takes in another. It asks for the lock of the types, with the types out, and for no other lock, and that the other
/// is a child of the pass, holds no lock, has no cache entry open and is offline. The number of the other is then free in the
/// lists that the pass has, and its notes are gone.
pub fn take_in(world: &World, pass: &mut Pass, other: Pass)
    requires of { IsOf pass.old world.now × IsOf other world.now }
    requires out { slot_at pass.old locks.Types ≡ Some None }
    requires may { MayJoin (view pass.old) (view other) }
    ensures same { IsSame pass.old pass.new × IsOf pass.new world.now × HasSameHand pass.old pass.new }
    ensures merged { view pass.new ≡ merged (view pass.old) (view other) }
{
    let Pass {
        seat,
        number: _,
        online: _,
        hand: _,
        notes: _,
    } = other;
    world
        .table
        .shared
        .join_seat::<Branches>(&mut pass.seat, seat);
}
