//! The steps of sections: each with what it makes of the notes.
ghost use Rattle.std.specs.Prelude.{◌≡◌, ◌<◌, true, Some, map, List, length, slice_get, slice_set};
ghost use Rattle.at_value.specs.declared.operation.Op as ops;
ghost use Rattle.at_core.specs.declared.note.Note as noted;
ghost use Rattle.at_core.specs.Locks.{holds};
ghost use Rattle.at_core.specs.Opened.{opening_of};
ghost use Rattle.at_core.specs.Passes.{notes, view, IsNoted, IsOf};
ghost use Rattle.at_core.specs.PlacePlays.{Saw};
ghost use Rattle.at_core.specs.PlaceSteps.{place_loaded};
ghost use Rattle.at_core.specs.Steps.{given};
ghost use Rattle.at_section.specs.Calls.{IsSamePass};
ghost use Rattle.at_section.specs.Deeds.{held};
ghost use Rattle.at_section.specs.Sections.{after_give, after_load};
ghost use Rattle.at_section.specs.Surfaces.{IsReady};

use crate::naming::{with_locks, without_lock};
use at_core::places::load_place;
use at_core::{Lock, Pass, World};
use at_lock::give;

/// So with the note that has so many around it.
fn note_give_at(pass: &mut Pass, i: u8, lock: &Lock)
    requires { i < length (notes pass.old) }
    ensures same { IsNoted pass.old pass.new }
    ensures noted { (n : noted.Note) × (slice_get (notes pass.old) i ≡ Some n)
        × (notes pass.new ≡ slice_set (notes pass.old) i (after_give lock.now n)) }
{
    let Some(note) = pass.note_at(i) else {
        unreachable!()
    };
    pass.set_note(i, without_lock(&note, lock));
}

/// Notes that a lock was given: each section that had it is suspended.
fn note_give(pass: &mut Pass, lock: &Lock)
    ensures same { IsNoted pass.old pass.new }
    ensures noted { notes pass.new ≡ map (after_give lock.now) (notes pass.old) }
{
    for i in 0..pass.sections() {
        note_give_at(pass, i, lock);
    }
}

/// So with the note that has so many around it.
fn note_load_at(pass: &mut Pass, i: u8)
    requires { i < length (notes pass.old) }
    ensures same { IsNoted pass.old pass.new }
    ensures noted { (n : noted.Note) × (slice_get (notes pass.old) i ≡ Some n)
        × (notes pass.new ≡ slice_set (notes pass.old) i (after_load (held (view pass.old)) n)) }
{
    let Some(note) = pass.note_at(i) else {
        unreachable!()
    };
    let changed = with_locks(pass, &note);
    pass.set_note(i, changed);
}

/// Notes that the place was loaded: each section whose locks are all held has them.
fn note_load(pass: &mut Pass)
    ensures same { IsNoted pass.old pass.new }
    ensures noted { notes pass.new ≡ map (after_load (held (view pass.old))) (notes pass.old) }
{
    for i in 0..pass.sections() {
        note_load_at(pass, i);
    }
}

/// Gives a lock back. Each section that had it is suspended.
pub(crate) fn give_noted(world: &World, pass: &mut Pass, lock: &Lock)
    requires of { IsOf pass.old world.now }
    requires ready { IsReady pass.old }
    requires held { holds lock.now (view pass.old) ≡ true }
    ensures same { IsSamePass pass.old pass.new × IsOf pass.new world.now }
    ensures given { view pass.new ≡ given lock.now (view pass.old) }
    ensures noted { notes pass.new ≡ map (after_give lock.now) (notes pass.old) }
    ensures ready { IsReady pass.new }
{
    give(world, pass, *lock);
    note_give(pass, lock);
}

/// Loads the place. Each section whose locks are all held has them from then on.
pub(crate) fn load_noted(world: &World, pass: &mut Pass) -> u64
    requires of { IsOf pass.old world.now }
    requires ready { IsReady pass.old }
    ensures same { IsSamePass pass.old pass.new × IsOf pass.new world.now }
    ensures loaded { (at : List ops.Op) × (length at ≡ result) × (view pass.new ≡ place_loaded (view pass.old) at)
        × Saw (opening_of (view pass.old).who.limits) (view pass.old) at }
    ensures noted { notes pass.new ≡ map (after_load (held (view pass.old))) (notes pass.old) }
    ensures ready { IsReady pass.new }
{
    let place = load_place(world, pass);
    note_load(pass);
    place
}
