//! Beginning and ending sections.
ghost use Rattle.std.specs.Prelude.{◌≡◌, ◌≢◌, ◌<◌, [], List, true, false, length, None, Some};
ghost use Rattle.at_core.specs.declared.lock.Lock.TheVariants as locks;
ghost use Rattle.at_core.specs.declared.stored.Stored.TheVariants as stored;
ghost use Rattle.at_core.specs.Passes.{notes, view, IsOf};
ghost use Rattle.at_lock.specs.Holding.{IsRight, IsRightNow};
ghost use Rattle.at_section.specs.declared.ended.How.TheVariants as hows;
ghost use Rattle.at_section.specs.Calls.{Begins, Finishes, given_of, IsSuspended};
ghost use Rattle.at_section.specs.Sections.{in_order, locks_of};
ghost use Rattle.at_section.specs.Surfaces.{AreHeld, IsReady, Surface, TypesSurface};

use crate::ended::{Ended, How};
use crate::naming::note_of;
use crate::noting::load_noted;
use crate::taking::{release_all, resume, take_all};
use at_core::note::MOST_NOTES;
use at_core::{Note, Pass, World};
use at_lock::{types_in, types_out};
use at_types::Types;
use at_value::{Obj, Place};
use std::sync::Wait;

/// Begins the section of a note.
fn begin_noted<R: Wait>(world: &World, rt: &R, pass: &mut Pass, note: &Note) -> u64
    requires of { IsOf pass.old world.now }
    requires few { length (notes pass.old) < MOST_NOTES }
    requires held { AreHeld (view pass.old) (notes pass.old) × IsReady pass.old }
    requires new { (note.now.active ≡ true) × (note.now.given ≡ 0) }
    ensures of { IsOf pass.new world.now }
    ensures begun { Begins (locks_of note.now) pass.old pass.new result }
    ensures held { AreHeld (view pass.new) (notes pass.new) × IsReady pass.new }
{
    take_all(world, rt, pass, note);
    let begun = load_noted(world, pass);
    pass.push_note(*note);
    begun
}

/// How a section ended that was given back so often.
fn how_of(given: u32) -> How
    ensures count { given_of result ≡ given }
    ensures some { IsSuspended result }
{
    if given == 0 {
        How::Kept
    } else {
        How::Suspended(given)
    }
}

/// Ends the innermost section.
fn end_noted<R: Wait>(world: &World, rt: &R, pass: &mut Pass) -> Ended
    requires of { IsOf pass.old world.now }
    requires some { notes pass.old ≢ [] }
    requires held { AreHeld (view pass.old) (notes pass.old) × IsReady pass.old }
    ensures of { IsOf pass.new world.now }
    ensures ended { Finishes pass.old pass.new result }
    ensures held { AreHeld (view pass.new) (notes pass.new) × IsReady pass.new }
{
    let place = load_noted(world, pass);
    let Some(note) = pass.pop_note() else {
        unreachable!()
    };
    release_all(world, pass, &note);
    resume(world, rt, pass);
    Ended {
        place: Place(place),
        how: how_of(note.given),
    }
}

/// Begins a section over the rows of one or two objects, and answers a place that was loaded while they were held. It asks that
/// the pass is in fewer than 20 sections, and in none of the types. It takes the locks of the rows that the pass doesn't hold by
/// rising number. Where another pass holds one, all sections that have their locks are suspended, and the pass waits holding none.
pub fn begin<R: Wait>(world: &World, rt: &R, pass: &mut Pass, a: Obj, b: Option<Obj>) -> Place
    requires of { IsOf pass.old world.now }
    requires surface { Surface pass.old }
    requires few { length (notes pass.old) < MOST_NOTES }
    ensures of { IsOf pass.new world.now }
    ensures begun { Begins (in_order false (Some a) b) pass.old pass.new result.0 }
    ensures surface { Surface pass.new }
{
    let note = note_of(false, Some(a), b);
    Place(begin_noted(world, rt, pass, &note))
}

/// Begins a section with the lock of the types, which is taken first, and the rows of up to two objects. The types come out. They
/// are those of all that the pass has seen. No section begins within it.
pub fn begin_types<R: Wait>(
    world: &World,
    rt: &R,
    pass: &mut Pass,
    a: Option<Obj>,
    b: Option<Obj>,
) -> Box<Types>
    requires of { IsOf pass.old world.now }
    requires surface { Surface pass.old }
    requires few { length (notes pass.old) < MOST_NOTES }
    ensures of { IsOf pass.new world.now }
    ensures begun { Begins (in_order true a b) pass.old pass.new (length (view pass.new).history.seen) }
    ensures right { IsRight (view pass.new) locks.Types (stored.Types result) }
    ensures now { IsRightNow (view pass.new) locks.Types (stored.Types result) }
    ensures surface { TypesSurface pass.new }
{
    let note = note_of(true, a, b);
    begin_noted(world, rt, pass, &note);
    types_out(world, pass)
}

/// Ends the innermost section. The place is loaded before its locks are given back, all but those that another section has. It
/// was kept exactly where it was never given back; then no other pass wrote its objects from the place of its begin to that of its
/// end. The section around it, if it was suspended, takes its locks again, waiting in the same way.
pub fn end<R: Wait>(world: &World, rt: &R, pass: &mut Pass) -> Ended
    requires of { IsOf pass.old world.now }
    requires surface { Surface pass.old }
    requires some { notes pass.old ≢ [] }
    ensures of { IsOf pass.new world.now }
    ensures ended { Finishes pass.old pass.new result }
    ensures surface { Surface pass.new }
{
    end_noted(world, rt, pass)
}

/// Ends a section with the lock of the types, which is the innermost and kept. The types go back: they have to be those of what
/// their lock kept.
pub fn end_types<R: Wait>(world: &World, rt: &R, pass: &mut Pass, types: Box<Types>) -> Ended
    requires of { IsOf pass.old world.now }
    requires surface { TypesSurface pass.old }
    requires right { IsRight (view pass.old) locks.Types (stored.Types types) }
    ensures of { IsOf pass.new world.now }
    ensures ended { Finishes pass.old pass.new result }
    ensures kept { result.how ≡ hows.Kept }
    ensures surface { Surface pass.new }
{
    types_in(world, pass, types);
    end_noted(world, rt, pass)
}
