//! Taking the locks of a section, and giving them back.
ghost use Rattle.std.specs.Prelude.{◌≡◌, ◌≤◌, [], ◌∷◌, ◌++◌, List, Some, IfSome, IfNone, true, false, length};
ghost use Rattle.std.specs.List.{list_all};
ghost use Rattle.at_core.specs.declared.note.Note as noted;
ghost use Rattle.at_core.specs.declared.lock.Lock as locks;
ghost use Rattle.at_core.specs.Locks.{HoldsNone};
ghost use Rattle.at_core.specs.Passes.{notes, view, hand, IsOf};
ghost use Rattle.at_section.specs.Calls.{IsLoaded, Moves, last_of};
ghost use Rattle.at_section.specs.Deeds.{held, is_blocked, wanting as first_wanting};
ghost use Rattle.at_section.specs.Sections.{locks_of, named_locks, row_lock, types_lock};
ghost use Rattle.at_section.specs.Surfaces.{AreHeld, IsGiving, IsReady, IsTaking, IsTop};

use crate::naming::{is_named, wanting};
use crate::noting::{give_noted, load_noted};
use at_core::note::MOST_NOTES;
use at_core::{Lock, Note, Pass, World};
use at_lock::{Taken, take, try_take};
use at_value::Obj;
use std::sync::Wait;

/// Gives all locks back, since a try has found another one held: each section that has its locks is suspended.
fn give_all<R: Wait>(world: &World, rt: &R, pass: &mut Pass)
    requires of { IsOf pass.old world.now }
    requires ready { IsReady pass.old }
    requires blocked { is_blocked (view pass.old) ≡ true }
    ensures of { IsOf pass.new world.now }
    ensures moves { (ls : List locks.Lock) → Moves ls pass.old pass.new }
    ensures none { HoldsNone (view pass.new) }
    ensures taking { (ls : List locks.Lock) → IsTaking ls pass.old → IsTaking ls pass.new }
{
    for _ in rt.forever() {
        match pass.front_lock() {
            None => return,
            Some(lock) => give_noted(world, pass, &lock),
        }
    }
    unreachable!()
}

/// Tries to take a lock that a note names, the first that the pass doesn't hold. Where another pass holds it, all sections are
/// suspended, and the pass waits for this lock holding none.
fn take_one<R: Wait>(world: &World, rt: &R, pass: &mut Pass, note: &Note, lock: &Lock)
    requires of { IsOf pass.old world.now }
    requires few { length (notes pass.old) ≤ MOST_NOTES }
    requires taking { IsTaking (locks_of note.now) pass.old }
    requires first { first_wanting (locks_of note.now) (held (view pass.old)) ≡ Some lock.now }
    ensures of { IsOf pass.new world.now }
    ensures moves { Moves (locks_of note.now) pass.old pass.new }
    ensures taking { IsTaking (locks_of note.now) pass.new }
{
    if let Taken::Held(_) = try_take(world, pass, *lock) {
        give_all(world, rt, pass);
        take(world, rt, pass, *lock);
    }
}

/// Takes all locks of a note in their order, each that the pass doesn't hold yet.
pub(crate) fn take_all<R: Wait>(world: &World, rt: &R, pass: &mut Pass, note: &Note)
    requires of { IsOf pass.old world.now }
    requires few { length (notes pass.old) ≤ MOST_NOTES }
    requires taking { IsTaking (locks_of note.now) pass.old }
    ensures of { IsOf pass.new world.now }
    ensures moves { Moves (locks_of note.now) pass.old pass.new }
    ensures has { list_all (held (view pass.new)) (locks_of note.now) ≡ true }
    ensures taking { IsTaking (locks_of note.now) pass.new }
{
    for _ in rt.forever() {
        match wanting(pass, note) {
            None => return,
            Some(lock) => take_one(world, rt, pass, note, &lock),
        }
    }
    unreachable!()
}

/// Gives a lock back that the pass holds, where no section that has its locks names it.
fn release(world: &World, pass: &mut Pass, lock: &Lock)
    requires of { IsOf pass.old world.now }
    requires ready { IsReady pass.old }
    ensures of { IsOf pass.new world.now }
    ensures moves { (ls : List locks.Lock) → Moves ls pass.old pass.new }
    ensures giving { (ls : List locks.Lock) → IsGiving (lock.now ∷ ls) pass.old → IsGiving ls pass.new }
    ensures ready { IsReady pass.new }
{
    if pass.has_lock(lock) && !is_named(pass, lock) {
        give_noted(world, pass, lock);
    }
}

/// So with the lock of a row, where there is one.
fn release_row(world: &World, pass: &mut Pass, o: Option<Obj>)
    requires of { IsOf pass.old world.now }
    requires ready { IsReady pass.old }
    ensures of { IsOf pass.new world.now }
    ensures moves { (ls : List locks.Lock) → Moves ls pass.old pass.new }
    ensures giving { (ls : List locks.Lock) → IsGiving (row_lock o ++ ls) pass.old → IsGiving ls pass.new }
    ensures ready { IsReady pass.new }
{
    if let Some(o) = o {
        release(world, pass, &Lock::Row(o));
    }
}

/// So with the lock of the types, where it is named.
fn release_types(world: &World, pass: &mut Pass, types: bool)
    requires of { IsOf pass.old world.now }
    requires ready { IsReady pass.old }
    ensures of { IsOf pass.new world.now }
    ensures moves { (ls : List locks.Lock) → Moves ls pass.old pass.new }
    ensures giving { (ls : List locks.Lock) → IsGiving (types_lock types ++ ls) pass.old → IsGiving ls pass.new }
    ensures ready { IsReady pass.new }
{
    if types {
        release(world, pass, &Lock::Types);
    }
}

/// Gives back the locks of a note that no section which has its locks names.
pub(crate) fn release_all(world: &World, pass: &mut Pass, note: &Note)
    requires of { IsOf pass.old world.now }
    requires giving { IsGiving (locks_of note.now) pass.old }
    ensures of { IsOf pass.new world.now }
    ensures moves { (ls : List locks.Lock) → Moves ls pass.old pass.new }
    ensures giving { IsGiving [] pass.new }
{
    release_types(world, pass, note.types);
    release_row(world, pass, note.a);
    release_row(world, pass, note.b);
}

/// The innermost note, where there is one.
fn innermost(pass: &Pass) -> Option<Note>
    ensures few { length (notes pass.now) ≤ MOST_NOTES }
    ensures some { IfSome result (λ n. (around : List noted.Note) × (notes pass.now ≡ around ++ n ∷ [])) }
    ensures none { IfNone result (notes pass.now ≡ []) }
{
    let count = pass.sections();
    if count == 0 {
        return None;
    }
    pass.note_at(count - 1)
}

/// The innermost section takes its locks again, if it was suspended.
pub(crate) fn resume<R: Wait>(world: &World, rt: &R, pass: &mut Pass)
    requires of { IsOf pass.old world.now }
    requires giving { IsGiving [] pass.old }
    ensures of { IsOf pass.new world.now }
    ensures moves { Moves (last_of (named_locks (notes pass.old))) pass.old pass.new }
    ensures held { AreHeld (view pass.new) (notes pass.new) }
    ensures ready { IsReady pass.new }
{
    let Some(note) = innermost(pass) else {
        return;
    };
    if note.active {
        return;
    }
    take_all(world, rt, pass, &note);
    load_noted(world, pass);
}
