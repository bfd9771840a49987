//! The steps of the core on a world of its own, and the laws. Each call of a law does nothing: its contract is proved.
ghost use Rattle.std.specs.Prelude.{◌≡◌, ◌<◌, ◌∷◌, [], true, IfSome, length};
ghost use Rattle.at_view.specs.Views.{first_view};
ghost use Rattle.at_core.specs.Locks.{HoldsNone};
ghost use Rattle.at_core.specs.Passes.{view, hand, IsOf, IsSame, HasSameHand};
ghost use Rattle.at_core.specs.Trials.{HasClass, HasEmptyBody, HasKey, HasLocks, HasObject, HasWordCopies};

use crate::heads::{close_head, load_head, load_inline, open_head, store_inline};
use crate::keys::{append_key, load_key};
use crate::locking::{slot_in, slot_out, try_lock, unlock};
use crate::places::{commit, commit_if, load_place, store_intent};
use crate::world::MOST_HELD;
use crate::{Lock, Note, OpenFault, Pass, Stored, World, laws};
use at_value::{Class, Limits, Name, Obj};

mod closing;

#[test]
fn laws_hold() {
    laws::every_run();
    laws::some_run();
    laws::held_operations();
}

/// A thread may be handed a value of this type, and share it.
fn may_be_shared<T: Send + Sync>(_value: &T) {}

/// A thread may be handed a value of this type.
fn may_be_sent<T: Send>(_value: &T) {}

#[test]
fn a_world_and_its_passes_may_cross_threads(rt: HostRuntime) -> Result<(), OpenFault> {
    let (world, pass) = World::open(rt.alloc(), Limits::program())?;
    may_be_shared(&world);
    may_be_sent(&pass);
    assert_eq!(rt; pass.number(), 0);
    Ok(())
}

#[test]
fn limits_are_looked_at(rt: HostRuntime) {
    let alloc = rt.alloc();
    let widest = Limits::program();
    let bad = [
        Limits {
            place_max: widest.place_max + 1,
            ..widest
        },
        Limits {
            head_max: 0,
            ..widest
        },
        Limits {
            head_max: 3,
            ..widest
        },
        Limits {
            head_max: widest.head_max + 2,
            ..widest
        },
        Limits { tags: 0, ..widest },
        Limits {
            tags: 1_024,
            ..widest
        },
    ];
    for limits in bad {
        assert!(rt; matches!(World::open(alloc, limits), Err(OpenFault::BadLimits)));
    }
}

#[test]
fn a_first_pass_takes_what_it_tries(rt: HostRuntime) -> Result<(), OpenFault> {
    let (world, mut pass) = World::open(rt.alloc(), Limits::program())?;
    assert_eq!(rt; world.limits(), Limits::program());
    assert_eq!(rt; try_lock(&world, &mut pass, Lock::Types), 0);
    let types = slot_out(&world, &mut pass, Lock::Types);
    assert!(rt; matches!(types, Stored::Types(_)));
    slot_in(&world, &mut pass, Lock::Types, types);
    Ok(())
}

/// Takes a lock and gives it back, and gives what its word was.
fn take_and_give(world: &World, pass: &mut Pass, lock: &Lock) -> u64
    requires of { IsOf pass.old world.now }
    requires out { HoldsNone (view pass.old) }
    requires room { length (hand pass.old) < MOST_HELD }
    ensures { IsSame pass.old pass.new × IsOf pass.new world.now }
{
    let found = try_lock(world, pass, *lock);
    if found == 0 {
        unlock(world, pass, *lock);
    }
    found
}

#[test]
fn the_types_go_back(rt: HostRuntime) -> Result<(), OpenFault> {
    let (world, mut pass) = World::open(rt.alloc(), Limits::program())?;
    assert_eq!(rt; take_and_give(&world, &mut pass, &Lock::Types), 0);
    Ok(())
}

#[test]
fn a_row_goes_back(rt: HostRuntime) -> Result<(), OpenFault> {
    let (world, mut pass) = World::open(rt.alloc(), Limits::program())?;
    let lock = Lock::Row(Obj::new(4_095).unwrap());
    assert_eq!(rt; take_and_give(&world, &mut pass, &lock), 0);
    Ok(())
}

/// Word 0 of the operation that makes class 1 with the one base `object`; its other words are 0.
pub(crate) const CLASS_ONE: u64 = 16_777_473;

/// The first pass takes the lock of the types and makes a class; it gives the place before, or none where it found the lock held.
fn make_class(world: &World, pass: &mut Pass) -> Option<u64>
    requires of { IsOf pass.old world.now }
    requires first { view pass.old ≡ first_view world.now.limits }
    requires empty { hand pass.old ≡ [] }
    requires room { 0 < world.now.limits.place_max }
    ensures same { IsSame pass.old pass.new × IsOf pass.new world.now }
{
    if try_lock(world, pass, Lock::Types) != 0 {
        return None;
    }
    load_place(world, pass);
    store_intent(world, pass, 0, CLASS_ONE);
    Some(commit(world, pass))
}

#[test]
fn a_class_takes_the_first_place(rt: HostRuntime) -> Result<(), OpenFault> {
    let (world, mut pass) = World::open(rt.alloc(), Limits::program())?;
    assert_eq!(rt; make_class(&world, &mut pass), Some(0));
    assert_eq!(rt; load_place(&world, &mut pass), 1);
    Ok(())
}

#[test]
fn words_of_what_is_not_made_are_0(rt: HostRuntime) -> Result<(), OpenFault> {
    let (world, mut pass) = World::open(rt.alloc(), Limits::program())?;
    let o = Obj::new(4_095).unwrap();
    assert_eq!(rt; load_head(&world, &mut pass, o), 0);
    assert_eq!(rt; load_inline(&world, &mut pass, o, 7), 0);
    assert_eq!(rt; load_key(&world, &mut pass, Class::new(254).unwrap(), 7), 0);
    Ok(())
}

/// Word 0 of the operation that makes an object of class 1; its other words are 0.
const OBJECT_OF_ONE: u64 = 261;

/// Word 0 of the operation that gives attribute 20 of object 0 a value. Word 1 is the value's, and the others are 0.
const SET_20: u64 = 21_990_232_555_526;

/// The word of the value `Nothing`.
const NOTHING: u64 = 1;

/// The head of object 0 of class 1, with inline values, after it was written once.
const INLINE: u64 = 282_574_488_338_434;

/// The first pass takes the lock of the types and the row of object 0.
fn take_both(world: &World, pass: &mut Pass, o: Obj) -> bool
    requires of { IsOf pass.old world.now }
    requires number { o ≡ 0 }
    requires first { view pass.old ≡ first_view world.now.limits }
    requires empty { hand pass.old ≡ [] }
    ensures same { IsSame pass.old pass.new × IsOf pass.new world.now }
    ensures taken { result ≡ true → HasLocks (view pass.new) }
    ensures copies { result ≡ true → HasWordCopies (view pass.new) }
    ensures body { result ≡ true → HasEmptyBody pass.new }
{
    if try_lock(world, pass, Lock::Types) != 0 {
        return false;
    }
    try_lock(world, pass, Lock::Row(o)) == 0
}

/// The pass makes class 1, and gives the place before.
fn write_class(world: &World, pass: &mut Pass) -> u64
    requires of { IsOf pass.old world.now }
    requires taken { HasLocks (view pass.old) }
    requires copies { HasWordCopies (view pass.old) }
    requires room { 0 < world.now.limits.place_max }
    ensures same { IsSame pass.old pass.new × IsOf pass.new world.now × HasSameHand pass.old pass.new }
    ensures class { HasClass (view pass.new) }
    ensures copies { HasWordCopies (view pass.new) }
{
    load_place(world, pass);
    store_intent(world, pass, 0, CLASS_ONE);
    commit(world, pass)
}

/// The pass appends the first key of class 1, for name 20, and doesn't where there is a key.
fn append_first(world: &World, pass: &mut Pass, c: Class, n: Name) -> bool
    requires of { IsOf pass.old world.now }
    requires numbers { (c ≡ 1) × (n ≡ 20) }
    requires class { HasClass (view pass.old) }
    requires copies { HasWordCopies (view pass.old) }
    ensures same { IsSame pass.old pass.new × IsOf pass.new world.now × HasSameHand pass.old pass.new }
    ensures class { HasClass (view pass.new) }
    ensures key { result ≡ true → HasKey (view pass.new) }
{
    if load_key(world, pass, c, 0) != 0 {
        return false;
    }
    append_key(world, pass, c, 0, n);
    true
}

/// The pass makes object 0 with inline values, and gives the place before.
fn make_object(world: &World, pass: &mut Pass, o: Obj) -> u64
    requires of { IsOf pass.old world.now }
    requires number { o ≡ 0 }
    requires class { HasClass (view pass.old) }
    requires key { HasKey (view pass.old) }
    requires room { (1 < world.now.limits.place_max) × (0 < world.now.limits.head_max) }
    ensures same { IsSame pass.old pass.new × IsOf pass.new world.now × HasSameHand pass.old pass.new }
    ensures object { HasObject (view pass.new) }
    ensures key { HasKey (view pass.new) }
{
    open_head(world, pass, o, 0);
    load_place(world, pass);
    store_intent(world, pass, 0, OBJECT_OF_ONE);
    let place = commit(world, pass);
    close_head(world, pass, o, INLINE);
    place
}

/// The pass gives attribute 20 of object 0 the value `Nothing`, at the place that it has seen, and then gives the row
/// back. The answer is how many writes it found.
fn set_value(world: &World, pass: &mut Pass, o: Obj) -> u64
    requires of { IsOf pass.old world.now }
    requires number { o ≡ 0 }
    requires object { HasObject (view pass.old) }
    requires key { HasKey (view pass.old) }
    requires body { HasEmptyBody pass.old }
    requires room { (2 < world.now.limits.place_max) × (2 < world.now.limits.head_max) }
    ensures same { IsSame pass.old pass.new × IsOf pass.new world.now }
    ensures found { result ≡ 2 }
{
    open_head(world, pass, o, INLINE);
    store_intent(world, pass, 0, SET_20);
    store_intent(world, pass, 1, NOTHING);
    store_inline(world, pass, o, 0, NOTHING);
    load_place(world, pass);
    let found = commit_if(world, pass, 2);
    close_head(world, pass, o, INLINE + 2);
    unlock(world, pass, Lock::Row(o));
    found
}

/// All of these in turn: gives how many writes the last one found.
fn make_and_set(world: &World, pass: &mut Pass, o: Obj, c: Class, n: Name) -> Option<u64>
    requires of { IsOf pass.old world.now }
    requires numbers { (o ≡ 0) × (c ≡ 1) × (n ≡ 20) }
    requires first { view pass.old ≡ first_view world.now.limits }
    requires empty { hand pass.old ≡ [] }
    requires room { (2 < world.now.limits.place_max) × (2 < world.now.limits.head_max) }
    ensures same { IsSame pass.old pass.new × IsOf pass.new world.now }
    ensures found { IfSome result (λ found. found ≡ 2) }
{
    if !take_both(world, pass, o) {
        return None;
    }
    write_class(world, pass);
    if !append_first(world, pass, c, n) {
        return None;
    }
    make_object(world, pass, o);
    Some(set_value(world, pass, o))
}

#[test]
fn an_object_is_given_a_value(rt: HostRuntime) -> Result<(), OpenFault> {
    let (world, mut pass) = World::open(rt.alloc(), Limits::program())?;
    let o = Obj::new(0).unwrap();
    let c = Class::new(1).unwrap();
    let n = Name::new(20).unwrap();
    assert_eq!(rt; make_and_set(&world, &mut pass, o, c, n), Some(2));
    assert_eq!(rt; load_place(&world, &mut pass), 3);
    assert_eq!(rt; load_head(&world, &mut pass, o), INLINE + 2);
    assert_eq!(rt; load_key(&world, &mut pass, c, 0), 21);
    assert_eq!(rt; load_key(&world, &mut pass, c, 1), 0);
    assert_eq!(rt; load_inline(&world, &mut pass, o, 0), NOTHING);
    assert_eq!(rt; load_inline(&world, &mut pass, o, 1), 0);
    Ok(())
}

/// What is noted of a section of one row.
fn note_of(o: u16, active: bool, given: u32) -> Note {
    Note {
        types: false,
        a: Obj::new(o),
        b: None,
        active,
        given,
    }
}

#[test]
fn notes_are_the_innermost_last(rt: HostRuntime) -> Result<(), OpenFault> {
    let (_world, mut pass) = World::open(rt.alloc(), Limits::program())?;
    assert_eq!(rt; pass.sections(), 0);
    assert_eq!(rt; pass.pop_note(), None);
    pass.push_note(note_of(7, true, 0));
    pass.push_note(note_of(3, false, 2));
    assert_eq!(rt; pass.sections(), 2);
    assert_eq!(rt; pass.note_at(0), Some(note_of(7, true, 0)));
    assert_eq!(rt; pass.note_at(2), None);
    pass.set_note(0, note_of(7, false, 1));
    assert_eq!(rt; pass.pop_note(), Some(note_of(3, false, 2)));
    assert_eq!(rt; pass.pop_note(), Some(note_of(7, false, 1)));
    assert_eq!(rt; pass.sections(), 0);
    Ok(())
}

#[test]
fn a_pass_has_what_it_took(rt: HostRuntime) -> Result<(), OpenFault> {
    let (world, mut pass) = World::open(rt.alloc(), Limits::program())?;
    let lock = Lock::Row(Obj::new(4_095).unwrap());
    assert_eq!(rt; pass.front_lock(), None);
    assert_eq!(rt; try_lock(&world, &mut pass, lock), 0);
    assert!(rt; pass.has_lock(&lock));
    assert!(rt; !pass.has_lock(&Lock::Types));
    assert_eq!(rt; pass.front_lock(), Some(lock));
    Ok(())
}
