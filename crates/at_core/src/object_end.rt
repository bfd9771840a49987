//! What an object has at the end: its class and its names, as the only pass of the world reads them under locks.
ghost use Rattle.std.specs.Prelude.{◌≡◌, ◌<◌, ℕ, IfOk, Some, length, slice_index, false, true};
ghost use Rattle.at_value.specs.Pairs.{IsRising};
ghost use Rattle.at_dict.specs.Inline.{AreInline, AreValuesOf, IsCell};
ghost use Rattle.at_view.specs.Counts.{keys, inline_values};
ghost use Rattle.at_core.specs.declared.lock.Lock.TheVariants as locks;
ghost use Rattle.at_core.specs.declared.stored.Stored as stored;
ghost use Rattle.at_core.specs.Closing.{now_of, dictionary_of, HasLoaded, HasRead, HasRow, HeadSays, HoldsOneRow};
ghost use Rattle.at_core.specs.Closing.{IsBeside, IsEndOf};
ghost use Rattle.at_core.specs.Heads.{shape_of, HasDictionary, IsHead};
ghost use Rattle.at_core.specs.HeadSteps.{known_keys, copied_values, NamesRow};
ghost use Rattle.at_core.specs.Inline.{AreKeys, HaveGrown};
ghost use Rattle.at_core.specs.Locks.{holds};
ghost use Rattle.at_core.specs.Opened.{opening_of};
ghost use Rattle.at_core.specs.Passes.{view, hand, slot_at, IsElsewhereSame, IsOf, IsSame};
ghost use Rattle.at_core.specs.Plays.{IsAlone, RowsAreNamed, Took};
ghost use Rattle.at_core.specs.Steps.{copied_heads, taken, HoldsTypesAlone, Moment};

use crate::head_word::{INLINE, class_in, layout_in, row_in};
use crate::heads::{load_head, load_inline};
use crate::keys::load_key;
use crate::lock::Lock;
use crate::locking::{slot_in, slot_out, try_lock, unlock};
use crate::stored::Stored;
use crate::world::{MOST_HELD, Pass, World};
use at_dict::Body;
use at_model::ObjEnd;
use at_value::{Class, Obj, Pairs, word_laws};
use at_view::words::{INLINE_VALUES, KEYS};
use std::alloc::{AllocError, Global};

/// Takes a lock that the only pass doesn't hold: nobody has it.
pub(crate) fn take_alone(world: &World, pass: &mut Pass, lock: Lock)
    requires of { IsOf pass.old world.now }
    requires alone { IsAlone (view pass.old) }
    requires out { holds lock (view pass.old) ≡ false }
    requires room { length (hand pass.old) < MOST_HELD }
    ensures same { IsSame pass.old pass.new × IsOf pass.new world.now }
    ensures got { (at : Moment) × (x : stored.Stored) × (view pass.new ≡ taken lock (view pass.old) at)
        × (slot_at pass.new lock ≡ Some (Some x)) × Took (opening_of world.now.limits) lock (view pass.old) at x }
    ensures elsewhere { IsElsewhereSame pass.old pass.new lock }
{
    if try_lock(world, pass, lock) != 0 {
        unreachable!();
    }
}

/// Takes the lock of a row, of which the head of the row's object then tells.
fn take_row(world: &World, pass: &mut Pass, o: Obj)
    requires of { IsOf pass.old world.now }
    requires alone { IsAlone (view pass.old) }
    requires out { holds (locks.Row o) (view pass.old) ≡ false }
    requires room { length (hand pass.old) < MOST_HELD }
    ensures of { IsOf pass.new world.now }
    ensures beside { IsBeside pass.old pass.new o }
    ensures row { HasRow (now_of world.now.limits (view pass.new)) pass.new o }
    ensures says { HeadSays (now_of world.now.limits (view pass.new)) (view pass.new) o }
    ensures named { RowsAreNamed (view pass.new) }
{
    take_alone(world, pass, Lock::Row(o));
}

/// Gives back the lock of a row that was read.
fn give_row(world: &World, pass: &mut Pass, o: Obj)
    requires of { IsOf pass.old world.now }
    requires row { HasRow (now_of world.now.limits (view pass.old)) pass.old o }
    ensures of { IsOf pass.new world.now }
    ensures beside { IsBeside pass.old pass.new o }
    ensures out { holds (locks.Row o) (view pass.new) ≡ false }
{
    unlock(world, pass, Lock::Row(o));
}

/// The pairs of a dictionary.
fn copy_of(alloc: Global, body: &Body) -> Result<Pairs, AllocError>
    ensures { IfOk result (λ pairs. pairs ≡ body.now.map) }
{
    let mut items = Vec::with_capacity(alloc, body.len())?;
    while let Some(pair) = body.at(items.len()) {
        items.push(pair)?;
    }
    Ok(Pairs::of(items))
}

/// The pairs of the dictionary of a row that is held.
fn row_pairs(world: &World, pass: &mut Pass, alloc: Global, r: Obj) -> Result<Pairs, AllocError>
    requires of { IsOf pass.old world.now }
    requires row { HasRow (now_of world.now.limits (view pass.old)) pass.old r }
    requires dictionary { HasDictionary (shape_of (copied_heads (view pass.old) r)) }
    ensures of { IsOf pass.new world.now }
    ensures loaded { HasLoaded pass.old pass.new }
    ensures pairs { IfOk result (λ pairs. pairs ≡ dictionary_of (now_of world.now.limits (view pass.old)) r) }
{
    match slot_out(world, pass, Lock::Row(r)) {
        Stored::Body(body) => {
            let pairs = copy_of(alloc, &body);
            slot_in(world, pass, Lock::Row(r), Stored::Body(body));
            pairs
        }
        Stored::Types(_) => unreachable!(),
    }
}

/// The pairs of the dictionary of a row that isn't held, which an object whose row is held names.
fn other_pairs(world: &World, pass: &mut Pass, alloc: Global, r: Obj) -> Result<Pairs, AllocError>
    requires of { IsOf pass.old world.now }
    requires alone { IsAlone (view pass.old) }
    requires out { holds (locks.Row r) (view pass.old) ≡ false }
    requires room { length (hand pass.old) < MOST_HELD }
    requires named { NamesRow (view pass.old) r }
    ensures of { IsOf pass.new world.now }
    ensures beside { IsBeside pass.old pass.new r }
    ensures out { holds (locks.Row r) (view pass.new) ≡ false }
    ensures pairs { IfOk result (λ pairs. pairs ≡ dictionary_of (now_of world.now.limits (view pass.old)) r) }
{
    take_row(world, pass, r);
    let pairs = row_pairs(world, pass, alloc, r);
    give_row(world, pass, r);
    pairs
}

/// The pairs of an object whose row is held, and whose head names the dictionary of a row.
fn named_pairs(
    world: &World,
    pass: &mut Pass,
    alloc: Global,
    o: Obj,
    r: Obj,
) -> Result<Pairs, AllocError>
    requires of { IsOf pass.old world.now }
    requires alone { IsAlone (view pass.old) }
    requires one { HoldsOneRow (view pass.old) o }
    requires row { HasRow (now_of world.now.limits (view pass.old)) pass.old o }
    requires dictionary { HasDictionary (shape_of (copied_heads (view pass.old) o)) }
    requires named { r ≡ (shape_of (copied_heads (view pass.old) o)).row }
    ensures of { IsOf pass.new world.now }
    ensures read { HasRead pass.old pass.new }
    ensures row { HasRow (now_of world.now.limits (view pass.new)) pass.new o }
    ensures pairs { IfOk result (λ pairs. pairs ≡ dictionary_of (now_of world.now.limits (view pass.old)) r) }
{
    if r == o {
        row_pairs(world, pass, alloc, r)
    } else {
        other_pairs(world, pass, alloc, r)
    }
}

/// The keys of a class, under the lock of the types. They are those that the pass knew, and maybe more.
fn load_keys(world: &World, pass: &mut Pass, c: Class) -> [u64; KEYS]
    requires of { IsOf pass.old world.now }
    requires types { holds locks.Types (view pass.old) ≡ true }
    ensures of { IsOf pass.new world.now }
    ensures loaded { HasLoaded pass.old pass.new }
    ensures keys { AreKeys (slice_index result) }
    ensures grown { HaveGrown (known_keys (view pass.old) c) (slice_index result) }
{
    let mut keys = [0; KEYS];
    for i in 0..KEYS {
        keys[i] = load_key(world, pass, c, i as u8);
    }
    keys
}

/// The inline values of an object whose row is held.
fn load_values(world: &World, pass: &mut Pass, o: Obj) -> [u64; INLINE_VALUES]
    requires of { IsOf pass.old world.now }
    requires row { holds (locks.Row o) (view pass.old) ≡ true }
    ensures of { IsOf pass.new world.now }
    ensures loaded { HasLoaded pass.old pass.new }
    ensures cells { (i : ℕ) → IsCell (slice_index result i) }
    ensures copied { (i : ℕ) → i < inline_values → slice_index result i ≡ copied_values (view pass.old) o i }
    ensures long { length result ≡ inline_values }
{
    let mut words = [0; INLINE_VALUES];
    for i in 0..INLINE_VALUES {
        words[i] = load_inline(world, pass, o, i as u8);
    }
    words
}

/// The pairs of inline values.
fn pairs_of(
    alloc: Global,
    keys: &[u64; KEYS],
    words: &[u64; INLINE_VALUES],
) -> Result<Pairs, AllocError>
    requires { AreInline (slice_index keys.now) (slice_index words.now) }
    ensures rising { IfOk result (λ pairs. IsRising pairs) }
    ensures pairs { IfOk result (λ pairs. AreValuesOf pairs (slice_index keys.now) (slice_index words.now)) }
{
    let mut body = Body::new(alloc);
    body.reserve(Body::INLINE)?;
    body.from_inline(keys, words);
    copy_of(alloc, &body)
}

/// The pairs of an object of this class whose row is held, and whose values stand in its inline words.
fn inline_pairs(
    world: &World,
    pass: &mut Pass,
    alloc: Global,
    o: Obj,
    c: Class,
) -> Result<Pairs, AllocError>
    requires of { IsOf pass.old world.now }
    requires types { holds locks.Types (view pass.old) ≡ true }
    requires row { holds (locks.Row o) (view pass.old) ≡ true }
    requires values { AreValuesOf (dictionary_of (now_of world.now.limits (view pass.old)) o)
        (known_keys (view pass.old) c) (copied_values (view pass.old) o) }
    ensures of { IsOf pass.new world.now }
    ensures loaded { HasLoaded pass.old pass.new }
    ensures pairs { IfOk result (λ pairs. pairs ≡ dictionary_of (now_of world.now.limits (view pass.old)) o) }
{
    word_laws();
    let keys = load_keys(world, pass, c);
    let words = load_values(world, pass, o);
    pairs_of(alloc, &keys, &words)
}

/// The pairs of an object whose row is held, by its head.
fn held_pairs(
    world: &World,
    pass: &mut Pass,
    alloc: Global,
    o: Obj,
    head: u64,
) -> Result<Pairs, AllocError>
    requires of { IsOf pass.old world.now }
    requires alone { IsAlone (view pass.old) }
    requires one { HoldsOneRow (view pass.old) o }
    requires row { HasRow (now_of world.now.limits (view pass.old)) pass.old o }
    requires head { (head ≡ copied_heads (view pass.old) o) × IsHead head }
    requires says { HeadSays (now_of world.now.limits (view pass.old)) (view pass.old) o }
    requires made { o < length (now_of world.now.limits (view pass.old)).objects }
    ensures of { IsOf pass.new world.now }
    ensures read { HasRead pass.old pass.new }
    ensures row { HasRow (now_of world.now.limits (view pass.new)) pass.new o }
    ensures pairs { IfOk result (λ pairs.
        pairs ≡ dictionary_of (now_of world.now.limits (view pass.old)) (shape_of head).row) }
{
    if layout_in(head) == INLINE {
        inline_pairs(world, pass, alloc, o, class_in(head))
    } else {
        named_pairs(world, pass, alloc, o, row_in(head))
    }
}

/// What an object that is made has at the end. The pass holds the lock of the types and no other, before and after.
pub(crate) fn object_end(
    world: &World,
    pass: &mut Pass,
    alloc: Global,
    o: Obj,
) -> Result<ObjEnd, AllocError>
    requires of { IsOf pass.old world.now }
    requires alone { IsAlone (view pass.old) }
    requires only { HoldsTypesAlone (view pass.old) }
    requires made { o < length (now_of world.now.limits (view pass.old)).objects }
    ensures of { IsOf pass.new world.now }
    ensures read { HasRead pass.old pass.new }
    ensures end { IfOk result (λ end. IsEndOf (now_of world.now.limits (view pass.old)) o end) }
{
    take_row(world, pass, o);
    let head = load_head(world, pass, o);
    let own = held_pairs(world, pass, alloc, o, head);
    give_row(world, pass, o);
    Ok(ObjEnd {
        class: class_in(head),
        own: own?,
    })
}
