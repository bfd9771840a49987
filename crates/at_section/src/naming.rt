//! What notes name, and which of it a pass holds.
ghost use Rattle.std.specs.Prelude.{◌≡◌, ◌<◌, ◌&&◌, ◌++◌, true, Some, length, slice_get};
ghost use Rattle.at_core.specs.declared.note.Note as noted;
ghost use Rattle.at_core.specs.Passes.{notes, view};
ghost use Rattle.at_section.specs.Deeds.{held, names as names_word, wanting as first_wanting, word_of};
ghost use Rattle.at_section.specs.Sections.{after_give, after_load, in_order, locks_of, row_lock, rows, two_rows};
ghost use Rattle.at_section.specs.Surfaces.{named};

use at_core::{Lock, Note, Pass};
use at_value::Obj;

/// Two objects by rising number; one where both are the same.
fn two_sorted(o: &Obj, p: &Obj) -> (Option<Obj>, Option<Obj>)
    ensures { row_lock result.0 ++ row_lock result.1 ≡ two_rows o.now p.now }
{
    if o.number() == p.number() {
        return (Some(*o), None);
    }
    if o.number() < p.number() {
        (Some(*o), Some(*p))
    } else {
        (Some(*p), Some(*o))
    }
}

/// The objects of one or two rows by rising number; one where both are the same.
fn sorted(a: Option<Obj>, b: Option<Obj>) -> (Option<Obj>, Option<Obj>)
    ensures { row_lock result.0 ++ row_lock result.1 ≡ rows a b }
{
    match (&a, &b) {
        (Some(o), Some(p)) => two_sorted(o, p),
        _ => (a, b),
    }
}

/// The note of a section that has its locks.
pub(crate) fn note_of(types: bool, a: Option<Obj>, b: Option<Obj>) -> Note
    ensures names { locks_of result ≡ in_order types a b }
    ensures new { (result.types ≡ types) × (result.active ≡ true) × (result.given ≡ 0) }
{
    let (a, b) = sorted(a, b);
    Note {
        types,
        a,
        b,
        active: true,
        given: 0,
    }
}

/// Whether the note names the lock.
pub(crate) fn names(note: &Note, lock: &Lock) -> bool
    ensures { result ≡ names_word (locks_of note.now) (word_of lock.now) }
{
    match lock {
        Lock::Types => note.types,
        Lock::Row(o) => note.a == Some(*o) || note.b == Some(*o),
    }
}

/// The lock of a row, where the pass doesn't hold it.
fn wanting_row(pass: &Pass, o: Option<Obj>) -> Option<Lock>
    ensures { result ≡ first_wanting (row_lock o) (held (view pass.now)) }
{
    let lock = Lock::Row(o?);
    if pass.has_lock(&lock) {
        None
    } else {
        Some(lock)
    }
}

/// The first lock of the note that the pass doesn't hold.
pub(crate) fn wanting(pass: &Pass, note: &Note) -> Option<Lock>
    ensures { result ≡ first_wanting (locks_of note.now) (held (view pass.now)) }
{
    if note.types && !pass.has_lock(&Lock::Types) {
        return Some(Lock::Types);
    }
    match wanting_row(pass, note.a) {
        None => wanting_row(pass, note.b),
        lock => lock,
    }
}

/// The note of a section once a lock is given.
pub(crate) fn without_lock(note: &Note, lock: &Lock) -> Note
    ensures { result ≡ after_give lock.now note.now }
{
    if !note.active || !names(note, lock) {
        return *note;
    }
    let given = if note.given < u32::MAX {
        note.given + 1
    } else {
        u32::MAX
    };
    Note {
        active: false,
        given,
        ..*note
    }
}

/// The note of a section once the place is loaded: it has its locks where the pass holds all.
pub(crate) fn with_locks(pass: &Pass, note: &Note) -> Note
    ensures { result ≡ after_load (held (view pass.now)) note.now }
{
    let active = note.active || wanting(pass, note).is_none();
    Note { active, ..*note }
}

/// Whether the section with so many around it has its locks and names the lock.
fn names_at(pass: &Pass, i: u8, lock: &Lock) -> bool
    requires { i < length (notes pass.now) }
    ensures { (n : noted.Note) × (slice_get (notes pass.now) i ≡ Some n)
        × (result ≡ (n.active && names_word (locks_of n) (word_of lock.now))) }
{
    let Some(note) = pass.note_at(i) else {
        unreachable!()
    };
    note.active && names(&note, lock)
}

/// Whether a section that has its locks names the lock.
pub(crate) fn is_named(pass: &Pass, lock: &Lock) -> bool
    ensures { result ≡ named lock.now (notes pass.now) }
{
    for i in 0..pass.sections() {
        if names_at(pass, i, lock) {
            return true;
        }
    }
    false
}
