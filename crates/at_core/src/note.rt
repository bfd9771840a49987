//! The notes of a pass: one for each critical section that it is in, the innermost last. They are a list of the pass's own, of
//! which no step knows.
ghost use Rattle.std.specs.Prelude.{◌≡◌, ◌<◌, ◌≤◌, ◌∷◌, [], ◌++◌, length, slice_get, slice_set, IfSome, IfNone};
ghost use Rattle.at_core.specs.Passes.{notes, IsNoted};

use crate::world::Pass;
use at_value::Obj;

/// How many notes a pass has at most.
pub const MOST_NOTES: usize = 20;

/// What is noted of a critical section.
#[derive(Clone, Copy, Debug, Default, PartialEq, Eq)]
pub struct Note {
    /// Whether it names the lock of the types.
    pub types: bool,
    /// The objects whose rows it names.
    pub a: Option<Obj>,
    pub b: Option<Obj>,
    /// Whether it has its locks. One that hasn't is suspended.
    pub active: bool,
    /// How often it was given back.
    pub given: u32,
}

impl Pass {
    /// Adds a note as the innermost. There are fewer than 20.
    pub fn push_note(&mut self, n: Note)
        requires { length (notes self.old) < MOST_NOTES }
        ensures same { IsNoted self.old self.new }
        ensures pushed { notes self.new ≡ notes self.old ++ n ∷ [] }
    {
        let Note {
            types,
            a,
            b,
            active,
            given,
        } = n;
        self.notes.push(Note {
            types,
            a,
            b,
            active,
            given,
        });
    }

    /// Takes the innermost note away. `None` exactly where there is none.
    pub fn pop_note(&mut self) -> Option<Note>
        ensures same { IsNoted self.old self.new }
        ensures some { IfSome result (λ n. notes self.old ≡ notes self.new ++ n ∷ []) }
        ensures none { IfNone result ((notes self.old ≡ []) × (notes self.new ≡ [])) }
    {
        self.notes.pop()
    }

    /// The note with `i` around it. `None` exactly where there are no more than `i`.
    pub fn note_at(&self, i: u8) -> Option<Note>
        ensures { result ≡ slice_get (notes self.now) i }
    {
        self.notes.as_slice().get(usize::from(i)).copied()
    }

    /// Puts a note in the place of the one with `i` around it.
    pub fn set_note(&mut self, i: u8, n: Note)
        requires { i < length (notes self.old) }
        ensures same { IsNoted self.old self.new }
        ensures set { notes self.new ≡ slice_set (notes self.old) i n }
    {
        self.notes[usize::from(i)] = n;
    }

    /// In how many critical sections the pass is: so many notes it has.
    pub fn sections(&self) -> u8
        ensures { (result ≡ length (notes self.now)) × (result ≤ MOST_NOTES) }
    {
        self.notes.len() as u8
    }
}
