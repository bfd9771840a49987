//! Lists of distinct texts. Contracts see each as the list of the texts.
ghost use Rattle.std.specs.Prelude.{◌≡◌, ◌<◌, ◌≤◌, ◌↔◌, [], length, IfSome, IfOk, OnErr, slice_get};
ghost use Rattle.std.specs.Option.{option_map, option_copied};
ghost use Rattle.at_name.specs.Texts.{AreDistinct, HasNoRoomFor, place_of, interned};

use indexmap::IndexSet;
use std::alloc::{AllocError, Global};
use std::marker::Model;

/// At most `MOST` distinct texts, each known by its place, in the order in which they came. Contracts see the list of
/// the texts, each as its bytes.
#[derive(Drop)]
pub struct Texts<const MOST: usize> {
    set: IndexSet<String>,
}

impl<const MOST: usize> Model for Texts<MOST> {
    ghost use Rattle.std.specs.Prelude.{List, ℕ, map};
    ghost use Rattle.std.specs.String.{string_bytes};

    ghost Value = { List (List ℕ) };

    ghost use Rattle.at_name.specs.Texts.{AreDistinct};

    ghost view = { λ t. map string_bytes t.set.keys };

    ghost invariant = { λ t. AreDistinct MOST (map string_bytes t.set.keys) };
}

impl<const MOST: usize> Texts<MOST> {
    /// No texts. It takes no memory.
    pub fn new(alloc: Global) -> Texts<MOST>
        ensures { result ≡ [] }
    {
        Texts {
            set: IndexSet::new(alloc),
        }
    }

    /// How many texts there are.
    pub fn len(&self) -> usize
        ensures same { result ≡ length self.now }
        ensures most { result ≤ MOST }
        ensures distinct { AreDistinct MOST self.now }
    {
        self.set.len()
    }

    /// The text at this place, and none exactly from the length on.
    pub fn text(&self, place: usize) -> Option<&str>
        ensures { option_copied result ≡ slice_get self.now place }
    {
        match self.set.get_index(place) {
            Some(text) => Some(text.as_str()),
            None => None,
        }
    }

    /// The place of a text, and none exactly where it isn't there.
    pub fn place_of(&self, text: &str) -> Option<usize>
        ensures same { result ≡ place_of text.now self.now }
        ensures range { IfSome result (λ place. place < MOST) }
    {
        self.set.get_index_of(text)
    }

    /// The place of a text, which is added at the end where it isn't there. It answers `None` exactly where it isn't
    /// there and `MOST` texts are. A text that is there takes no memory. Where no place is given, nothing changes.
    pub fn intern(&mut self, text: &str) -> Result<Option<usize>, AllocError>
        ensures same { IfOk result (λ place. interned MOST text.now self.old ≡ option_map (λ n. (n, self.new)) place) }
        ensures range { IfOk result (λ place. IfSome place (λ n. n < MOST)) }
        ensures full { (result ≡ Ok None) ↔ HasNoRoomFor MOST text.now self.old }
        ensures unchanged { IfOk result (λ place. place ≡ None → self.new ≡ self.old) }
        ensures absent { OnErr result (place_of text.now self.old ≡ None) }
        ensures err { OnErr result (self.new ≡ self.old) }
    {
        if let Some(place) = self.set.get_index_of(text) {
            return Ok(Some(place));
        }
        let place = self.set.len();
        if place == MOST {
            return Ok(None);
        }
        let alloc = *self.set.allocator();
        self.set.insert(String::from_str(alloc, text)?)?;
        Ok(Some(place))
    }
}
