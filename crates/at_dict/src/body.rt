//! A dictionary: a map from names to values with spare places.
ghost use Rattle.std.specs.Prelude.{◌≡◌, ◌<◌, ◌≤◌, ◌+◌, ◌↔◌, ◌⊎◌, [], IsTrue, IsOk, IsSome, length, OnOk, OnErr, slice_get, slice_index};
ghost use Rattle.at_value.specs.Pairs.{IsRising, value_at, with_value, without};
ghost use Rattle.at_dict.specs.Dictionary.{spare_with, spare_without};
ghost use Rattle.at_dict.specs.Inline.{inline_most, AreInline, AreValuesOf};

use at_value::{Name, Value, from_word, sorted};
use std::alloc::{AllocError, Global};
use std::marker::Model;

/// A map from names to values, with spare places: a new name takes one and needs no further memory. Contracts see a
/// record of the pairs by rising name number, `map`, and of the number of spare places, `spare`.
#[derive(Drop, Debug)]
pub struct Body {
    items: Vec<(Name, Value)>,
}

impl Model for Body {
    ghost use Rattle.std.specs.Prelude.{◌-◌, vec_len, vec_capacity};
    ghost use Rattle.at_value.specs.Pairs.{IsRising};
    ghost use Rattle.at_dict.specs.Dictionary.{Dictionary};

    ghost Value = { Dictionary };

    ghost view = { λ b. record { map = b.items.items; spare = vec_capacity b.items - vec_len b.items } };

    ghost invariant = { λ b. IsRising b.items.items };
}

impl Body {
    /// How many inline values there are at most.
    pub const INLINE: usize = 8;

    /// A dictionary without names and without spare places. It takes no memory.
    pub fn new(alloc: Global) -> Body
        ensures { result ≡ record { map = []; spare = 0 } }
    {
        Body {
            items: Vec::new(alloc),
        }
    }

    /// Makes at least k spare places; none is lost. It fails only where there are fewer and memory is refused, and then
    /// nothing changes.
    pub fn reserve(&mut self, k: usize) -> Result<(), AllocError>
        ensures map { self.new.map ≡ self.old.map }
        ensures ok { OnOk result (k ≤ self.new.spare) }
        ensures spare { self.old.spare ≤ self.new.spare }
        ensures enough { k ≤ self.old.spare → IsOk result }
        ensures err { OnErr result (self.new ≡ self.old) }
    {
        self.items.reserve(k)
    }

    /// How many names there are.
    pub fn len(&self) -> usize
        ensures same { result ≡ length self.now.map }
        ensures rising { IsRising self.now.map }
    {
        self.items.len()
    }

    /// Whether there is no name.
    pub fn is_empty(&self) -> bool
        ensures { IsTrue result ↔ (self.now.map ≡ []) }
    {
        self.items.is_empty()
    }

    /// The value under the name, and none exactly where the name isn't there. The search is binary.
    pub fn get(&self, n: Name) -> Option<Value>
        ensures { result ≡ value_at n self.now.map }
    {
        sorted::get(n, &self.items)
    }

    /// Puts the value under the name, in the place of what stood there. A name that isn't there takes one spare place,
    /// a name that is there none.
    pub fn put(&mut self, n: Name, v: Value)
        requires { IsSome (value_at n self.old.map) ⊎ (0 < self.old.spare) }
        ensures map { self.new.map ≡ with_value n v self.old.map }
        ensures spare { self.new.spare ≡ spare_with n self.old }
    {
        // There is room, so this is Ok.
        let _ = sorted::put(n, v, &mut self.items);
    }

    /// Takes the name out, and gives the value that stood there. The place of a name that was there is spare then.
    pub fn cut(&mut self, n: Name) -> Option<Value>
        ensures value { result ≡ value_at n self.old.map }
        ensures map { self.new.map ≡ without n self.old.map }
        ensures spare { self.new.spare ≡ spare_without n self.old }
    {
        sorted::cut(n, &mut self.items)
    }

    /// Fills an empty dictionary with inline values: under each key, which is the number of a name and 1, the value of
    /// the word beside it, if that isn't 0. Each pair takes one spare place. It asks that each key is 0 or that of a name,
    /// that no name has two, and that each word is 0 or that of a value, and 0 where its key is 0.
    pub fn from_inline(&mut self, keys: &[u64; Body::INLINE], words: &[u64; Body::INLINE])
        requires empty { self.old.map ≡ [] }
        requires room { inline_most ≤ self.old.spare }
        requires inline { AreInline (slice_index keys.now) (slice_index words.now) }
        ensures map { AreValuesOf self.new.map (slice_index keys.now) (slice_index words.now) }
        ensures spare { self.new.spare + length self.new.map ≡ self.old.spare }
    {
        for i in 0..Body::INLINE {
            if let Some(v) = from_word(words[i]) {
                self.put(Name::new((keys[i] - 1) as u16).unwrap(), v);
            }
        }
    }

    /// The pair at this index by rising name number, and none exactly from the length on.
    pub fn at(&self, i: usize) -> Option<(Name, Value)>
        ensures { result ≡ slice_get self.now.map i }
    {
        self.items.get(i).copied()
    }
}
