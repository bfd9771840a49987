//! A map from names to values. Contracts see it as the list of its pairs by rising name number.
ghost use Rattle.std.specs.Prelude.{◌≡◌, ◌↔◌, List, [], IsTrue, IfOk, IsOk, IsSome, length, OnOk, OnErr, slice_get};
ghost use Rattle.at_value.specs.Pairs.{IsRising, value_at, with_value, without, MapLaws};
ghost use Rattle.at_value.specs.declared.value.Value as value;

use crate::number::Name;
use crate::sorted;
use crate::value::Value;
use std::alloc::{AllocError, Global};
use std::marker::Model;

/// A map from names to values, in the order of rising name numbers.
#[derive(Drop, Debug)]
pub struct Pairs {
    items: Vec<(Name, Value)>,
}

impl Model for Pairs {
    ghost use Rattle.std.specs.Prelude.{List, ℕ};
    ghost use Rattle.at_value.specs.declared.value.Value as value;

    ghost Value = { List (ℕ × value.Value) };

    ghost use Rattle.at_value.specs.Pairs.{IsRising};

    ghost view = { λ p. p.items.items };

    ghost invariant = { λ p. IsRising p.items.items };
}

impl Pairs {
    /// A map without names. It takes no memory.
    pub fn new(alloc: Global) -> Pairs
        ensures { result ≡ [] }
    {
        Pairs {
            items: Vec::new(alloc),
        }
    }

    /// The map of these pairs, which come by rising name number. It takes no memory.
    pub fn of(items: Vec<(Name, Value)>) -> Pairs
        requires { IsRising items.items }
        ensures { result ≡ items.items }
    {
        Pairs { items }
    }

    /// A map of its own with the same names and values. Without names it takes no memory.
    pub fn copy(&self, alloc: Global) -> Result<Pairs, AllocError>
        ensures copied { IfOk result (λ copy. copy ≡ self.now) }
        ensures empty { self.now ≡ [] → IsOk result }
    {
        let mut items = Vec::with_capacity(alloc, self.items.len())?;
        items.extend_from_slice(&self.items)?;
        Ok(Pairs { items })
    }

    /// How many names there are.
    pub fn len(&self) -> usize
        ensures same { result ≡ length self.now }
        ensures rising { IsRising self.now }
    {
        self.items.len()
    }

    /// Whether there is no name.
    pub fn is_empty(&self) -> bool
        ensures { IsTrue result ↔ (self.now ≡ []) }
    {
        self.items.is_empty()
    }

    /// The pair at this index by rising name number, and none exactly from the length on.
    pub fn at(&self, i: usize) -> Option<(Name, Value)>
        ensures { result ≡ slice_get self.now i }
    {
        self.items.get(i).copied()
    }

    /// The value under the name, and none exactly where the name isn't there.
    pub fn get(&self, n: Name) -> Option<Value>
        ensures { result ≡ value_at n self.now }
    {
        sorted::get(n, &self.items)
    }

    /// Puts the value under the name, in the place of what stood there. It fails only where the name isn't there and
    /// memory is refused, and then nothing changes.
    pub fn put(&mut self, n: Name, v: Value) -> Result<(), AllocError>
        ensures ok { OnOk result (self.new ≡ with_value n v self.old) }
        ensures err { OnErr result (self.new ≡ self.old) }
        ensures there { IsSome (value_at n self.old) → IsOk result }
    {
        sorted::put(n, v, &mut self.items)
    }

    /// Takes the name out, and gives the value that stood there.
    pub fn cut(&mut self, n: Name) -> Option<Value>
        ensures value { result ≡ value_at n self.old }
        ensures rest { self.new ≡ without n self.old }
    {
        sorted::cut(n, &mut self.items)
    }

    /// What is true of every map: a change is read back at its name and nowhere else, and the names stay rising. It
    /// does nothing.
    pub fn map_laws()
        ensures { MapLaws value.Value }
    {}
}
