//! Short lists of classes. Contracts see each as the list of the classes' numbers.
ghost use Rattle.std.specs.Prelude.{◌≡◌, ◌<◌, ◌≤◌, ℕ, List, [], ◌∷◌, ◌++◌, length, IfOk, IsOk, IsTrue, ◌↔◌, OnOk};
ghost use Rattle.std.specs.Prelude.{OnErr, slice_get};
ghost use Rattle.at_value.specs.Classes.{AreClasses};
ghost use Rattle.at_value.specs.Widths.{most_bases};

use crate::number::Class;
use std::alloc::{AllocError, Global};
use std::error::Error;
use std::fmt;
use std::marker::Model;

/// The answer to a ninth base.
#[derive(Clone, Copy, Debug, PartialEq, Eq)]
pub struct BasesFull;

impl fmt::Display for BasesFull {
    fn fmt<W: fmt::Write>(&self, f: &mut fmt::Formatter<W>) -> fmt::Result {
        write!(f, "a class has at most eight bases")
    }
}

impl Error for BasesFull {}

/// The bases of a class: at most eight classes, in order. Unused cells hold class 0.
#[derive(Clone, Copy, Debug, PartialEq, Eq)]
pub struct Bases {
    items: [Class; Bases::MOST],
    len: u8,
}

impl Model for Bases {
    ghost use Rattle.std.specs.Prelude.{List, ℕ, length, take};

    ghost Value = { List ℕ };

    ghost use Rattle.at_value.specs.Lists.{AreCells, cells_of, cells_again};

    ghost view = { λ b. take b.len b.items };

    ghost invariant = { λ b. AreCells b.len b.items };

    ghost inverse = { λ list. record { items = cells_of list; len = length list } };

    ghost inverse_ok = { cells_again };
}

impl Bases {
    /// How many bases a class may have.
    pub const MOST: usize = 8;

    /// No base.
    pub fn none() -> Bases
        ensures { result ≡ [] }
    {
        Bases {
            items: [Class::object(); Self::MOST],
            len: 0,
        }
    }

    /// The one base c.
    pub fn only(c: Class) -> Bases
        ensures { result ≡ c ∷ [] }
    {
        let mut bases = Bases::none();
        let _ = bases.push(c);
        bases
    }

    /// Adds a class at the end. It answers `BasesFull` exactly where eight stand, and then nothing changes.
    pub fn push(&mut self, c: Class) -> Result<(), BasesFull>
        ensures ok { OnOk result ((length self.old < most_bases) × (self.new ≡ self.old ++ c ∷ [])) }
        ensures full { OnErr result ((length self.old ≡ most_bases) × (self.new ≡ self.old)) }
    {
        let at = usize::from(self.len);
        if at == Self::MOST {
            return Err(BasesFull);
        }
        self.items[at] = c;
        self.len += 1;
        Ok(())
    }

    /// How many bases there are, at most eight.
    pub fn len(&self) -> usize
        ensures same { result ≡ length self.now }
        ensures most { result ≤ most_bases }
    {
        usize::from(self.len)
    }

    /// Whether there is no base.
    pub fn is_empty(&self) -> bool
        ensures { IsTrue result ↔ (self.now ≡ []) }
    {
        self.len == 0
    }

    /// The bases, in order.
    pub fn as_slice(&self) -> &[Class]
        ensures { result.now ≡ self.now }
    {
        &self.items[..usize::from(self.len)]
    }

    /// The base at this index, and none exactly from the length on.
    pub fn at(&self, i: usize) -> Option<Class>
        ensures { result ≡ slice_get self.now i }
    {
        self.as_slice().get(i).copied()
    }
}

/// A list of classes of any length, one byte each.
#[derive(Drop, Debug)]
pub struct ClassList {
    items: Vec<u8>,
}

impl Model for ClassList {
    ghost use Rattle.std.specs.Prelude.{List, ℕ};

    ghost Value = { List ℕ };

    ghost use Rattle.at_value.specs.Classes.{AreClasses};

    ghost view = { λ l. l.items.items };

    ghost invariant = { λ l. AreClasses l.items.items };
}

impl ClassList {
    /// A list of these classes. The empty list takes no memory.
    pub fn copy_of(alloc: Global, list: &[Class]) -> Result<ClassList, AllocError>
        ensures copied { IfOk result (λ copy. copy ≡ list.now) }
        ensures empty { list.now ≡ [] → IsOk result }
    {
        let mut items = Vec::with_capacity(alloc, list.len())?;
        for class in list {
            items.push_reserved(class.number() as u8);
        }
        Ok(ClassList { items })
    }

    /// A list of its own of the same classes. The empty list takes no memory.
    pub fn copy(&self, alloc: Global) -> Result<ClassList, AllocError>
        ensures copied { IfOk result (λ copy. copy ≡ self.now) }
        ensures empty { self.now ≡ [] → IsOk result }
    {
        let mut items = Vec::with_capacity(alloc, self.items.len())?;
        items.extend_from_slice(&self.items)?;
        Ok(ClassList { items })
    }

    /// The list of the classes with these numbers. The empty list takes no memory.
    pub fn of_numbers(alloc: Global, numbers: &[u16]) -> Result<ClassList, AllocError>
        requires { AreClasses numbers.now }
        ensures copied { IfOk result (λ list. list ≡ numbers.now) }
        ensures empty { numbers.now ≡ [] → IsOk result }
    {
        let mut items = Vec::with_capacity(alloc, numbers.len())?;
        for i in 0..numbers.len() {
            items.push_reserved(numbers[i] as u8);
        }
        Ok(ClassList { items })
    }

    /// How many classes there are.
    pub fn len(&self) -> usize
        ensures { result ≡ length self.now }
    {
        self.items.len()
    }

    /// Whether there is no class.
    pub fn is_empty(&self) -> bool
        ensures { IsTrue result ↔ (self.now ≡ []) }
    {
        self.items.is_empty()
    }

    /// The class at this index, and none exactly from the length on.
    pub fn at(&self, i: usize) -> Option<Class>
        ensures { result ≡ slice_get self.now i }
    {
        match self.items.get(i) {
            Some(number) => Class::new(u16::from(*number)),
            None => None,
        }
    }
}
