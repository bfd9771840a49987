//! The table of names. Contracts see it as the list of the texts, each as its bytes.
ghost use Rattle.std.specs.Prelude.{◌≡◌, ◌↔◌, length, None, Some, IfOk, OnErr, slice_get};
ghost use Rattle.std.specs.Option.{option_copied};
ghost use Rattle.at_value.specs.Widths as widths;
ghost use Rattle.at_name.specs.Texts.{AreNames, HasNoRoomFor, place_of, interned, special_texts};

use crate::fault::NameFault;
use crate::texts::Texts;
use at_value::Name;
use std::alloc::{AllocError, Global};
use std::marker::Model;

const NAMES_MOST: usize = Name::COUNT as usize;

/// Distinct texts, each known by its place; the special names stand first. Contracts see the list of the texts.
#[derive(Drop)]
pub struct Names {
    texts: Texts<NAMES_MOST>,
}

impl Model for Names {
    ghost use Rattle.std.specs.Prelude.{List, ℕ};

    ghost Value = { List (List ℕ) };

    ghost use Rattle.at_name.specs.Texts.{AreNames};

    ghost view = { λ n. n.texts };

    ghost invariant = { λ n. AreNames n.texts };
}

impl Names {
    /// A table of the special names: 0 `__get__`, 1 `__set__`, 2 `__delete__`, 3 `__getattr__`, 4 `__init__`.
    pub fn new(alloc: Global) -> Result<Names, AllocError>
        ensures { IfOk result (λ names. names ≡ special_texts) }
    {
        let mut texts = Texts::new(alloc);
        texts.intern("__get__")?;
        texts.intern("__set__")?;
        texts.intern("__delete__")?;
        texts.intern("__getattr__")?;
        texts.intern("__init__")?;
        Ok(Names { texts })
    }

    /// How many texts there are, from 5 to 4,096.
    pub fn len(&self) -> u16
        ensures same { result ≡ length self.now }
        ensures names { AreNames self.now }
    {
        self.texts.len() as u16
    }

    /// The text with this number, and none exactly from the length on.
    pub fn text(&self, n: Name) -> Option<&str>
        ensures { option_copied result ≡ slice_get self.now n }
    {
        self.texts.text(usize::from(n.number()))
    }

    /// The number of the text, and none exactly where it isn't there.
    pub fn find(&self, text: &str) -> Option<Name>
        ensures { result ≡ place_of text.now self.now }
    {
        Name::new(self.texts.place_of(text)? as u16)
    }

    /// The number of the text, which is added at the end where it isn't there. A text that is there keeps its number
    /// and takes no memory. It answers `TooMany` exactly where the text isn't there and there are 4,096 texts, and
    /// `NoMemory` where the text isn't there and memory is refused; then nothing changes.
    pub fn intern(&mut self, text: &str) -> Result<Name, NameFault>
        ensures ok { IfOk result (λ n. interned widths.names text.now self.old ≡ Some (n, self.new)) }
        ensures number { IfOk result (λ n. place_of text.now self.new ≡ Some n) }
        ensures too_many { (result ≡ Err NameFault.TooMany) ↔ HasNoRoomFor widths.names text.now self.old }
        ensures absent { OnErr result (place_of text.now self.old ≡ None) }
        ensures err { OnErr result (self.new ≡ self.old) }
    {
        match self.texts.intern(text)? {
            Some(place) => Ok(Name::new(place as u16).unwrap()),
            None => Err(NameFault::TooMany),
        }
    }
}
