//! What the word of a head says.
ghost use Rattle.std.specs.Prelude.{◌≡◌, ◌<◌, ◌≤◌, ◌==◌, ◌/◌, ◌%◌, ◌^◌};
ghost use Rattle.at_core.specs.Heads.{sequence_bits, dictionary, IsHead};
ghost use Rattle.at_head.specs.HeadWords.{HasWord, layout_number, word_of};

use at_value::{Class, Obj};

const SEQUENCE_BITS: u32 = 40;

const CLASS_BITS: u32 = 8;

const LAYOUT_BITS: u32 = 2;

const ROW_BITS: u32 = 12;

/// Where an object has its values.
#[derive(Clone, Copy, Debug, PartialEq, Eq)]
pub enum Layout {
    /// The object isn't made.
    Unmade,
    /// In its inline words, under the keys of its class.
    Inline,
    /// In the dictionary of a row.
    Dictionary,
}

/// What a head says: how often it was opened and closed, and the object's class, layout and row.
#[derive(Clone, Copy, Debug, PartialEq, Eq)]
pub struct Head {
    /// Even while nobody writes the object; it rises by 1 each time that the head is opened or closed.
    pub sequence: u64,
    pub class: Class,
    pub layout: Layout,
    /// The row of the dictionary that the object names. An inline object names that of its own row.
    pub row: Obj,
}

/// A field of a word, so many bits wide from a bit on.
fn field(word: u64, from: u32, width: u32) -> u64
    requires { (from < 64) × (width < 64) }
    ensures value { result ≡ word / 2 ^ from % 2 ^ width }
    ensures range { result < 2 ^ width }
{
    (word >> from) % (1 << width)
}

impl Layout {
    fn of(number: u64) -> Layout
        ensures { number ≤ dictionary → layout_number result ≡ number }
    {
        match number {
            0 => Layout::Unmade,
            1 => Layout::Inline,
            _ => Layout::Dictionary,
        }
    }

    fn number(self) -> u64
        ensures { result ≡ layout_number self }
    {
        match self {
            Layout::Unmade => 0,
            Layout::Inline => 1,
            Layout::Dictionary => 2,
        }
    }
}

impl Head {
    /// What a word of a head says.
    pub fn of_word(word: u64) -> Head
        requires { IsHead word }
        ensures { HasWord result word }
    {
        let class = field(word, SEQUENCE_BITS, CLASS_BITS);
        let layout = field(word, SEQUENCE_BITS + CLASS_BITS, LAYOUT_BITS);
        let row = field(word, SEQUENCE_BITS + CLASS_BITS + LAYOUT_BITS, ROW_BITS);
        Head {
            sequence: field(word, 0, SEQUENCE_BITS),
            class: Class::new(class as u16).unwrap(),
            layout: Layout::of(layout),
            row: Obj::new(row as u16).unwrap(),
        }
    }

    /// The word of a head whose sequence is below 2^40.
    pub fn word(&self) -> u64
        requires { self.now.sequence < 2 ^ sequence_bits }
        ensures word { result ≡ word_of self.now }
        ensures says { HasWord self.now result }
        ensures head { IsHead result }
    {
        let above = u64::from(self.row.number()) << LAYOUT_BITS | self.layout.number();
        let above = above << CLASS_BITS | u64::from(self.class.number());
        above << SEQUENCE_BITS | self.sequence
    }

    /// Whether nobody writes the object.
    pub fn is_whole(&self) -> bool
        ensures { result ≡ (self.now.sequence % 2 == 0) }
    {
        self.sequence % 2 == 0
    }
}
