//! Values.
ghost use Rattle.std.specs.Prelude.{◌≡◌, ◌≤◌, ◌<◌, ◌+◌, ◌*◌, ◌^◌};
ghost use Rattle.at_value.specs.Widths.{functions, part_bits};
ghost use Rattle.at_value.specs.Parts.{part, held, IsPart};
ghost use Rattle.at_value.specs.Reading.{parts_at};

use crate::bits::{joined, split};
use crate::number::{Class, Func, Name, Obj};
use std::marker::Model;

/// A property: a function for reading, one for writing and one for deleting, each where it is given, after the
/// built-in `property` of Python. Contracts see a record of three options, `get`, `set` and `del`.
///
/// Each part is stored as the function's number and one more, and 0 where it isn't given, so that a `Value` stays
/// small.
#[derive(Clone, Copy, Debug, PartialEq, Eq)]
pub struct Prop {
    get: u16,
    set: u16,
    del: u16,
}

impl Model for Prop {
    ghost use Rattle.at_value.specs.Parts.{PropertyParts};

    ghost Value = { PropertyParts };

    ghost use Rattle.at_value.specs.Properties.{parts_of, inside_of, AreParts, inside_of-parts_of};

    ghost view = { parts_of };

    ghost invariant = { AreParts };

    ghost inverse = { inside_of };

    ghost inverse_ok = { λ p _. inside_of-parts_of p };
}

impl Prop {
    const PART_BITS: u32 = 16;

    /// The greatest number that holds a part.
    const MOST: u64 = Func::COUNT as u64;

    /// A property with these parts.
    pub fn new(get: Option<Func>, set: Option<Func>, del: Option<Func>) -> Prop
        ensures { result ≡ record { get = get; set = set; del = del } }
    {
        Prop {
            get: held_part(get),
            set: held_part(set),
            del: held_part(del),
        }
    }

    /// The function that reads.
    pub fn get(self) -> Option<Func>
        ensures { result ≡ self.get }
    {
        part_at(self.get)
    }

    /// The function that writes.
    pub fn set(self) -> Option<Func>
        ensures { result ≡ self.set }
    {
        part_at(self.set)
    }

    /// The function that deletes.
    pub fn del(self) -> Option<Func>
        ensures { result ≡ self.del }
    {
        part_at(self.del)
    }

    pub(crate) fn number(self) -> u64
        ensures same { result ≡ (held self.del * 2 ^ part_bits + held self.set) * 2 ^ part_bits + held self.get }
        ensures range { result < 2 ^ (3 * part_bits) }
        ensures parts { IsPart self.get × IsPart self.set × IsPart self.del }
    {
        let above = joined(u64::from(self.del), Self::PART_BITS, u64::from(self.set));
        joined(above, Self::PART_BITS, u64::from(self.get))
    }

    pub(crate) fn of_number(n: u64) -> Option<Prop>
        ensures { result ≡ parts_at n }
    {
        let (get, above) = split(n, Self::PART_BITS);
        let (set, del) = split(above, Self::PART_BITS);
        if get <= Self::MOST && set <= Self::MOST && del <= Self::MOST {
            Some(Prop {
                get: get as u16,
                set: set as u16,
                del: del as u16,
            })
        } else {
            None
        }
    }
}

fn held_part(part: Option<Func>) -> u16
    ensures same { result ≡ held part }
    ensures range { result ≤ functions }
{
    match part {
        Some(function) => function.number() + 1,
        None => 0,
    }
}

fn part_at(number: u16) -> Option<Func>
    requires { number ≤ functions }
    ensures { result ≡ part number }
{
    if number == 0 {
        None
    } else {
        Func::new(number - 1)
    }
}

/// A value, as an attribute, a variable or a reply has it.
#[derive(Clone, Copy, Debug, PartialEq, Eq)]
pub enum Value {
    /// Python's `None`.
    Nothing,
    /// An integer.
    Int(i32),
    /// A text, known by its number among the names and texts of the script.
    Text(Name),
    /// A function.
    Func(Func),
    /// A property.
    Prop(Prop),
    /// A staticmethod of this function.
    Static(Func),
    /// A classmethod of this function.
    ClassM(Func),
    /// A class.
    Class(Class),
    /// An object that is no class.
    Obj(Obj),
}
