//! What a world has of a class and of an object.
use at_value::{Bases, Class, Obj, Pairs};

/// A class that is made: its bases in order, and its own names.
#[derive(Drop, Debug)]
pub struct ClassRow {
    pub bases: Bases,
    pub own: Pairs,
}

/// An object: its class, and the dictionary that it names, by the number of the object that was born with it.
#[derive(Clone, Copy, Debug, PartialEq, Eq)]
pub struct Object {
    pub class: Class,
    pub dict: Obj,
}
