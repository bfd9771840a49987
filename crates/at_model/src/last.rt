//! The final namespaces of a run.
use at_value::{Class, ClassList, Pairs, Sequence};

/// A class at the end of a run: its order and its own names.
#[derive(Drop, Debug)]
pub struct ClassEnd {
    pub class: Class,
    pub order: ClassList,
    pub own: Pairs,
}

/// An object at the end of a run: its class and its names.
#[derive(Drop, Debug)]
pub struct ObjEnd {
    pub class: Class,
    pub own: Pairs,
}

/// The classes that were made, by rising number.
pub type ClassEnds = Sequence<ClassEnd>;

/// The objects, by number.
pub type ObjEnds = Sequence<ObjEnd>;

/// The final namespaces: those of the classes that were made, and those of the objects.
#[derive(Drop, Debug)]
pub struct Final {
    pub classes: ClassEnds,
    pub objects: ObjEnds,
}
