//! The locks of the shared table.
use at_value::Obj;

/// A lock.
#[derive(Clone, Copy, Debug, PartialEq, Eq)]
pub enum Lock {
    /// That of the types: classes, tags, keys, numbers of passes, and the class and dictionary of each object.
    Types,
    /// That of the row of an object: its head, its inline values, and the dictionary that was born with it.
    Row(Obj),
}
