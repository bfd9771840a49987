//! What the class of a descriptor has, and how a write or a deletion goes on.
use at_value::{Reply, Value};

/// What the class of an object that is used as a descriptor has, each looked up along the order of that class and never
/// in the object's own dictionary.
///
/// After the Python language reference, "Implementing Descriptors".
#[derive(Clone, Copy, Debug, PartialEq, Eq)]
pub struct Three {
    /// `__get__`
    pub get: Option<Value>,
    /// `__set__`
    pub set: Option<Value>,
    /// `__delete__`
    pub del: Option<Value>,
}

/// How a write or a deletion goes on.
#[derive(Drop, Debug)]
pub enum Step {
    /// In the object's own dictionary.
    Own,
    /// With this reply of the class's value.
    Says(Reply),
}
