//! The data model: worlds of classes, objects and dictionaries, the order of a class, what each operation replies and
//! does to a world, the history of a list of operations, and the final namespaces.
#![tactic(auto)]

mod last;
pub mod laws;
mod rows;
#[cfg(test)]
mod tests;

pub use last::{ClassEnd, ClassEnds, Final, ObjEnd, ObjEnds};
pub use rows::{ClassRow, Object};
