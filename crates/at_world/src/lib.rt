//! The data model run as it is written: `Plain`, a world and the operations on it one after another. The rows, lines
//! and namespaces that go with it are those of the crates below.
#![tactic(auto)]

mod plain;
#[cfg(test)]
mod tests;

pub use at_line::{Line, LineOp, LineReply, Lines, Local, Ran, What};
pub use at_model::{ClassEnd, ClassEnds, Final, ObjEnd, ObjEnds};
pub use plain::Plain;
