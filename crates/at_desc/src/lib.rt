//! The binding tables: what a value that is found on a class gives to a reader, and how it takes a write or a deletion.
//! They take no memory.
#![tactic(auto)]

mod descriptor;
mod reading;
#[cfg(test)]
mod tests;
mod writing;

pub use descriptor::{Step, Three};
pub use reading::{bind_class, bind_get, bind_special};
pub use writing::{bind_del, bind_set};
