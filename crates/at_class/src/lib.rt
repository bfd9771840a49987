//! Writes of classes under locks: classes made, names put and cut, and bases assigned.
#![tactic(auto)]

mod changing;
pub mod fault;
#[cfg(test)]
mod tests;
pub mod writing;

pub use fault::ClassFault;
pub use writing::{bases, cut, new_class, put};
