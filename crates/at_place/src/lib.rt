//! The count of writes: loading it, intending an operation, and writing that operation at the next place.
#![tactic(auto)]

pub mod counting;
#[cfg(test)]
mod tests;

pub use counting::{Moved, commit, commit_if, intend, now};
