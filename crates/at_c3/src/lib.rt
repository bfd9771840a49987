//! The C3 merge of lists of numbers, and the order of a class by it (Barrett and others, "A
//! Monotonic Superclass Linearization for Dylan", 1996; Python's method resolution order).
#![tactic(auto)]

mod counts;
mod fault;
pub mod laws;
mod merging;
#[cfg(test)]
mod tests;

pub use fault::MergeFault;
pub use merging::{List, merge, order, order_of_slices};
