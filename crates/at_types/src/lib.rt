//! The classes as they are kept for look-ups: their records, a stored order beside each, the tree of subclasses, the
//! count of objects, the numbers of passes, and the tags that stand for what a class finds.
#![tactic(auto)]

mod classes;
pub mod laws;
mod tags;
#[cfg(test)]
mod tests;
mod types;

pub use tags::{KeptBy, LimboRow, TagCounts};
pub use types::Types;
