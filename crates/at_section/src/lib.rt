//! Critical sections: one or two rows, and the lock of the types. A section is suspended where its pass would wait for another
//! lock while it has its own, and takes its locks again when the section within it has ended.
#![tactic(auto)]

pub mod ended;
pub mod laws;
mod naming;
mod noting;
pub mod section;
mod taking;
#[cfg(test)]
mod tests;

pub use ended::{Ended, How};
pub use section::{begin, begin_types, end, end_types};
