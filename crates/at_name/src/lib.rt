//! Lists of distinct texts, each known by its place, and the table of the names and texts of a script.
#![tactic(auto)]

mod fault;
mod names;
#[cfg(test)]
mod tests;
mod texts;

pub use fault::NameFault;
pub use names::Names;
pub use texts::Texts;
