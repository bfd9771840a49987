//! The dictionary of an object's attributes: a map from names to values that takes its memory in advance.
#![tactic(auto)]

mod body;
#[cfg(test)]
mod tests;

pub use body::Body;
