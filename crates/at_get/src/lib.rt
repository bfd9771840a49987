//! Reads of objects.
#![tactic(auto)]

pub mod inline;
#[cfg(test)]
mod tests;

pub use inline::{InlineValue, inline_value};
