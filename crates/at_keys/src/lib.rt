//! The keys of classes: the names under which the inline values of their objects stand.
#![tactic(auto)]

pub mod appending;
pub mod scanning;
#[cfg(test)]
mod tests;

pub use appending::{KeysFull, append};
pub use scanning::{KeyAt, key_at, scan};
