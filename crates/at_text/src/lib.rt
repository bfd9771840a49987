//! The text of a transcript: what a run did, written in the words of its script.
#![tactic(auto)]

pub mod examples;
mod last;
pub mod laws;
mod line;
mod operation;
mod order;
mod pen;
mod reply;
#[cfg(test)]
mod tests;
mod transcript;
mod value;
pub mod words;

pub use transcript::{PrintFault, print};
