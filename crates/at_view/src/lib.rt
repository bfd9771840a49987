//! The words of the shared table by name, and what a pass knows: its view. Contracts alone speak of views; no value of
//! them is made.
#![tactic(auto)]

pub mod laws;
pub mod mark;
#[cfg(test)]
mod tests;
pub mod view;
pub mod words;

pub use mark::{Mark, StepKind, Trail};
pub use view::{HistoryView, View};
