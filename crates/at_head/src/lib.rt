//! The heads of objects and their inline values: what a head's word says, and the steps on heads by what they say.
#![tactic(auto)]

pub mod head;
pub mod looking;
#[cfg(test)]
mod tests;
pub mod writing;

pub use at_core::heads::{load_inline, store_inline};
pub use head::{Head, Layout};
pub use looking::load_head;
pub use writing::{Worn, close_write, open_write};
