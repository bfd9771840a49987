//! The lines of a run, the history that their writes make, and which lists of lines are legal.
#![tactic(auto)]

pub mod examples;
pub mod laws;
mod line;
#[cfg(test)]
mod tests;

pub use line::{FINALLY_THREAD, Line, LineOp, LineReply, Lines, Local, MAIN_THREAD, Ran, What};
