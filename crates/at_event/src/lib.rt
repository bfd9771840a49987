//! Whole events: views of one history of writes, and the events by which they split, join, read and write.
#![tactic(auto)]

pub mod laws;
#[cfg(test)]
mod tests;
