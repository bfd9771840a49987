//! Running a whole script: on the plain data model, one block after another.
#![tactic(auto)]

pub mod examples;
pub mod laws;
mod plain_run;
#[cfg(test)]
mod tests;

pub use plain_run::run_plain;
