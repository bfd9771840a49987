//! Tests that run the kept classes, `Types`, beside the plain data model, `Plain`, on random graphs of classes.
#![tactic(auto)]

#[cfg(test)]
mod tests;
