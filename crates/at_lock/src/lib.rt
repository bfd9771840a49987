//! Locks: taking them, waiting for them, giving them back, the values that come with them, and the passes that split off
//! and are taken in under the lock of the types.
#![tactic(auto)]

pub mod family;
pub mod slots;
pub mod taking;
#[cfg(test)]
mod tests;

pub use family::{NoPass, join, split};
pub use slots::{body_in, body_out, types_in, types_out};
pub use taking::{Taken, give, take, try_take};
