//! The atomic core: the rule of the shared table, the steps of its passes, and the law that every run of steps keeps the
//! rule.
#![tactic(auto)]

mod close_world;
pub mod family;
mod hand;
mod head_word;
pub mod heads;
pub mod keys;
pub mod laws;
pub mod lock;
pub mod locking;
pub mod note;
mod object_end;
mod open_world;
mod pass;
pub mod places;
pub mod sequences;
pub mod stored;
#[cfg(test)]
mod tests;
mod waiting;
pub mod world;

pub use close_world::Unclosed;
pub use lock::Lock;
pub use note::Note;
pub use open_world::OpenFault;
pub use stored::Stored;
pub use world::{Pass, World};
