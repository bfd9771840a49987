//! What operations that go by locks have in common: a section with the lock of the types, what is found under it, and the answer.
#![tactic(auto)]

pub mod beginning;
pub mod ending;
pub mod finding;

pub use beginning::begin_call;
pub use ending::{answer, end_call};
pub use finding::{class_of_object, three_of};
