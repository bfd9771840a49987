//! Look-ups in classes under locks: special methods, names of classes, `super`, and orders.
#![tactic(auto)]

pub mod reading;
mod replies;

pub use reading::{class_get, class_of, mro, special, super_get};
