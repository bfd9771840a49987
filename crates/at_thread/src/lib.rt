//! How a thread executes the statements of its block: what it demands next, and what becomes of the reply.
#![tactic(auto)]

mod actions;
mod calls;
pub mod examples;
pub mod laws;
mod next;
mod operands;
mod replies;
mod stack;
#[cfg(test)]
mod tests;
mod thread;

pub use next::{Action, Call, Next, OnReturn, ReplyUse, Request};
pub use thread::Thread;
