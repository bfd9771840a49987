//! Scripts: lists of statements that make classes and objects and work on their attributes, and the reader of their
//! text.
#![tactic(auto)]

mod examples;
mod fault;
mod forms;
mod keyword;
mod laws;
mod lines;
mod literal;
mod meaning;
mod number;
mod numbering;
mod operands;
mod reader;
mod script;
mod so_far;
mod stage;
mod statements;
mod stmt;
mod tables;
#[cfg(test)]
mod tests;
mod word;

pub use fault::{Cause, ReadFault};
pub use laws::{
    names_are_told_apart, nothing_behind_counts, offence_is_the_first, scripts_are_short,
    scripts_have_no_offence,
};
pub use reader::read;
pub use script::Script;
pub use stmt::{Block, Operand, Stmt, Target};
