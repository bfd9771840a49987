//! The vocabulary of the data model: numbers of names, classes, objects and functions, values, operations and replies,
//! the words of values and operations, and the short lists and the map that they stand in.
#![tactic(auto)]

mod bits;
mod limits;
mod list;
mod number;
mod operation;
mod packing;
mod pairs;
mod reply;
mod sequence;
pub mod sorted;
#[cfg(test)]
mod tests;
mod value;
mod word;

pub use limits::{Limits, PASSES};
pub use list::{Bases, BasesFull, ClassList};
pub use number::{Class, Func, Name, Obj};
pub use operation::Op;
pub use packing::{pack, packing_laws, unpack};
pub use pairs::Pairs;
pub use reply::{Answer, HookKind, Miss, Path, Place, Reply};
pub use sequence::Sequence;
pub use value::{Prop, Value};
pub use word::{from_word, to_word, word_laws};
