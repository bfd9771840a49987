//! The lines of a transcript, read back from their text.
#![tactic(auto)]

mod cursor;
mod fault;
mod index;
mod line;
mod list;
mod number;
mod operation;
mod reply;
#[cfg(test)]
mod tests;
mod value;

pub use cursor::Cursor;
pub use fault::PieceFault;
pub use index::Index;
pub use line::line_at;
