//! Where bytes come from and where they go: sources, sinks, and a page of text before a sink.
#![tactic(auto)]

mod bytes;
mod memory;
mod page;
mod sink;
mod source;
mod standard;
mod sure;
#[cfg(test)]
mod tests;
mod whole;

pub use memory::{MemSink, MemSource};
pub use page::Page;
pub use sink::Sink;
pub use source::{Failed, Source};
pub use standard::{StdSink, StdSource};
pub use sure::{SureSink, SureSource};
pub use whole::{ReadAllFault, read_all, send};
