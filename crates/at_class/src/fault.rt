//! Why a write of classes was not made.
use at_value::Place;
use std::alloc::AllocError;
use thiserror::Error;

/// A write that wasn't made, and is no refusal.
#[derive(Clone, Copy, Debug, PartialEq, Eq, Error)]
pub enum ClassFault {
    /// There are as many writes as there may be: the place that was loaded.
    #[error("there are {} writes, as many as there may be", .0.0)]
    PlaceFull(Place),
    #[error("out of memory")]
    NoMemory,
}
