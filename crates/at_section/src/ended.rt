//! What the end of a section answers.
use at_value::Place;

/// Whether a section had its locks throughout.
#[derive(Clone, Copy, Debug, PartialEq, Eq)]
pub enum How {
    /// It had them from its begin to its end: no other pass wrote its objects.
    Kept,
    /// It was given back so often, at least once; the count stays at 4,294,967,295.
    Suspended(u32),
}

/// The end of a section.
#[derive(Clone, Copy, Debug, PartialEq, Eq)]
pub struct Ended {
    /// The place that was loaded while the section had its locks, before they were given back.
    pub place: Place,
    pub how: How,
}
