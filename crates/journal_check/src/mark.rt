//! What is kept of an event for each edge that it needs.

/// The number of an event's attempt, and its stamp.
#[derive(Clone, Copy)]
pub(crate) struct Mark {
    pub(crate) attempt: u64,
    pub(crate) stamp: u32,
}
