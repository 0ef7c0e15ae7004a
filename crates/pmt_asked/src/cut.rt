//! A trace that is not all of what happened.

/// Where a trace was cut, and why.
#[derive(Drop)]
pub struct Cut {
    /// The number of its last event; none where it has none, or that is not known.
    pub event: Option<u64>,
    /// Why it has no more; empty where that is not known.
    pub why: String,
}
