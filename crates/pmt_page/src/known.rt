//! What the page is told of a trace besides its events.
use pmt_explain::Dropped;
use pmt_model::Verdict;

/// From which place on no crash loses a store. Place p is right after the first p events.
#[derive(Clone, Copy)]
pub struct SafePlace {
    /// The store's number, from 1.
    pub store: u64,
    /// The first place; none where it is never persisted.
    pub place: Option<u64>,
}

/// What is found of the events of a trace.
#[derive(Clone, Copy)]
pub struct EventFindings<'a> {
    /// Of each store, in event order, when it is safe.
    pub safe: &'a [SafePlace],
    /// Of each assertion, in event order, whether it passes.
    pub verdicts: &'a [Verdict],
    /// The flushes and fences without effect. Of several entries of one event the first one counts.
    pub dropped: &'a [Dropped],
}

/// What of a trace is in its columns.
#[derive(Clone, Copy)]
pub enum Kept {
    /// All.
    Whole,
    /// All but the bytes of stores.
    WithoutValues,
    /// All but these and the ranges of assertions.
    WithoutRanges,
}
