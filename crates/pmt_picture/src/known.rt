//! What is known of a trace before it is drawn.
use pmt_explain::Dropped;
use pmt_model::{Trace, Verdict};
use pmt_reasons::Reason;

/// What is known of a trace.
#[derive(Clone, Copy)]
pub struct KnownTrace<'a> {
    /// The trace.
    pub trace: &'a Trace,
    /// How many lines are stored or flushed in it.
    pub lines: u64,
    /// The verdicts of its assertions, in event order.
    pub verdicts: &'a [Verdict],
    /// The stores that are never persisted, by rising number.
    pub never: &'a [u64],
    /// The events that are dropped, by rising number, each with its reason.
    pub dropped: &'a [Dropped],
}

impl KnownTrace<'_> {
    /// Why the event with this number is dropped, if it is.
    pub fn reason(&self, number: u64) -> Option<Reason> {
        let index = self
            .dropped
            .binary_search_by_key(&number, |other| other.event)
            .ok()?;
        let other = self.dropped.get(index)?;
        Some(other.reason)
    }

    /// Whether the assertion with this number passes; none where the event is no assertion or there is none.
    pub fn pass(&self, number: u64) -> Option<bool> {
        let index = self
            .verdicts
            .binary_search_by_key(&number, |verdict| verdict.event)
            .ok()?;
        let verdict = self.verdicts.get(index)?;
        Some(verdict.pass)
    }
}
