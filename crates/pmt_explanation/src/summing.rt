//! What an explanation begins with.
ghost use Rattle.pmt_explanation.specs.Summing.{IsSummary};

use crate::counting::{Counts, counts_of, is_reason_of_fence};
use crate::explaining::Explanation;

/// The counts of an explanation.
#[derive(Clone, Copy)]
pub struct Summary {
    /// The events of the trace.
    pub events: u64,
    /// The threads that make them.
    pub threads: u64,
    /// The lines that are stored or flushed.
    pub cache_lines: u64,
    /// The assertions.
    pub assertions: u64,
    /// The assertions that fail.
    pub failing: u64,
    /// The stores.
    pub stores: u64,
    /// The stores that are never persisted and not ignored.
    pub never_persisted: u64,
    /// The flushes: clwb, clflushopt and clflush.
    pub flushes: u64,
    /// The flushes that are dropped.
    pub flushes_dropped: u64,
    /// The fences.
    pub fences: u64,
    /// The fences that are dropped.
    pub fences_dropped: u64,
    /// The stores that are never persisted and ignored.
    pub ignored_never_persisted: u64,
    /// The pairs of an overwritten and an overwriting store that are ignored.
    pub ignored_overwritten: u64,
}

/// The counts of the explanation.
pub fn summary_of(explanation: &Explanation) -> Summary
    ensures { IsSummary explanation.now result }
{
    let events = explanation.analysis.trace().events();
    let Counts {
        stores,
        flushes,
        fences,
        threads,
    } = counts_of(events);
    let dropped = explanation.dropped.len();
    let fences_dropped = explanation
        .dropped
        .iter()
        .filter(|entry| is_reason_of_fence(entry.reason))
        .count();
    Summary {
        events: events.len() as u64,
        threads: threads as u64,
        cache_lines: explanation.analysis.lines() as u64,
        assertions: explanation.analysis.verdicts().len() as u64,
        failing: explanation.failing.len() as u64,
        stores: stores as u64,
        never_persisted: explanation.stores.len() as u64,
        flushes: flushes as u64,
        flushes_dropped: dropped.saturating_sub(fences_dropped) as u64,
        fences: fences as u64,
        fences_dropped: fences_dropped as u64,
        ignored_never_persisted: explanation.ignored_never_persisted,
        ignored_overwritten: explanation.ignored_overwritten,
    }
}
