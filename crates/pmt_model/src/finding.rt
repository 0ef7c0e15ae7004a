//! Findings and verdicts.
ghost use Rattle.std.specs.Prelude.{◌≡◌};
ghost use Rattle.pmt_model.specs.Analyses.{reported_at};

/// What is found in a trace besides its verdicts. Events go by their numbers, from 1 (own profile, in the manner of
/// pmemcheck's reports).
#[derive(Clone, Copy, Debug, PartialEq, Eq)]
pub enum Finding {
    /// Store `earlier` was the last store to a byte that store `later` writes, and its line was not flushed in between.
    Overwritten { earlier: u64, later: u64 },
    /// Some run of the whole trace ends with the store not persisted; `flushed` tells whether a flush of its line follows.
    NeverPersisted { event: u64, flushed: bool },
    /// The flush has no store to mark that is not safe already or marked already.
    RedundantFlush { event: u64 },
    /// The thread of the fence has made no flush since its last fence.
    FenceWithoutFlush { event: u64 },
}

impl Finding {
    /// The number of the event at which the finding is reported: of two stores the later.
    pub fn event(&self) -> u64
        ensures { result ≡ reported_at self.now }
    {
        match *self {
            Finding::Overwritten { earlier: _, later } => later,
            Finding::NeverPersisted { event, flushed: _ } => event,
            Finding::RedundantFlush { event } => event,
            Finding::FenceWithoutFlush { event } => event,
        }
    }
}

/// Whether the assertion with this number passes. `ordered` tells isOrderedBefore from isPersist.
#[derive(Clone, Copy, Debug, PartialEq, Eq)]
pub struct Verdict {
    pub event: u64,
    pub ordered: bool,
    pub pass: bool,
}
