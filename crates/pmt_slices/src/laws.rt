//! What holds of slices: each function has an empty body, and its contract states a law.

ghost use Rattle.pmt_slices.specs.Slices.{SliceFails, SliceJudges, SliceTells, VerdictBySelection, StoreSliceTells};
ghost use Rattle.pmt_slices.specs.Stories.{StoryTells};

/// An assertion has the same verdict in the trace and in the trace cut to some of its events, if these are the last stores to the bytes
/// of its ranges and what made each of these stores safe first.
pub fn verdict_by_selection()
    ensures { VerdictBySelection }
{}

/// The slice of an assertion gives it the same verdict.
pub fn slice_judges()
    ensures { SliceJudges }
{}

/// In the slice of an assertion each last store to a byte of its ranges is safe where it is safe in the trace, and else pending for the
/// same cause.
pub fn slice_tells()
    ensures { SliceTells }
{}

/// The crash that violates a failed assertion of the trace is the one of its slice: it keeps and loses the same stores, at the same bytes.
pub fn slice_fails()
    ensures { SliceFails }
{}

/// The story of a failed assertion has events of the assertion's slice alone, among them the store that its crash loses, the one that it
/// keeps, and the assertion.
pub fn story_tells()
    ensures { StoryTells }
{}

/// A store is as lost and as late in its slice as in the trace: safe at the same places, and else pending for the same cause; and late in the
/// one exactly if it is in the other.
pub fn store_slice_tells()
    ensures { StoreSliceTells }
{}
