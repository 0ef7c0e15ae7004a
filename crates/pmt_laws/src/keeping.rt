//! What a selection of events keeps of a trace, and the selection of the events that matter.
ghost use Rattle.pmt_laws.specs.ModelLaws.{KeepExists, KeepIsFaithful, KeepIsUnique, FrontsDecide};

/// At a place where a selection has the front of the trace for each line, a crash may leave the same images and the same
/// counts of persisted stores after both.
pub fn fronts_decide()
    ensures { FrontsDecide }
{}

/// Each trace has a rising list of the events that are kept.
pub fn keep_exists()
    ensures { KeepExists }
{}

/// A trace has at most one rising list of the events that are kept.
pub fn keep_is_unique()
    ensures { KeepIsUnique }
{}

/// At every place of a trace, a crash may leave the same after the events so far and after those of them that are kept.
pub fn keep_is_faithful()
    ensures { KeepIsFaithful }
{}
