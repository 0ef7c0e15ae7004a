//! Laws of the crashes that violate assertions.

ghost use Rattle.pmt_reasons.specs.Failures.{CrashIsMoment, PersistFailureFails, OrderedFailureFails};

/// The crash is at a moment of a run to each later place, and at the end of a run to its own.
pub fn crash_is_moment()
    ensures { CrashIsMoment }
{}

/// An isPersist with a failure does not pass.
pub fn persist_failure_fails()
    ensures { PersistFailureFails }
{}

/// An isOrderedBefore with a failure does not pass.
pub fn ordered_failure_fails()
    ensures { OrderedFailureFails }
{}
