//! Laws of the reasons for which flushes and fences are dropped.

ghost use Rattle.pmt_reasons.specs.Reasons.{OvertakerIsKept, ReasonExists, ReasonIsUnique};

/// An event is dropped exactly where one of the reasons holds of it.
pub fn reason_exists()
    ensures { ReasonExists }
{}

/// No two reasons hold of an event.
pub fn reason_is_unique()
    ensures { ReasonIsUnique }
{}

/// The event that overtakes a flush is kept.
pub fn overtaker_is_kept()
    ensures { OvertakerIsKept }
{}
