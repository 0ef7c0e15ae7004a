//! What the entries tell of a trace: each function has an empty body, and its contract states a law.

ghost use Rattle.pmt_rows.specs.Known.{EachLinked, NoneLinked, PendingIsBelow, RaiseLinks};

/// Before the first event the entry at 0 alone tells all.
pub fn none_linked()
    ensures { NoneLinked }
{}

/// The entries go on event by event.
pub fn each_linked()
    ensures { EachLinked }
{}

/// Where the last safe store of a line rises, the entries of the stores that it passes are to be its place.
pub fn raise_links()
    ensures { RaiseLinks }
{}

/// An event is a store that is not safe exactly where its entry is below its number.
pub fn pending_is_below()
    ensures { PendingIsBelow }
{}
