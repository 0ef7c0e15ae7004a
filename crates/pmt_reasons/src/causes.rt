//! Laws of the causes for which a store is not safe at a place.

ghost use Rattle.pmt_reasons.specs.Causes.{CauseExists, CauseIsUnique, PendingByFronts};

/// A store is missing at the end of some run to a place exactly where one of the three causes holds.
pub fn cause_exists()
    ensures { CauseExists }
{}

/// No two causes hold of a store at a place.
pub fn cause_is_unique()
    ensures { CauseIsUnique }
{}

/// A store is missing at the end of some run to a place exactly where its rank is above the front there.
pub fn pending_by_fronts()
    ensures { PendingByFronts }
{}
