//! Laws of the assertions and of the stores that are never persisted.

ghost use Rattle.pmt_laws.specs.ModelLaws.{PersistByFronts, OrderedByFronts, VerdictsStay, NeverPersistedByFronts, NeverPersistedStays};

/// `isPersist` passes after a history exactly if, for each byte of its range, the front covers the last store to it.
pub fn persist_by_fronts()
    ensures { PersistByFronts }
{}

/// `isOrderedBefore` passes after a history exactly if each last store to a byte of the first range persists no later than
/// each last store to a byte of the second, by the fronts as of the latter.
pub fn ordered_by_fronts()
    ensures { OrderedByFronts }
{}

/// A store is never persisted in some run of the whole trace exactly if the front of its line ends below its rank.
pub fn never_persisted_by_fronts()
    ensures { NeverPersistedByFronts }
{}

/// Each assertion has the same verdict in the trace and in its kept selection.
pub fn verdicts_stay()
    ensures { VerdictsStay }
{}

/// The same stores are never persisted in the trace and in its kept selection.
pub fn never_persisted_stays()
    ensures { NeverPersistedStays }
{}
