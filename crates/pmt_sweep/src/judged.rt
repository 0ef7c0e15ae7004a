//! The two assertions.

ghost use Rattle.pmt_sweep.specs.Judged.{OrderedByLinks, PersistByBytes};

/// `isPersist` passes exactly if the last store to each byte of its range that has one is safe.
pub fn persist_by_bytes()
    ensures { PersistByBytes }
{}

/// `isOrderedBefore` passes exactly if each last store to a byte of the first range comes before each one to a byte of the second on their
/// line, or is safe, from a place no later than that one: the entry of a safe store is its place.
pub fn ordered_by_links()
    ensures { OrderedByLinks }
{}
